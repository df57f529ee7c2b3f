// An action on one leaf, whose text stands in a store of texts.
ghost use Rattle.std.specs.Prelude.{◌≡◌, ◌+◌, ◌-◌, ◌≤◌, length};
ghost use Rattle.std.proofs.Math.Option.{some};
ghost use Rattle.text.specs.Text.{part};
ghost use Rattle.er7_redact.specs.Action.{as_action, ActionHeld, written};
ghost use Rattle.er7_redact.specs.Action as Actions;
ghost use Rattle.message_model.specs.Value.{NULL, encode};
ghost use Rattle.run_model.specs.Redact.{becomes, replaced};
ghost use Rattle.run_model.specs.Redact as Spec;
ghost use Rattle.redact_5_act.specs.Act.{Acted, ActedBeside, ActRoom, LeafHeld};
ghost use Rattle.redact_5_act.specs.Inner.{nulled, on_value, decoded_at, Decoded, Fits};
ghost use Rattle.refusal.specs.Limits.{TEXT_MAX};

use super::state::{Counters, Setting, is_over};
use er7::separators::Separators;
use er7_redact::action;
use er7_redact::action::Action;
use er7_value::escape;
use refusal::Refusal;
use text::bytes::{copy_at, same_bytes};

// An action on a leaf returns the length of the leaf's new text, or none where its text stays; or a refusal, where the new text would leave the
// message too long.

// Writes the null behind the texts in store, in the place of went bytes of the message.
pub fn put_null(store: &mut [u8; 98304], went: usize, c: Counters) -> Result<Option<usize>, Refusal>
    requires { c.size - went + 2 ≤ TEXT_MAX → c.used + 2 ≤ 98304 }
    ensures { Acted (becomes NULL) went c store.old store.new result }
{
    if is_over(c.size, went, 2) {
        return Err(Refusal::MessageTooLong);
    }
    copy_at(store, c.used, b"\"\"");
    Ok(Some(2))
}

// The value of n bytes that stands behind the texts in store, its delimiters escaped, in the place of a leaf of len bytes.
// Where one is escaped, bytes is for work.
fn put_escaped(
    s: Separators,
    n: usize,
    len: usize,
    store: &mut [u8; 98304],
    bytes: &mut [u8; 65536],
    c: Counters,
) -> Result<Option<usize>, Refusal>
    requires { ActRoom len c × (c.used + n ≤ 98304) × (n ≤ TEXT_MAX) }
    ensures { ActedBeside (becomes (encode s (part store.old c.used n))) len c store.old store.new bytes.old bytes.new result }
{
    let used = c.used;
    let end = used + n;
    let m = escape::encoded_len(&store[used..end], s);
    if is_over(c.size, len, m) {
        return Err(Refusal::MessageTooLong);
    }
    if m == n {
        return Ok(Some(n));
    }
    let from = c.known_used;
    let to = copy_at(bytes, from, &store[used..end]);
    escape::encode(&bytes[from..to], s, store, used);
    Ok(Some(m))
}

// What the action a, which writes n bytes, puts in the place of the value that stands in bytes from behind the learnt values to index to, unless it is the same.
fn put_value(
    on: Setting,
    a: Action,
    text: &[u8],
    to: usize,
    len: usize,
    store: &mut [u8; 98304],
    bytes: &mut [u8; 65536],
    c: Counters,
) -> Result<Option<usize>, Refusal>
    requires { ActionHeld text.now a × ActRoom len c × Decoded bytes.old to len c × Fits (Actions.apply on.key (as_action text.now a) (decoded_at bytes.old to c)) len c }
    ensures { ActedBeside (replaced on.separators (some (written (Actions.apply on.key (as_action text.now a) (decoded_at bytes.old to c)))) (decoded_at bytes.old to c)) len c store.old store.new bytes.old bytes.new result }
{
    let from = c.known_used;
    let used = c.used;
    let end = action::apply(a, text, on.key, &bytes[from..to], store, used);
    if same_bytes(&store[used..end], &bytes[from..to]) {
        return Ok(None);
    }
    put_escaped(on.separators, end - used, len, store, bytes, c)
}

// What the action a puts in the place of the value that stands in bytes from behind the learnt values to index to.
fn put_applied(
    on: Setting,
    a: Action,
    text: &[u8],
    to: usize,
    len: usize,
    store: &mut [u8; 98304],
    bytes: &mut [u8; 65536],
    c: Counters,
) -> Result<Option<usize>, Refusal>
    requires { ActionHeld text.now a × ActRoom len c × Decoded bytes.old to len c }
    ensures { ActedBeside (replaced on.separators (Actions.apply on.key (as_action text.now a) (decoded_at bytes.old to c)) (decoded_at bytes.old to c)) len c store.old store.new bytes.old bytes.new result }
{
    match action::applied_len(a, &bytes[c.known_used..to]) {
        None => Ok(None),
        Some(n) => {
            if is_over(c.size, len, n) {
                return Err(Refusal::MessageTooLong);
            }
            put_value(on, a, text, to, len, store, bytes, c)
        }
    }
}

// The action null on the leaf of len bytes in store from index start on.
fn act_null(
    start: usize,
    len: usize,
    store: &mut [u8; 98304],
    c: Counters,
) -> Result<Option<usize>, Refusal>
    requires { LeafHeld start len c }
    ensures { Acted (nulled (part store.old start len)) len c store.old store.new result }
{
    if escape::is_null(&store[start..start + len]) {
        return Ok(None);
    }
    put_null(store, len, c)
}

// The action a, other than null, on the value of that leaf.
fn act_value(
    on: Setting,
    a: Action,
    text: &[u8],
    start: usize,
    len: usize,
    store: &mut [u8; 98304],
    bytes: &mut [u8; 65536],
    c: Counters,
) -> Result<Option<usize>, Refusal>
    requires { ActionHeld text.now a × LeafHeld start len c }
    ensures { ActedBeside (on_value on.key on.separators (as_action text.now a) (part store.old start len)) len c store.old store.new bytes.old bytes.new result }
{
    let to = escape::value(
        &store[start..start + len],
        on.separators,
        bytes,
        c.known_used,
    );
    put_applied(on, a, text, to, len, store, bytes, c)
}

// The action a, whose replacement stands in text, on the leaf of len bytes in store from index start on. A new text is written behind
// those in store; bytes is for work behind the learnt values.
pub fn act(
    on: Setting,
    a: Action,
    text: &[u8],
    start: usize,
    len: usize,
    store: &mut [u8; 98304],
    bytes: &mut [u8; 65536],
    c: Counters,
) -> Result<Option<usize>, Refusal>
    requires { ActionHeld text.now a × LeafHeld start len c }
    ensures { ActedBeside (Spec.act on.key on.separators (as_action text.now a) (part store.old start len)) len c store.old store.new bytes.old bytes.new result }
{
    if action::is_null_action(a) {
        return act_null(start, len, store, c);
    }
    if escape::is_empty_or_null(&store[start..start + len]) {
        return Ok(None);
    }
    act_value(on, a, text, start, len, store, bytes, c)
}
