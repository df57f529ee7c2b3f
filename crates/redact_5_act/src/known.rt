// The learnt values. Their bytes stand one behind the other in `bytes`, which has room for the value of a leaf behind them. `known` has a row for each value.
ghost use Rattle.std.specs.Prelude.{◌≡◌, ◌+◌, ◌≤◌, length};
ghost use Rattle.text.specs.Text.{Text, same, between};
ghost use Rattle.message_model.specs.Value.{is_whole_word};
ghost use Rattle.er7_value.specs.Starts.{Starts};
ghost use Rattle.run_model.specs.Redact as Spec;
ghost use Rattle.redact_5_act.specs.Known.{value_of, hash_of, known_from, Slot, Slots, GoodKnown, learn_value, learn_leaf, Learns, Swept};
ghost use Rattle.redact_5_act.specs.Inner.{first_marked, has_value, RowFound};
ghost use Rattle.refusal.specs.Limits.{TEXT_MAX};

use er7::separators::Separators;
use er7_redact::action;
use er7_redact::action::Action;
use er7_value::word;
use pseudonym::{OFFSET, fold};
use refusal::Refusal;
use refusal::limits::{LEARNT_BYTES_MAX, LEARNT_MAX};
use text::bytes::same_bytes;

// A learnt value: its hash, where its bytes start, how many they are, and its action.
#[derive(Clone, Copy)]
pub struct Known {
    pub hash: u64,
    pub start: usize,
    pub len: usize,
    pub action: Action,
}

// What stands in the table where no value is learnt yet.
pub const UNKNOWN: Known = Known {
    hash: 0,
    start: 0,
    len: 0,
    action: Action::Keep,
};

// The hash of the bytes from index i to index e.
fn hash_of(bytes: &[u8; 65536], i: usize, e: usize) -> u64
    requires { (i ≤ e) × (e ≤ 65536) }
    ensures { (result ≡ hash_of (between bytes.now i e)) × (e ≤ length bytes.now) }
{
    fold(OFFSET, &bytes[i..e])
}

// Whether the bytes from index i to index e, whose hash is h, are the value v.
fn is_value(bytes: &[u8; 65536], i: usize, e: usize, h: u64, v: &Known) -> bool
    requires { Slot bytes.now v.now × (i ≤ e) × (e ≤ 65536) × (h ≡ hash_of (between bytes.now i e)) }
    ensures { result ≡ same (between bytes.now i e) (value_of bytes.now v.now) }
{
    if v.hash != h {
        return false;
    }
    same_bytes(&bytes[i..e], &bytes[v.start..v.start + v.len])
}

// Whether the value v begins with a byte that is marked.
fn may_have(bytes: &[u8; 65536], starts: &[bool; 256], v: &Known) -> bool
    requires { Slot bytes.now v.now }
    ensures { result ≡ first_marked starts.now (value_of bytes.now v.now) }
{
    starts[bytes[v.start] as usize]
}

// Whether the value v is a whole word of the bytes from index i to index e.
fn has_word(bytes: &[u8; 65536], i: usize, e: usize, v: &Known) -> bool
    requires { Slot bytes.now v.now × (i ≤ e) × (e ≤ 65536) }
    ensures { result ≡ is_whole_word (value_of bytes.now v.now) (between bytes.now i e) }
{
    word::is_whole_word(&bytes[v.start..v.start + v.len], &bytes[i..e])
}

// Whether the bytes from index i to index e, whose hash is h, are one of n learnt values.
fn knows(
    bytes: &[u8; 65536],
    i: usize,
    e: usize,
    h: u64,
    known: &[Known; LEARNT_MAX],
    n: usize,
) -> bool
    requires { Slots bytes.now known.now n × (i ≤ e) × (e ≤ 65536) × (h ≡ hash_of (between bytes.now i e)) }
    ensures { (text : Text) → result ≡ Spec.knows (between bytes.now i e) (known_from text bytes.now known.now 0 n) }
{
    known[..n].iter().any(|v| is_value(bytes, i, e, h, v))
}

// Whether the value v has `least` bytes at least, and is a whole word of the bytes from index i to index e, in which the bytes that can
// start one are marked. A value that starts with none of them is told at one look.
fn has_value(
    bytes: &[u8; 65536],
    i: usize,
    e: usize,
    starts: &[bool; 256],
    least: usize,
    v: &Known,
) -> bool
    requires { Slot bytes.now v.now × (i ≤ e) × (e ≤ 65536) × Starts (between bytes.now i e) starts.now }
    ensures { result ≡ has_value (between bytes.now i e) bytes.now least v.now }
{
    if !may_have(bytes, starts, v) {
        return false;
    }
    if v.len < least {
        return false;
    }
    has_word(bytes, i, e, v)
}

// The row of the longest of n learnt values that is a whole word of the bytes from index i to index e, which are in lower case, of equally
// long ones the last; or none. Behind one that is found only longer ones are looked for.
fn found(
    bytes: &[u8; 65536],
    i: usize,
    e: usize,
    known: &[Known; LEARNT_MAX],
    n: usize,
) -> Option<usize>
    requires { Slots bytes.now known.now n × (i ≤ e) × (e ≤ 65536) }
    ensures { RowFound (between bytes.now i e) bytes.now known.now 0 n result }
{
    let mut starts = [false; 256];
    word::mark_starts(&bytes[i..e], &mut starts);
    let mut best = None;
    let mut least = 0;
    for k in (0..n).rev() {
        if has_value(bytes, i, e, &starts, least, &known[k]) {
            best = Some(k);
            least = known[k].len + 1;
        }
    }
    best
}

// The row of the learnt value for which the sweep acts on a leaf with the text t, or none; work is done in bytes behind the `used` ones of n values. A text of fewer bytes than any learnt value has none.
pub fn for_sweep(
    s: Separators,
    t: &[u8],
    bytes: &mut [u8; 65536],
    known: &[Known; LEARNT_MAX],
    n: usize,
    used: usize,
) -> Option<usize>
    requires { GoodKnown bytes.old known.now n used × (length t.now ≤ TEXT_MAX) }
    ensures { Swept s t.now bytes.old bytes.new known.now n used result }
{
    if t.len() < 3 {
        return None;
    }
    let end = word::lower_value(t, s, bytes, used);
    found(bytes, used, end, known, n)
}

// Learns the value that stands in bytes from index used to index e, of three bytes at least, with the action a, behind n values of `used` bytes,
// unless it is known. Returns how many values are known then, and how many bytes they take; or a refusal, if that is too much.
fn learn(
    a: Action,
    e: usize,
    bytes: &[u8; 65536],
    known: &mut [Known; LEARNT_MAX],
    n: usize,
    used: usize,
) -> Result<(usize, usize), Refusal>
    requires { GoodKnown bytes.now known.old n used × (used + 3 ≤ e) × (e ≤ 65536) }
    ensures { Learns (learn_value (between bytes.now used e) a) a bytes.now known.old n used bytes.now known.new result }
{
    let h = hash_of(bytes, used, e);
    if knows(bytes, used, e, h, known, n) {
        return Ok((n, used));
    }
    if (LEARNT_MAX <= n) | (LEARNT_BYTES_MAX < e) {
        return Err(Refusal::TooMuchLearnt);
    }
    known[n] = Known {
        hash: h,
        start: used,
        len: e - used,
        action: a,
    };
    Ok((n + 1, e))
}

// Learns what a leaf with the text t says, with the action a, behind n values of `used` bytes. Returns as `learn` does.
pub fn learn_leaf(
    a: Action,
    s: Separators,
    t: &[u8],
    bytes: &mut [u8; 65536],
    known: &mut [Known; LEARNT_MAX],
    n: usize,
    used: usize,
) -> Result<(usize, usize), Refusal>
    requires { GoodKnown bytes.old known.old n used × (length t.now ≤ TEXT_MAX) }
    ensures { Learns (learn_leaf s t.now a) a bytes.old known.old n used bytes.new known.new result }
{
    if action::is_keep(a) | (t.len() < 3) {
        return Ok((n, used));
    }
    let end = word::lower_value(t, s, bytes, used);
    if end - used < 3 {
        return Ok((n, used));
    }
    learn(a, end, bytes, known, n, used)
}
