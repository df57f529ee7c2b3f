// Actions: what redaction does to a value.
ghost use Rattle.std.specs.Prelude.{◌≡◌, ℕ, ◌+◌, ◌-◌, ◌^◌, ◌≤◌, ◌<◌, min, length, take, drop, nat_abs};
ghost use Rattle.text.specs.Text.{Text, Wrote};
ghost use Rattle.er7_redact.specs.Action.{verb_with_argument, verb, without_plus, whole, read_count, read_mask, is_negative, without_sign, DAYS_MAX, read_argument, refusal_of, or_refused, read_action, print_days, print_action, replacement, as_action, ActionHeld, held_action, held_read, argument, argument_at, answer, written, room, is_keep, is_null_action};
ghost use Rattle.text.specs.Number.{take_number};
ghost use Rattle.er7_redact.specs.Inner.{Unsigned, held_bare, held_number, held_count, held_days};
ghost use Rattle.er7_redact.specs.Action as Spec;

use calendar::texts::{shift_at, shifted_len};
use pseudonym::pseudonym;
use refusal::Refusal;
use text::bytes::{Class, byte_at, copy_at, fill_at, is_word, run_end};
use text::decimal::{decimal_at, decimal_len, number_at};

// The actions. A replacement is len bytes of a text from index start on; len is 0 for that of a bare `replace`.
#[derive(Clone, Copy)]
pub enum Action {
    Keep,
    Clear,
    Null,
    Replace { start: usize, len: usize },
    Mask(u8),
    First(u64),
    Last(u64),
    Pseudonym,
    Shift(i64),
}

// An action's name.
#[derive(Clone, Copy)]
pub enum Verb {
    Keep,
    Clear,
    Null,
    Replace,
    Mask,
    First,
    Last,
    Pseudonym,
    Shift,
    Unknown,
}

// The action a as a number, each by its own.
pub fn kind(a: Action) -> u8
    ensures { (t : Text) → result ≡ Spec.kind (as_action t a) }
{
    match a {
        Action::Keep => 0,
        Action::Clear => 1,
        Action::Null => 2,
        Action::Replace { start: _, len: _ } => 4,
        Action::Mask(_) => 5,
        Action::First(_) => 6,
        Action::Last(_) => 7,
        Action::Pseudonym => 3,
        Action::Shift(_) => 8,
    }
}

// Whether a is `keep`, and whether it is `null`.
pub fn is_keep(a: Action) -> bool
    ensures { (t : Text) → result ≡ is_keep (as_action t a) }
{
    kind(a) == 0
}

pub fn is_null_action(a: Action) -> bool
    ensures { (t : Text) → result ≡ is_null_action (as_action t a) }
{
    kind(a) == 2
}

// Which action with an argument a word names.
fn verb_with_argument(s: &[u8]) -> Verb
    ensures { result ≡ verb_with_argument s.now }
{
    if is_word(s, b"replace") {
        return Verb::Replace;
    }
    if is_word(s, b"mask") {
        return Verb::Mask;
    }
    if is_word(s, b"first") {
        return Verb::First;
    }
    if is_word(s, b"last") {
        return Verb::Last;
    }
    if is_word(s, b"shift") {
        return Verb::Shift;
    }
    Verb::Unknown
}

// Which action a word names.
fn verb_of(s: &[u8]) -> Verb
    ensures { result ≡ verb s.now }
{
    if is_word(s, b"keep") {
        return Verb::Keep;
    }
    if is_word(s, b"clear") {
        return Verb::Clear;
    }
    if is_word(s, b"null") {
        return Verb::Null;
    }
    if is_word(s, b"pseudonym") {
        return Verb::Pseudonym;
    }
    verb_with_argument(s)
}

// Where the count begins that stands in s from index i on, behind a `+` if there is one.
fn without_plus(s: &[u8], i: usize) -> usize
    requires { i ≤ length s.now }
    ensures { Unsigned without_plus s.now i result }
{
    if i < s.len() {
        if s[i] == b'+' {
            return i + 1;
        }
    }
    i
}

// The number that stands in s from index i on, up to its end.
fn read_whole(s: &[u8], i: usize) -> Option<u64>
    requires { i ≤ length s.now }
    ensures { result ≡ held_number (whole (take_number (drop i s.now))) }
{
    let (n, r) = number_at(s, i)?;
    if r != s.len() {
        return None;
    }
    Some(n)
}

// The count that stands in s from index i on, up to its end.
fn read_count(s: &[u8], i: usize) -> Result<u64, Refusal>
    requires { i ≤ length s.now }
    ensures { result ≡ held_count (read_count (drop i s.now)) }
{
    read_whole(s, without_plus(s, i)).ok_or(Refusal::BadAction)
}

// The action a, which takes no argument, if nothing stands in s from index i on.
fn read_bare(a: Action, s: &[u8], i: usize) -> Result<Action, Refusal>
    requires { i ≤ length s.now }
    ensures { result ≡ held_bare a (drop i s.now) }
{
    if i != s.len() {
        return Err(Refusal::BadAction);
    }
    Ok(a)
}

// `mask` with the argument that stands in s from index i on.
fn read_mask(s: &[u8], i: usize) -> Result<Action, Refusal>
    requires { i ≤ length s.now }
    ensures { (j n : ℕ) → result ≡ held_action j n (read_mask (drop i s.now)) }
{
    if i == s.len() {
        return Ok(Action::Mask(b'*'));
    }
    if i + 1 == s.len() {
        return Ok(Action::Mask(s[i]));
    }
    Err(Refusal::BadAction)
}

// Whether a minus stands in s at index i.
fn is_negative(s: &[u8], i: usize) -> bool
    requires { i ≤ length s.now }
    ensures { result ≡ is_negative (drop i s.now) }
{
    (i < s.len()) && (s[i] == b'-')
}

// Where the digits begin that stand in s from index i on, behind a sign if there is one.
fn without_sign(s: &[u8], i: usize) -> usize
    requires { i ≤ length s.now }
    ensures { Unsigned without_sign s.now i result }
{
    if i < s.len() {
        if (s[i] == b'+') | (s[i] == b'-') {
            return i + 1;
        }
    }
    i
}

// The greatest number of days that a date is moved by.
const DAYS_MAX: u64 = 3650;

// Days forward or, with a minus, backward.
fn signed(minus: bool, days: u64) -> i64
    requires { days ≤ DAYS_MAX }
    ensures { result ≡ Spec.signed minus days }
{
    if minus {
        return -(days as i64);
    }
    days as i64
}

// The days that stand in s from index i on, up to its end.
fn read_days(s: &[u8], i: usize) -> Result<i64, Refusal>
    requires { i ≤ length s.now }
    ensures { result ≡ held_days (Spec.read_days (drop i s.now)) }
{
    let days = read_whole(s, without_sign(s, i)).ok_or(Refusal::BadDayCount)?;
    if DAYS_MAX < days {
        return Err(Refusal::BadDayCount);
    }
    Ok(signed(is_negative(s, i), days))
}

// The action that v names, with the argument that stands in s from index i on; s stands in a text from index base on.
fn read_argument(v: Verb, s: &[u8], i: usize, base: usize) -> Result<Action, Refusal>
    requires { (i ≤ length s.now) × (base + length s.now < 2 ^ 64) }
    ensures { result ≡ held_read (base + i) (length s.now - i) (or_refused (refusal_of v) (read_argument v (drop i s.now))) }
{
    match v {
        Verb::Keep => read_bare(Action::Keep, s, i),
        Verb::Clear => read_bare(Action::Clear, s, i),
        Verb::Null => read_bare(Action::Null, s, i),
        Verb::Pseudonym => read_bare(Action::Pseudonym, s, i),
        Verb::Replace => {
            let start = base + i;
            let len = s.len() - i;
            Ok(Action::Replace { start, len })
        }
        Verb::Mask => read_mask(s, i),
        Verb::First => Ok(Action::First(read_count(s, i)?)),
        Verb::Last => Ok(Action::Last(read_count(s, i)?)),
        Verb::Shift => Ok(Action::Shift(read_days(s, i)?)),
        Verb::Unknown => Err(Refusal::BadAction),
    }
}

// Reads s, which has no blanks around it and stands in a text from index base on, as an action.
pub fn parse(s: &[u8], base: usize) -> Result<Action, Refusal>
    requires { base + length s.now < 2 ^ 64 }
    ensures { result ≡ held_read (base + argument_at s.now) (length (argument s.now)) (read_action s.now) }
{
    let end = run_end(s, 0, Class::NotBlank);
    let start = run_end(s, end, Class::Blank);
    let v = verb_of(&s[0..end]);
    read_argument(v, s, start, base)
}

// Writes a replacement, len bytes of text from index start on or that of a bare `replace`, to out from index at on, and returns the index behind it.
fn put_replacement(text: &[u8], start: usize, len: usize, out: &mut [u8], at: usize) -> usize
    requires { (start + len ≤ length text.now) × (at + length (replacement text.now start len) ≤ length out.old) }
    ensures { Wrote out.old at (replacement text.now start len) out.new result }
{
    if len == 0 {
        return copy_at(out, at, b"REDACTED");
    }
    let end = start + len;
    copy_at(out, at, &text[start..end])
}

// The days n without their sign.
fn magnitude(n: i64) -> u64
    ensures { result ≡ nat_abs n }
{
    n.unsigned_abs()
}

// Writes the days n to out from index at on, and returns the index behind them.
fn days_at(out: &mut [u8], at: usize, n: i64) -> usize
    requires { at + length (print_days n) ≤ length out.old }
    ensures { Wrote out.old at (print_days n) out.new result }
{
    if n < 0 {
        let k = byte_at(out, at, b'-');
        return decimal_at(out, k, magnitude(n));
    }
    decimal_at(out, at, magnitude(n))
}

// The length of what days_at writes.
fn days_len(n: i64) -> usize
    ensures { (result ≡ length (print_days n)) × (result ≤ 21) }
{
    if n < 0 {
        return decimal_len(magnitude(n)) + 1;
    }
    decimal_len(magnitude(n))
}

// Writes the action a, whose replacement stands in text, to out from index at on, and returns the index behind it.
pub fn print(a: Action, text: &[u8], out: &mut [u8], at: usize) -> usize
    requires { ActionHeld text.now a × (at + length (print_action (as_action text.now a)) ≤ length out.old) }
    ensures { Wrote out.old at (print_action (as_action text.now a)) out.new result }
{
    match a {
        Action::Keep => copy_at(out, at, b"keep"),
        Action::Clear => copy_at(out, at, b"clear"),
        Action::Null => copy_at(out, at, b"null"),
        Action::Replace { start, len } => {
            let k = copy_at(out, at, b"replace ");
            put_replacement(text, start, len, out, k)
        }
        Action::Mask(c) => {
            let k = copy_at(out, at, b"mask ");
            byte_at(out, k, c)
        }
        Action::First(n) => {
            let k = copy_at(out, at, b"first ");
            decimal_at(out, k, n)
        }
        Action::Last(n) => {
            let k = copy_at(out, at, b"last ");
            decimal_at(out, k, n)
        }
        Action::Pseudonym => copy_at(out, at, b"pseudonym"),
        Action::Shift(n) => {
            let k = copy_at(out, at, b"shift ");
            days_at(out, k, n)
        }
    }
}

// The length of a replacement of len bytes, or of that of a bare `replace`.
fn replacement_len(len: usize) -> usize
    ensures { ((t : Text) (i : ℕ) → i + len ≤ length t → result ≡ length (replacement t i len)) × (result ≤ len + 8) }
{
    if len == 0 {
        return 8;
    }
    len
}

// The length of what print writes.
pub fn printed_len(a: Action, text: &[u8]) -> usize
    requires { ActionHeld text.now a }
    ensures { result ≡ length (print_action (as_action text.now a)) }
{
    match a {
        Action::Keep => 4,
        Action::Clear => 5,
        Action::Null => 4,
        Action::Replace { start: _, len } => replacement_len(len) + 8,
        Action::Mask(_) => 6,
        Action::First(n) => decimal_len(n) + 6,
        Action::Last(n) => decimal_len(n) + 5,
        Action::Pseudonym => 9,
        Action::Shift(n) => days_len(n) + 6,
    }
}

// How many of len bytes are kept where n may be.
fn kept_len(len: usize, n: u64) -> usize
    ensures { result ≡ min n len }
{
    n.min(len as u64) as usize
}

// Writes the first n bytes of value, or all if there are no more, to out from index at on, and returns the index behind them.
fn keep_first(value: &[u8], n: u64, out: &mut [u8], at: usize) -> usize
    requires { at + length (take n value.now) ≤ length out.old }
    ensures { Wrote out.old at (take n value.now) out.new result }
{
    let end = kept_len(value.len(), n);
    copy_at(out, at, &value[..end])
}

// Writes the last n bytes of value, or all if there are no more, to out from index at on, and returns the index behind them.
fn keep_last(value: &[u8], n: u64, out: &mut [u8], at: usize) -> usize
    requires { at + length (drop (length value.now - n) value.now) ≤ length out.old }
    ensures { Wrote out.old at (drop (length value.now - n) value.now) out.new result }
{
    let start = value.len() - kept_len(value.len(), n);
    copy_at(out, at, &value[start..])
}

// Writes the text that the action a, whose replacement stands in text, puts in the place of value, under key, to out from index at on,
// and returns the index behind it; nothing is written for `keep` and `null`.
pub fn apply(a: Action, text: &[u8], key: u64, value: &[u8], out: &mut [u8], at: usize) -> usize
    requires { ActionHeld text.now a × (at + room (Spec.apply key (as_action text.now a) value.now) ≤ length out.old) }
    ensures { Wrote out.old at (written (Spec.apply key (as_action text.now a) value.now)) out.new result }
{
    match a {
        Action::Keep => at,
        Action::Clear => at,
        Action::Null => at,
        Action::Replace { start, len } => put_replacement(text, start, len, out, at),
        Action::Mask(c) => fill_at(out, at, value.len(), c),
        Action::First(n) => keep_first(value, n, out, at),
        Action::Last(n) => keep_last(value, n, out, at),
        Action::Pseudonym => pseudonym(key, value, out, at),
        Action::Shift(n) => shift_at(value, n, out, at),
    }
}

// The length of what the action a writes in the place of value, if it writes.
pub fn applied_len(a: Action, value: &[u8]) -> Option<usize>
    ensures { (t : Text) (key : ℕ) → ActionHeld t a → result ≡ answer (Spec.apply key (as_action t a) value.now) }
{
    match a {
        Action::Keep => None,
        Action::Clear => Some(0),
        Action::Null => None,
        Action::Replace { start: _, len } => Some(replacement_len(len)),
        Action::Mask(_) => Some(value.len()),
        Action::First(n) => Some(kept_len(value.len(), n)),
        Action::Last(n) => Some(kept_len(value.len(), n)),
        Action::Pseudonym => Some(16),
        Action::Shift(n) => Some(shifted_len(value, n)),
    }
}
