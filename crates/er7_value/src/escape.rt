// Escapes: the value of a leaf's text, and the text of a value.
ghost use Rattle.std.specs.Prelude.{◌≡◌, [], ◌∷◌, ◌++◌, ◌+◌, ◌*◌, ◌^◌, ◌≤◌, ◌<◌, length};
ghost use Rattle.text.specs.Text.{Wrote};
ghost use Rattle.message_model.specs.Value.{is_null, is_empty_or_null, delimiter_of, letter_run, pair, letter_of, encode_byte};
ghost use Rattle.message_model.specs.Value as Spec;
ghost use Rattle.er7_value.specs.Escape.{held};

use er7::separators::Separators;
use text::bytes::{Class, byte_at, copy_at, run_end, same_bytes};

// Whether the text of a leaf is the null `""`.
#[tactic(auto, unfolding(message_model::specs::Value::is_null, message_model::specs::Value::NULL, text::specs::Text::bytes, text::specs::Text::same))]
pub fn is_null(t: &[u8]) -> bool
    ensures { result ≡ is_null t.now }
{
    same_bytes(t, b"\"\"")
}

// Whether the text of a leaf is empty or null.
#[tactic(auto, using(crate::proofs::Decoding::empty_first, crate::proofs::Decoding::null_only))]
pub fn is_empty_or_null(t: &[u8]) -> bool
    ensures { result ≡ is_empty_or_null t.now }
{
    t.is_empty() || is_null(t)
}

// The delimiter that the letter l names.
#[tactic(auto, unfolding(crate::specs::Escape::held, message_model::specs::Value::delimiter_of))]
pub fn delimiter_of(s: Separators, l: u8) -> Option<u8>
    ensures { result ≡ held (delimiter_of s l) }
{
    match l {
        b'F' => Some(s.field),
        b'S' => Some(s.component),
        b'T' => Some(s.subcomponent),
        b'R' => Some(s.repetition),
        b'E' => Some(s.escape),
        _ => None,
    }
}

// The letter that names the delimiter b.
#[tactic(auto, unfolding(crate::specs::Escape::held, message_model::specs::Value::letter_of))]
pub fn letter_of(s: Separators, b: u8) -> Option<u8>
    ensures { result ≡ held (letter_of s b) }
{
    if b == s.field {
        Some(b'F')
    } else if b == s.component {
        Some(b'S')
    } else if b == s.subcomponent {
        Some(b'T')
    } else if b == s.repetition {
        Some(b'R')
    } else if b == s.escape {
        Some(b'E')
    } else {
        None
    }
}

// Writes the byte l between two escape characters to out from index at on, and returns the index behind them.
fn put_run(l: u8, escape: u8, out: &mut [u8], at: usize) -> usize
    requires { at + 3 ≤ length out.old }
    ensures { Wrote out.old at (escape ∷ l ∷ escape ∷ []) out.new result }
{
    let open = byte_at(out, at, escape);
    let close = byte_at(out, open, l);
    byte_at(out, close, escape)
}

// Writes the bytes w between two escape characters to out from index at on, and returns the index behind them.
fn put_itself(w: &[u8], escape: u8, out: &mut [u8], at: usize) -> usize
    requires { at + length w.now + 2 ≤ length out.old }
    ensures { Wrote out.old at (escape ∷ (w.now ++ (escape ∷ []))) out.new result }
{
    let open = byte_at(out, at, escape);
    let close = copy_at(out, open, w);
    byte_at(out, close, escape)
}

// Writes what a pair with the byte l between its two stands for to out from index at on, and returns the index behind it.
#[tactic(auto, using(crate::proofs::Decoding::letter_named, crate::proofs::Decoding::letter_unnamed))]
fn put_letter(l: u8, s: Separators, out: &mut [u8], at: usize) -> usize
    requires { at + 3 ≤ length out.old }
    ensures { Wrote out.old at (letter_run s l (delimiter_of s l)) out.new result }
{
    match delimiter_of(s, l) {
        Some(b) => byte_at(out, at, b),
        None => put_run(l, s.escape, out, at),
    }
}

// Writes what a pair with the bytes w between its two stands for to out from index at on, and returns the index behind it.
#[tactic(auto, using(crate::proofs::Decoding::pair_letter, crate::proofs::Decoding::pair_itself))]
fn put_pair(w: &[u8], s: Separators, out: &mut [u8], at: usize) -> usize
    requires { at + length w.now + 2 ≤ length out.old }
    ensures { Wrote out.old at (pair s w.now) out.new result }
{
    match w {
        [l] => put_letter(*l, s, out, at),
        _ => put_itself(w, s.escape, out, at),
    }
}

// Writes what text reads as, escapes decoded, to out from index at on, and returns the index behind it.
pub fn decode(text: &[u8], s: Separators, out: &mut [u8], at: usize) -> usize
    requires { at + length text.now ≤ length out.old }
    ensures { Wrote out.old at (Spec.decode s text.now) out.new result }
{
    let other = Class::AllBut(s.escape);
    let mut i = 0;
    let mut k = at;
    // a turn goes over a stretch and the pair behind it, so that a `for` over the bytes does not fit
    while i < text.len() {
        let open = run_end(text, i, other);
        k = copy_at(out, k, &text[i..open]);
        if open == text.len() {
            return k;
        }
        let start = open + 1;
        let close = run_end(text, start, other);
        if close == text.len() {
            return copy_at(out, k, &text[open..close]);
        }
        k = put_pair(&text[start..close], s, out, k);
        i = close + 1;
    }
    k
}

// Writes the value of a leaf's text to out from index at on, and returns the index behind it.
#[tactic(auto, using(crate::proofs::Decoding::value_null, crate::proofs::Decoding::value_other, text::proofs::Writes::wrote_none))]
pub fn value(text: &[u8], s: Separators, out: &mut [u8], at: usize) -> usize
    requires { at + length text.now ≤ length out.old }
    ensures { Wrote out.old at (Spec.value s text.now) out.new result }
{
    if is_null(text) {
        at
    } else {
        decode(text, s, out, at)
    }
}

// The length of what stands for the byte b of a value. All five are looked at, since asking letter_of takes a fifth longer.
#[tactic(auto, using(crate::proofs::Encoding::byte_tested))]
fn byte_len(s: Separators, b: u8) -> usize
    ensures is { result ≡ length (encode_byte s b (letter_of s b)) }
    ensures few { result ≤ 3 }
{
    if (b == s.field)
        | (b == s.component)
        | (b == s.subcomponent)
        | (b == s.repetition)
        | (b == s.escape)
    {
        3
    } else {
        1
    }
}

// The length of what encode writes.
pub fn encoded_len(v: &[u8], s: Separators) -> usize
    requires { 3 * length v.now < 2 ^ 64 }
    ensures { (result ≡ length (Spec.encode s v.now)) × (result ≤ 3 * length v.now) }
{
    v.iter().map(|b| byte_len(s, *b)).sum()
}

// Writes what stands for the byte b of a value to out from index at on, and returns the index behind it.
#[tactic(auto, using(crate::proofs::Encoding::byte_escaped, crate::proofs::Encoding::byte_itself))]
fn put_byte(b: u8, s: Separators, out: &mut [u8], at: usize) -> usize
    requires { at + length (encode_byte s b (letter_of s b)) ≤ length out.old }
    ensures { Wrote out.old at (encode_byte s b (letter_of s b)) out.new result }
{
    match letter_of(s, b) {
        Some(l) => put_run(l, s.escape, out, at),
        None => byte_at(out, at, b),
    }
}

// Writes the value v, its delimiters escaped, to out from index at on, and returns the index behind it.
pub fn encode(v: &[u8], s: Separators, out: &mut [u8], at: usize) -> usize
    requires { at + length (Spec.encode s v.now) ≤ length out.old }
    ensures { Wrote out.old at (Spec.encode s v.now) out.new result }
{
    let mut k = at;
    for b in v {
        k = put_byte(*b, s, out, k);
    }
    k
}
