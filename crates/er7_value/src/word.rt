// Words: values in lower case, and a value as a whole word of another.
ghost use Rattle.std.specs.Prelude.{◌≡◌, [], ◌+◌, ◌-◌, ◌≤◌, length, take, drop};
ghost use Rattle.text.specs.Text.{Wrote, lower, part, begins, same};
ghost use Rattle.message_model.specs.Value.{ends_word, is_hit, is_whole_word};
ghost use Rattle.message_model.specs.Value as Spec;
ghost use Rattle.er7_value.specs.Starts.{letter_before, Starts};

use super::escape::value;
use er7::separators::Separators;
use text::bytes::{Class, is_in, lower_byte};

// Puts buf from index i to index e in lower case.
#[tactic(auto, using(crate::proofs::Lowering::lowered))]
pub fn lower_part(buf: &mut [u8], i: usize, e: usize)
    requires { (i ≤ e) × (e ≤ length buf.old) }
    ensures { Wrote buf.old i (lower (part buf.old i (e - i))) buf.new e }
{
    for b in &mut buf[i..e] {
        *b = lower_byte(*b);
    }
}

// Writes the value of a leaf's text in lower case to out from index at on, and returns the index behind it.
pub fn lower_value(text: &[u8], s: Separators, out: &mut [u8], at: usize) -> usize
    requires { at + length text.now ≤ length out.old }
    ensures { Wrote out.old at (lower (Spec.value s text.now)) out.new result }
{
    let end = value(text, s, out, at);
    lower_part(out, at, end);
    end
}

// Whether v stands in t from index i on, byte by byte.
fn begins_by_bytes(v: &[u8], t: &[u8], i: usize) -> bool
    requires { i + length v.now ≤ length t.now }
    ensures { result ≡ begins v.now (drop i t.now) }
{
    for (j, b) in v.iter().enumerate() {
        if *b != t[i + j] {
            return false;
        }
    }
    true
}

// Whether the eight bytes of v from index j on are those of t from index k on. All are looked at, without a branch, which is faster.
fn same_eight(v: &[u8], j: usize, t: &[u8], k: usize) -> bool
    requires { (j + 8 ≤ length v.now) × (k + 8 ≤ length t.now) }
    ensures { result ≡ same (part v.now j 8) (part t.now k 8) }
{
    let mut alike = true;
    for n in 0..8 {
        alike &= v[j + n] == t[k + n];
    }
    alike
}

// Whether v, which has eight bytes at least, stands in t from index i on: eight bytes at a time, the last eight at the end.
fn begins_by_eights(v: &[u8], t: &[u8], i: usize) -> bool
    requires { (8 ≤ length v.now) × (i + length v.now ≤ length t.now) }
    ensures { result ≡ begins v.now (drop i t.now) }
{
    let last = v.len() - 8;
    let mut j = 0;
    // with `for j in (0..last).step_by(8)` it takes an eighth longer
    while j < last {
        if !same_eight(v, j, t, i + j) {
            return false;
        }
        j += 8;
    }
    same_eight(v, last, t, i + last)
}

// Whether v stands in t from index i on. Where values of 8 to 32 bytes nearly stand at every place, `v == &t[i..i + v.len()]` takes three to
// five times as long.
fn begins_at(v: &[u8], t: &[u8], i: usize) -> bool
    requires { i + length v.now ≤ length t.now }
    ensures { result ≡ begins v.now (drop i t.now) }
{
    if v.len() < 8 {
        begins_by_bytes(v, t, i)
    } else {
        begins_by_eights(v, t, i)
    }
}

// Whether the first byte of v, if it has one, stands in t at index i.
#[tactic(auto, using(crate::proofs::Firsts::first_none, crate::proofs::Firsts::first_byte))]
fn first_fits(v: &[u8], t: &[u8], i: usize) -> bool
    requires { i + length v.now ≤ length t.now }
    ensures { result ≡ begins (take 1 v.now) (drop i t.now) }
{
    v.is_empty() || v[0] == t[i]
}

// Whether a letter or digit stands in t directly before index i.
#[tactic(auto, using(crate::proofs::Hits::before_first, crate::proofs::Hits::before_later))]
fn letter_before(t: &[u8], i: usize) -> bool
    requires { i ≤ length t.now }
    ensures { result ≡ letter_before t.now i }
{
    i != 0 && is_in(Class::Alphanumeric, t[i - 1])
}

// Marks each byte that stands in t with no letter or digit directly before it, where none is marked yet. The mark is set without a branch,
// which is faster.
pub fn mark_starts(t: &[u8], starts: &mut [bool; 256])
    requires { Starts [] starts.old }
    ensures { Starts t.now starts.new }
{
    let mut after = false;
    for b in t {
        starts[*b as usize] |= !after;
        after = is_in(Class::Alphanumeric, *b);
    }
}

// Whether no letter or digit stands in t directly behind index e.
#[tactic(auto, using(crate::proofs::Hits::ends_last, crate::proofs::Hits::ends_byte))]
fn ends_word(t: &[u8], e: usize) -> bool
    requires { e ≤ length t.now }
    ensures { result ≡ ends_word (drop e t.now) }
{
    e == t.len() || !is_in(Class::Alphanumeric, t[e])
}

// Whether v stands in t from index i on with no letter or digit directly before or behind it. Where another byte than the first of v stands,
// and behind a letter or digit, nothing else is compared.
#[tactic(auto, using(crate::proofs::Hits::hit_other, crate::proofs::Hits::hit_behind_letter, crate::proofs::Hits::hit_by_end, crate::proofs::Firsts::first_differs))]
fn is_hit_at(v: &[u8], t: &[u8], i: usize) -> bool
    requires { i + length v.now ≤ length t.now }
    ensures { result ≡ is_hit v.now (letter_before t.now i) (drop i t.now) }
{
    first_fits(v, t, i) && !letter_before(t, i) && begins_at(v, t, i) && ends_word(t, i + v.len())
}

// Whether v is a whole word of t: whether it stands at some place of t with no letter or digit directly before or behind it.
pub fn is_whole_word(v: &[u8], t: &[u8]) -> bool
    ensures { result ≡ is_whole_word v.now t.now }
{
    // behind the last place stand as many bytes as v has, and one at least
    let least = v.len().max(1);
    if t.len() < least {
        return false;
    }
    let end = t.len() - least + 1;
    // with `(0..end).any(..)` it takes an eighth longer
    for place in 0..end {
        if is_hit_at(v, t, place) {
            return true;
        }
    }
    false
}
