// Paths: the short notation for a place in a message, such as `PID-5.1` or `OBX[2]-5.1.2`.
ghost use Rattle.std.specs.Prelude.{◌≡◌, ℕ, ◌+◌, ◌≤◌, length};
ghost use Rattle.text.specs.Text.{Wrote, run, is_alphanumeric};
ghost use Rattle.text.specs.Number.{TakenAt, taken};
ghost use Rattle.er7.specs.Path.{take_index, close_bracket, take_occurrence, take_step, in_brackets, behind, print_path, read_path, as_path, PathHeld, held_path, read_subcomponent, read_component, read_repetition, read_field, read_segment, is_join};
ghost use Rattle.er7.specs.Inner.{ParsedAt};

use text::bytes::{Class, byte_at, copy_at, run_end};
use text::decimal::{decimal_at, decimal_len, number_at};

// A path: its segment's name, which is segment_len bytes of a text from index segment on, and five indices, 0 where one is absent.
#[derive(Clone, Copy)]
pub struct Path {
    pub segment: usize,
    pub segment_len: usize,
    pub segment_occurrence: u64,
    pub field: u64,
    pub repetition: u64,
    pub component: u64,
    pub subcomponent: u64,
}

// A number other than 0.
fn take_index(s: &[u8], i: usize) -> Option<(u64, usize)>
    requires { i ≤ length s.now }
    ensures { TakenAt take_index s.now i result }
{
    let (index, r) = number_at(s, i)?;
    if index == 0 {
        return None;
    }
    Some((index, r))
}

// `]` behind a number n, from index r on.
fn close_bracket(s: &[u8], n: u64, r: usize) -> Option<(u64, usize)>
    requires { r ≤ length s.now }
    ensures { TakenAt (λ t. close_bracket (taken n t)) s.now r result }
{
    if r == s.len() {
        return None;
    }
    if s[r] != b']' {
        return None;
    }
    Some((n, r + 1))
}

// `[n]`, or nothing.
fn take_occurrence(s: &[u8], i: usize) -> Option<(u64, usize)>
    requires { i ≤ length s.now }
    ensures { TakenAt take_occurrence s.now i result }
{
    if i == s.len() {
        return Some((0, i));
    }
    if s[i] != b'[' {
        return Some((0, i));
    }
    let (n, r) = take_index(s, i + 1)?;
    close_bracket(s, n, r)
}

// `.n`, or nothing.
fn take_step(s: &[u8], i: usize) -> Option<(u64, usize)>
    requires { i ≤ length s.now }
    ensures { TakenAt take_step s.now i result }
{
    if i == s.len() {
        return Some((0, i));
    }
    if s[i] != b'.' {
        return Some((0, i));
    }
    take_index(s, i + 1)
}

// The path from its subcomponent on; the last part, behind which nothing is left.
fn read_subcomponent(s: &[u8], i: usize, p: Path) -> Option<Path>
    requires { i ≤ length s.now }
    ensures { ParsedAt (λ w. read_subcomponent w p.segment_occurrence p.field p.repetition p.component) s.now i p.segment p.segment_len result }
{
    let (subcomponent, r) = take_step(s, i)?;
    if r != s.len() {
        return None;
    }
    Some(Path { subcomponent, ..p })
}

// The path from its component on.
fn read_component(s: &[u8], i: usize, p: Path) -> Option<Path>
    requires { i ≤ length s.now }
    ensures { ParsedAt (λ w. read_component w p.segment_occurrence p.field p.repetition) s.now i p.segment p.segment_len result }
{
    let (component, r) = take_step(s, i)?;
    read_subcomponent(s, r, Path { component, ..p })
}

// The path from its field's repetition on.
fn read_repetition(s: &[u8], i: usize, p: Path) -> Option<Path>
    requires { i ≤ length s.now }
    ensures { ParsedAt (λ w. read_repetition w p.segment_occurrence p.field) s.now i p.segment p.segment_len result }
{
    let (repetition, r) = take_occurrence(s, i)?;
    read_component(s, r, Path { repetition, ..p })
}

// The path from its field on.
fn read_field(s: &[u8], i: usize, p: Path) -> Option<Path>
    requires { i ≤ length s.now }
    ensures { ParsedAt (λ w. read_field w p.segment_occurrence) s.now i p.segment p.segment_len result }
{
    let (field, r) = take_index(s, i)?;
    read_repetition(s, r, Path { field, ..p })
}

fn is_join(b: u8) -> bool
    ensures { result ≡ is_join b }
{
    (b == b'-') | (b == b'.')
}

// The path behind its segment's name, n bytes at index base, and its occurrence.
fn read_segment(s: &[u8], i: usize, base: usize, n: usize, occurrence: u64) -> Option<Path>
    requires { i ≤ length s.now }
    ensures { ParsedAt (λ w. read_segment w occurrence) s.now i base n result }
{
    let p = Path {
        segment: base,
        segment_len: n,
        segment_occurrence: occurrence,
        field: 0,
        repetition: 0,
        component: 0,
        subcomponent: 0,
    };
    if i == s.len() {
        return Some(p);
    }
    if !is_join(s[i]) {
        return None;
    }
    read_field(s, i + 1, p)
}

// Reads the word s, which stands in a text from index base on, as a path.
pub fn parse(s: &[u8], base: usize) -> Option<Path>
    ensures { result ≡ held_path base (length (run is_alphanumeric s.now)) (read_path s.now) }
{
    let n = run_end(s, 0, Class::Alphanumeric);
    if n == 0 {
        return None;
    }
    let (occurrence, r) = take_occurrence(s, n)?;
    read_segment(s, r, base, n, occurrence)
}

// Writes `[n]`, or nothing if n is 0, to out from index at on, and returns the index behind it.
fn put_brackets(out: &mut [u8], at: usize, n: u64) -> usize
    requires { at + length (in_brackets n) ≤ length out.old }
    ensures { Wrote out.old at (in_brackets n) out.new result }
{
    if n == 0 {
        return at;
    }
    let open = byte_at(out, at, b'[');
    let end = decimal_at(out, open, n);
    byte_at(out, end, b']')
}

// Writes c and n, or nothing if n is 0, to out from index at on, and returns the index behind it.
fn put_behind(out: &mut [u8], at: usize, c: u8, n: u64) -> usize
    requires { at + length (behind c n) ≤ length out.old }
    ensures { Wrote out.old at (behind c n) out.new result }
{
    if n == 0 {
        return at;
    }
    let start = byte_at(out, at, c);
    decimal_at(out, start, n)
}

// Writes the path p, whose name stands in text, to out from index at on, and returns the index behind it.
pub fn print(p: Path, text: &[u8], out: &mut [u8], at: usize) -> usize
    requires { PathHeld text.now p × (at + length (print_path (as_path text.now p)) ≤ length out.old) }
    ensures { Wrote out.old at (print_path (as_path text.now p)) out.new result }
{
    let start = p.segment;
    let end = start + p.segment_len;
    let a = copy_at(out, at, &text[start..end]);
    let b = put_brackets(out, a, p.segment_occurrence);
    let c = put_behind(out, b, b'-', p.field);
    let d = put_brackets(out, c, p.repetition);
    let e = put_behind(out, d, b'.', p.component);
    put_behind(out, e, b'.', p.subcomponent)
}

// The length of `[n]`, or of nothing if n is 0.
fn brackets_len(n: u64) -> usize
    ensures { (result ≡ length (in_brackets n)) × (result ≤ 22) }
{
    if n == 0 {
        return 0;
    }
    decimal_len(n) + 2
}

// The length of a byte and n, or of nothing if n is 0.
fn behind_len(n: u64) -> usize
    ensures { ((c : ℕ) → result ≡ length (behind c n)) × (result ≤ 21) }
{
    if n == 0 {
        return 0;
    }
    decimal_len(n) + 1
}

// The length of what print writes.
pub fn printed_len(p: Path, text: &[u8]) -> usize
    requires { PathHeld text.now p }
    ensures { result ≡ length (print_path (as_path text.now p)) }
{
    let occurrences = brackets_len(p.segment_occurrence) + brackets_len(p.repetition);
    let steps = behind_len(p.field) + behind_len(p.component) + behind_len(p.subcomponent);
    p.segment_len + occurrences + steps
}
