// What striplog prints.
ghost use Rattle.std.specs.Prelude.{◌+◌, ◌≤◌, length};
ghost use Rattle.text.specs.Text.{Wrote};
ghost use Rattle.striplog_text.specs.Striplog.{rows_line, refused_line, bad_input, printed};

use text::bytes::{byte_at, copy_at};
use text::decimal::decimal_at;

// Writes `rows N` and LF to out from index at on, and returns the index behind it.
#[tactic(auto, using(text::proofs::Writes::wrote_length, crate::proofs::Lines::rows_length), unfolding(text::specs::Text::bytes))]
pub fn put_rows(n: u64, out: &mut [u8], at: usize) -> usize
    requires { at + length (rows_line n) ≤ length out.old }
    ensures { Wrote out.old at (rows_line n) out.new result }
{
    let k = copy_at(out, at, b"rows ");
    let e = decimal_at(out, k, n);
    byte_at(out, e, b'\n')
}

// Writes `refused N line L` and LF to out from index at on, and returns the index behind it.
#[tactic(auto, using(text::proofs::Writes::wrote_length, crate::proofs::Lines::refused_length), unfolding(text::specs::Text::bytes))]
pub fn put_refused(number: u32, line: u64, out: &mut [u8], at: usize) -> usize
    requires { at + length (refused_line number line) ≤ length out.old }
    ensures { Wrote out.old at (refused_line number line) out.new result }
{
    let k = copy_at(out, at, b"refused ");
    let m = decimal_at(out, k, number as u64);
    let w = copy_at(out, m, b" line ");
    let e = decimal_at(out, w, line);
    byte_at(out, e, b'\n')
}

// Writes what a call comes to, its text and report cut to their lengths, to the front of out, and returns the length. Number and line are as
// C gets them: the number is 0 where nothing is refused.
#[tactic(auto, using(text::proofs::Writes::wrote_length, crate::proofs::Lines::success_length, crate::proofs::Lines::refusal_length))]
pub fn put_outcome(
    number: u32,
    line: u64,
    text: &[u8],
    report: &[u8],
    rows: u64,
    out: &mut [u8],
) -> usize
    requires { length (printed number line text.now report.now rows) ≤ length out.old }
    ensures { Wrote out.old 0 (printed number line text.now report.now rows) out.new result }
{
    if number == 0 {
        let k = copy_at(out, 0, text);
        let e = copy_at(out, k, report);
        return put_rows(rows, out, e);
    }
    put_refused(number, line, out, 0)
}

// Writes `bad input` and LF to the front of out, and returns the length.
#[tactic(auto, unfolding(text::specs::Text::bytes, crate::specs::Striplog::bad_input))]
pub fn put_bad_input(out: &mut [u8]) -> usize
    requires { 10 ≤ length out.old }
    ensures { Wrote out.old 0 bad_input out.new result }
{
    copy_at(out, 0, b"bad input\n")
}
