// What every entry hands back: its buffers zeroed for a refusal, or a text and a report with zeros behind them.
ghost use Rattle.std.specs.Prelude.{◌≡◌, ◌≤◌, length, take, IfOk};
ghost use Rattle.text.specs.Text.{Text, zeroed};
ghost use Rattle.run_model.specs.Redact.{print_rows};
ghost use Rattle.run_model.specs.Entries.{Redaction, outcome, outcome_with_report, done, refused, is_short};
ghost use Rattle.entries.specs.Returned.{lent, lent_report, as_outcome, as_redact_outcome};
ghost use Rattle.entries.specs.Inner.{answer_of, with_report};

use refusal::limits::TEXT_MAX;
use refusal::{Refused, number};
use text::bytes::zero_from;

// What a call of print, append, built-in or payload hands back beside its buffers: number, line, and the text's length, as C gets them.
#[derive(Clone, Copy)]
pub struct Returned {
    pub number: u32,
    pub line: u64,
    pub text_len: u64,
}

// .. and one of redact: the report's length and its rows too.
#[derive(Clone, Copy)]
pub struct ReturnedReport {
    pub number: u32,
    pub line: u64,
    pub text_len: u64,
    pub report_len: u64,
    pub rows: u64,
}

// Whether an output or a scratch of these lengths is too short.
pub fn is_short(output: usize, scratch: usize) -> bool
    ensures { result ≡ is_short (lent output scratch) }
{
    (output < TEXT_MAX) | (scratch < TEXT_MAX)
}

// Zeros output from index n on, and the scratch.
fn zero_behind(output: &mut [u8], n: usize, scratch: &mut [u8])
    requires { n ≤ length output.old }
    ensures { (output.new ≡ zeroed output.old n) × (scratch.new ≡ zeroed scratch.old 0) }
{
    zero_from(output, n);
    zero_from(scratch, 0);
}

// Zeros the buffers, and hands back the refusal's number and line.
pub fn refuse(fault: Refused, output: &mut [u8], scratch: &mut [u8]) -> Returned
    ensures { as_outcome result output.new scratch.new ≡ outcome (lent (length output.old) (length scratch.old)) (refused fault.refusal fault.line) }
{
    zero_behind(output, 0, scratch);
    Returned {
        number: number(fault.refusal),
        line: fault.line as u64,
        text_len: 0,
    }
}

// Zeros what stands behind the text, and the scratch, and hands back the length.
pub fn finish(text_len: usize, output: &mut [u8], scratch: &mut [u8]) -> Returned
    requires { text_len ≤ length output.old }
    ensures { (t : Text) → take text_len output.old ≡ t → as_outcome result output.new scratch.new ≡ outcome (lent (length output.old) (length scratch.old)) (done t) }
{
    zero_behind(output, text_len, scratch);
    Returned {
        number: 0,
        line: 0,
        text_len: text_len as u64,
    }
}

// Hands back the text of that length that was written to output, or the refusal.
pub(crate) fn answer(
    written: Result<usize, Refused>,
    output: &mut [u8],
    scratch: &mut [u8],
) -> Returned
    requires { IfOk written (λ n. n ≤ length output.old) }
    ensures { as_outcome result output.new scratch.new ≡ outcome (lent (length output.old) (length scratch.old)) (answer_of output.old written) }
{
    match written {
        Ok(text_len) => finish(text_len, output, scratch),
        Err(fault) => refuse(fault, output, scratch),
    }
}

// What redact hands back, with a report of so many bytes and rows.
fn with_report(r: Returned, report_len: usize, rows: usize) -> ReturnedReport
    ensures { result ≡ with_report r report_len rows }
{
    ReturnedReport {
        number: r.number,
        line: r.line,
        text_len: r.text_len,
        report_len: report_len as u64,
        rows: rows as u64,
    }
}

// The same two for redact, which is lent a report.
pub fn refuse_report(
    fault: Refused,
    output: &mut [u8],
    report: &mut [u8],
    scratch: &mut [u8],
) -> ReturnedReport
    ensures { as_redact_outcome result output.new report.new scratch.new ≡ outcome_with_report (lent_report (length output.old) (length report.old) (length scratch.old)) (refused fault.refusal fault.line) }
{
    zero_from(report, 0);
    with_report(refuse(fault, output, scratch), 0, 0)
}

pub fn finish_report(
    text_len: usize,
    report_len: usize,
    rows: usize,
    output: &mut [u8],
    report: &mut [u8],
    scratch: &mut [u8],
) -> ReturnedReport
    requires { (text_len ≤ length output.old) × (report_len ≤ length report.old) }
    ensures { (d : Redaction) → take text_len output.old ≡ d.text → take report_len report.old ≡ print_rows d.rows → rows ≡ length d.rows → as_redact_outcome result output.new report.new scratch.new ≡ outcome_with_report (lent_report (length output.old) (length report.old) (length scratch.old)) (done d) }
{
    zero_from(report, report_len);
    with_report(finish(text_len, output, scratch), report_len, rows)
}
