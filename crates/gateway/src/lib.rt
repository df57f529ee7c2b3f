// The entries for C: thin over the library, which does the work. Each slice is a pointer and a length.
#![tactic(auto)]

ghost use Rattle.std.specs.Prelude.{◌≡◌, length};
ghost use Rattle.run_model.specs.Entries.{redact_outcome, print_outcome, append_outcome, builtin_outcome, payload_outcome};
ghost use Rattle.entries.specs.Returned.{lent, lent_report};
ghost use Rattle.gateway.specs.Gateway.{outcome_of, redact_outcome_of};

use entries::payload;
use entries::print::{append, builtin, print};
use redact::redact::redact;

// Redacts a message: its text goes to output, the rows of what was changed to report.
#[unsafe(no_mangle)]
pub extern "C" fn er7_redact(
    message: &[u8],
    policy: &[u8],
    key: u64,
    output: &mut [u8],
    report: &mut [u8],
    scratch: &mut [u8],
    text_len: &mut u64,
    report_len: &mut u64,
    rows: &mut u64,
    line: &mut u64,
) -> u32
    ensures { redact_outcome_of result line.new text_len.new report_len.new rows.new output.new report.new scratch.new ≡ redact_outcome (lent_report (length output.old) (length report.old) (length scratch.old)) message.now policy.now key }
{
    let redacted = redact(message, policy, key, output, report, scratch);
    *text_len = redacted.text_len;
    *report_len = redacted.report_len;
    *rows = redacted.rows;
    *line = redacted.line;
    redacted.number
}

// Reads a policy, and prints it to output.
#[unsafe(no_mangle)]
pub extern "C" fn er7_print(
    policy: &[u8],
    output: &mut [u8],
    scratch: &mut [u8],
    text_len: &mut u64,
    line: &mut u64,
) -> u32
    ensures { outcome_of result line.new text_len.new output.new scratch.new ≡ print_outcome (lent (length output.old) (length scratch.old)) policy.now }
{
    let printed = print(policy, output, scratch);
    *text_len = printed.text_len;
    *line = printed.line;
    printed.number
}

// Reads two policies, and prints them merged to output.
#[unsafe(no_mangle)]
pub extern "C" fn er7_append(
    first: &[u8],
    second: &[u8],
    output: &mut [u8],
    scratch: &mut [u8],
    text_len: &mut u64,
    line: &mut u64,
) -> u32
    ensures { outcome_of result line.new text_len.new output.new scratch.new ≡ append_outcome (lent (length output.old) (length scratch.old)) first.now second.now }
{
    let merged = append(first, second, output, scratch);
    *text_len = merged.text_len;
    *line = merged.line;
    merged.number
}

// Prints a built-in policy, named by its number, to output.
#[unsafe(no_mangle)]
pub extern "C" fn er7_builtin(
    number: u64,
    output: &mut [u8],
    scratch: &mut [u8],
    text_len: &mut u64,
    line: &mut u64,
) -> u32
    ensures { outcome_of result line.new text_len.new output.new scratch.new ≡ builtin_outcome (lent (length output.old) (length scratch.old)) number }
{
    let named = builtin(number, output, scratch);
    *text_len = named.text_len;
    *line = named.line;
    named.number
}

// Reads a policy, and writes what it makes of a payload, which is no message, to output.
#[unsafe(no_mangle)]
pub extern "C" fn er7_payload(
    payload: &[u8],
    policy: &[u8],
    key: u64,
    output: &mut [u8],
    scratch: &mut [u8],
    text_len: &mut u64,
    line: &mut u64,
) -> u32
    ensures { outcome_of result line.new text_len.new output.new scratch.new ≡ payload_outcome (lent (length output.old) (length scratch.old)) payload.now policy.now key }
{
    let answered = payload::payload(payload, policy, key, output, scratch);
    *text_len = answered.text_len;
    *line = answered.line;
    answered.number
}
