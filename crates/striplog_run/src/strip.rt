// What striplog prints, from the bytes of its files.
ghost use Rattle.std.specs.Prelude.{◌≤◌, length};
ghost use Rattle.text.specs.Text.{Wrote};
ghost use Rattle.run_model.specs.Entries.{redact_outcome};
ghost use Rattle.striplog_text.specs.Striplog.{lent_buffers, printed_outcome, stripped_with};
ghost use Rattle.striplog_text.specs.Key.{key_of};
ghost use Rattle.striplog_run.specs.Files.{file_if};

use redact::redact::redact;
use refusal::limits::TEXT_MAX;
use striplog_text::key::Key;
use striplog_text::print::{put_bad_input, put_outcome};

// Redacts the message, writes what is printed of it to the front of out, and returns its length.
fn put_redacted(message: &[u8], policy: &[u8], key: u64, out: &mut [u8]) -> usize
    requires { 114714 ≤ length out.old }
    ensures { Wrote out.old 0 (printed_outcome (redact_outcome lent_buffers message.now policy.now key)) out.new result }
{
    let mut output = [0u8; TEXT_MAX];
    let mut report = [0u8; 65536];
    let mut scratch = [0u8; TEXT_MAX];
    let returned = redact(message, policy, key, &mut output, &mut report, &mut scratch);
    let text_end = returned.text_len as usize;
    let report_end = returned.report_len as usize;
    put_outcome(
        returned.number,
        returned.line,
        &output[..text_end],
        &report[..report_end],
        returned.rows,
        out,
    )
}

// Writes what the program prints to the front of out, and returns its length; message and policy are None where the file is missing.
#[tactic(auto, unfolding(striplog_text::specs::Striplog::stripped_with, striplog_text::specs::Key::key_of, crate::specs::Files::file_if))]
pub fn strip(message: Option<&[u8]>, policy: Option<&[u8]>, key: Key, out: &mut [u8]) -> usize
    requires { 114714 ≤ length out.old }
    ensures { Wrote out.old 0 (stripped_with (file_if message.entry) (file_if policy.entry) (key_of key)) out.new result }
{
    match (message, policy, key) {
        (Some(message), Some(policy), Key::Digits(n) | Key::Ended(n)) => {
            put_redacted(message, policy, n, out)
        }
        _ => put_bad_input(out),
    }
}
