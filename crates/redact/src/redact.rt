// Redacts a message by a policy and a key.
ghost use Rattle.std.specs.Prelude.{◌≡◌, ℕ, ◌≤◌, length};
ghost use Rattle.message_model.specs.Message.{message_of, message_fault};
ghost use Rattle.policy_model.specs.Policy.{read_policy};
ghost use Rattle.policy.specs.Policy.{as_policy, PolicyHeld};
ghost use Rattle.run_model.specs.Redact as Redact;
ghost use Rattle.run_model.specs.Entries.{with_policy, without_fault, reported, redact_outcome};
ghost use Rattle.er7_table.specs.Filling.{LeafRoom};
ghost use Rattle.entries.specs.Returned.{lent_report, as_redact_outcome};
ghost use Rattle.redact.specs.Answered.{AnsweredAs};
ghost use Rattle.refusal.specs.Limits.{INPUT_MAX, TEXT_MAX};

use entries::returned::{ReturnedReport, finish_report, is_short, refuse_report};
use er7_message::message;
use er7_table::table::{Leaf, NO_LEAF, NO_SEGMENT, SEGMENT_ROWS, Segment};
use policy::policy::{Policy, parse};
use redact_1_run::from_tables::{Redacted, redact_from};
use refusal::limits::LEAVES_MAX;
use refusal::{Refusal, Refused};

// The message as a policy leaves it, whose text is text, at the front of output, and its rows at that of report; segments and leaves are for its tables.
fn redact_in(
    message: &[u8],
    policy: &Policy,
    text: &[u8],
    key: u64,
    segments: &mut [Segment; SEGMENT_ROWS],
    leaves: &mut [Leaf],
    output: &mut [u8],
    report: &mut [u8],
) -> Result<Redacted, Refused>
    requires { PolicyHeld text.now policy.now × (length text.now ≤ INPUT_MAX) × LeafRoom leaves.old (length message.now) × (TEXT_MAX ≤ length output.old) }
    ensures { AnsweredAs (without_fault (message_fault message.now) (reported (length report.old) (Redact.redact key (as_policy text.now policy.now) (message_of message.now)))) output.new report.new result }
{
    let layout = message::parse(message, segments, leaves)?;
    let redacted = redact_from(
        policy,
        text,
        key,
        message,
        layout,
        message.len(),
        segments,
        leaves,
        output,
        report,
    )?;
    if report.len() < redacted.report_len {
        return Err(Refusal::ReportTooLong.into());
    }
    Ok(redacted)
}

// The same, with tables for as many leaves as a short message can have, or for 4096.
fn redact_message(
    message: &[u8],
    policy: &Policy,
    text: &[u8],
    key: u64,
    output: &mut [u8],
    report: &mut [u8],
) -> Result<Redacted, Refused>
    requires { PolicyHeld text.now policy.now × (length text.now ≤ INPUT_MAX) × (TEXT_MAX ≤ length output.old) }
    ensures { AnsweredAs (without_fault (message_fault message.now) (reported (length report.old) (Redact.redact key (as_policy text.now policy.now) (message_of message.now)))) output.new report.new result }
{
    let mut segments = [NO_SEGMENT; SEGMENT_ROWS];
    if message.len() <= 1024 {
        let mut few = [NO_LEAF; 1024];
        return redact_in(
            message,
            policy,
            text,
            key,
            &mut segments,
            &mut few,
            output,
            report,
        );
    }
    let mut leaves = [NO_LEAF; LEAVES_MAX];
    redact_in(
        message,
        policy,
        text,
        key,
        &mut segments,
        &mut leaves,
        output,
        report,
    )
}

// The same, by the policy that a text reads as.
fn redact_by(
    message: &[u8],
    policy: &[u8],
    key: u64,
    output: &mut [u8],
    report: &mut [u8],
) -> Result<Redacted, Refused>
    requires { TEXT_MAX ≤ length output.old }
    ensures { AnsweredAs (with_policy (read_policy policy.now) λ P. without_fault (message_fault message.now) (reported (length report.old) (Redact.redact key P (message_of message.now)))) output.new report.new result }
{
    let held = parse(policy)?;
    redact_message(message, &held, policy, key, output, report)
}

// The message as the policy leaves it, in output, and a row for each change, in report; or a refusal. The scratch is zeroed.
pub fn redact(
    message: &[u8],
    policy: &[u8],
    key: u64,
    output: &mut [u8],
    report: &mut [u8],
    scratch: &mut [u8],
) -> ReturnedReport
    ensures { as_redact_outcome result output.new report.new scratch.new ≡ redact_outcome (lent_report (length output.old) (length report.old) (length scratch.old)) message.now policy.now key }
{
    if is_short(output.len(), scratch.len()) {
        return refuse_report(Refusal::ShortBuffer.into(), output, report, scratch);
    }
    match redact_by(message, policy, key, output, report) {
        Ok(redacted) => finish_report(
            redacted.text_len,
            redacted.report_len,
            redacted.rows,
            output,
            report,
            scratch,
        ),
        Err(fault) => refuse_report(fault, output, report, scratch),
    }
}
