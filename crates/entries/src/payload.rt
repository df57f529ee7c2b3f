// The entry payload: what is no message passes, is refused, or gets an action.
ghost use Rattle.std.specs.Prelude.{◌≡◌, ◌≤◌, length, OnOk};
ghost use Rattle.text.specs.Text.{Wrote};
ghost use Rattle.er7_redact.specs.Action.{as_action, ActionHeld};
ghost use Rattle.er7_redact.specs.Action as Actions;
ghost use Rattle.policy.specs.Line.{as_unrecognised, UnrecognisedHeld};
ghost use Rattle.policy_model.specs.Policy.{read_policy};
ghost use Rattle.run_model.specs.Entries.{with_policy, without_fault, payload_fault, written_or, payload_outcome};
ghost use Rattle.run_model.specs.Entries as Spec;
ghost use Rattle.entries.specs.Returned.{lent, as_outcome};
ghost use Rattle.entries.specs.Inner.{NeverLong, UnrecognisedShort, fault_of, Answers};
ghost use Rattle.refusal.specs.Limits.{INPUT_MAX, TEXT_MAX};

use super::returned::{Returned, answer, is_short, refuse};
use er7_redact::action;
use er7_redact::action::Action;
use policy::line::Unrecognised;
use policy::policy::parse;
use refusal::input::{Input, no_foreign};
use refusal::limits::INPUT_MAX;
use refusal::{Refusal, Refused};
use text::bytes::copy_at;

// Writes what the action a, whose replacement stands in policy, writes in the payload's place, or the payload itself where it writes
// nothing, to the front of output, and returns its length.
fn put_applied(a: Action, policy: &[u8], key: u64, payload: &[u8], output: &mut [u8]) -> usize
    requires { ActionHeld policy.now a × NeverLong key (as_action policy.now a) × (length payload.now ≤ TEXT_MAX) × (TEXT_MAX ≤ length output.old) }
    ensures { Wrote output.old 0 (written_or payload.now (Actions.apply key (as_action policy.now a) payload.now)) output.new result }
{
    match action::applied_len(a, payload) {
        Some(_) => action::apply(a, policy, key, payload, output, 0),
        None => copy_at(output, 0, payload),
    }
}

// Writes what a payload without a fault gets to the front of output, and returns its length.
fn put_payload(
    u: Unrecognised,
    payload: &[u8],
    policy: &[u8],
    key: u64,
    output: &mut [u8],
) -> Result<usize, Refused>
    requires { UnrecognisedHeld policy.now u × UnrecognisedShort key (as_unrecognised policy.now u) × (length payload.now ≤ TEXT_MAX) × (TEXT_MAX ≤ length output.old) }
    ensures { Answers (Spec.unrecognised key (as_unrecognised policy.now u) payload.now) output.new result }
{
    match u {
        Unrecognised::Pass => Ok(copy_at(output, 0, payload)),
        Unrecognised::Refuse => Err(Refusal::Withheld.into()),
        Unrecognised::Apply(a) => Ok(put_applied(a, policy, key, payload, output)),
    }
}

// Refuses a payload that is too long or has a foreign byte.
#[tactic(auto, unfolding(crate::specs::Inner::fault_of, run_model::specs::Entries::payload_fault, refusal::specs::Refusal::too_long))]
fn judge(payload: &[u8]) -> Result<(), Refusal>
    ensures fault { fault_of result ≡ payload_fault payload.now }
    ensures short { OnOk result (length payload.now ≤ INPUT_MAX) }
{
    if INPUT_MAX < payload.len() {
        return Err(Refusal::TooLong);
    }
    if !no_foreign(Input::Payload, payload) {
        return Err(Refusal::ForeignByte);
    }
    Ok(())
}

// Reads a policy, and writes what it makes of the payload to the front of output.
fn answer_payload(
    payload: &[u8],
    policy: &[u8],
    key: u64,
    output: &mut [u8],
) -> Result<usize, Refused>
    requires { TEXT_MAX ≤ length output.old }
    ensures { Answers (with_policy (read_policy policy.now) λ P. without_fault (payload_fault payload.now) (Spec.unrecognised key P.unrecognised payload.now)) output.new result }
{
    let held = parse(policy)?;
    judge(payload)?;
    put_payload(held.unrecognised, payload, policy, key, output)
}

// Reads a policy, and writes what it makes of the payload to output.
pub fn payload(
    payload: &[u8],
    policy: &[u8],
    key: u64,
    output: &mut [u8],
    scratch: &mut [u8],
) -> Returned
    ensures { as_outcome result output.new scratch.new ≡ payload_outcome (lent (length output.old) (length scratch.old)) payload.now policy.now key }
{
    if is_short(output.len(), scratch.len()) {
        return refuse(Refusal::ShortBuffer.into(), output, scratch);
    }
    let written = answer_payload(payload, policy, key, output);
    answer(written, output, scratch)
}
