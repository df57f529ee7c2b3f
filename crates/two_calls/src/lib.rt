// Demand 3 of the code: two calls of redact on messages that are alike in all but covered leaves.
#![tactic(auto)]

ghost use Rattle.std.specs.Prelude.{length};
ghost use Rattle.entries.specs.Returned.{lent_report, as_redact_outcome};
ghost use Rattle.two_calls.specs.TwoCalls.{RedactedTwice};

use entries::returned::ReturnedReport;
use redact::redact::redact;

// What the two calls hand back beside their buffers.
#[derive(Clone, Copy)]
pub struct Twice {
    pub one: ReturnedReport,
    pub two: ReturnedReport,
}

// Redacts two messages with one policy and one key, each in buffers of its own.
pub fn redact_twice(
    first: &[u8],
    second: &[u8],
    policy: &[u8],
    key: u64,
    output1: &mut [u8],
    report1: &mut [u8],
    scratch1: &mut [u8],
    output2: &mut [u8],
    report2: &mut [u8],
    scratch2: &mut [u8],
) -> Twice
    ensures { RedactedTwice first.now second.now policy.now key (lent_report (length output1.old) (length report1.old) (length scratch1.old)) (lent_report (length output2.old) (length report2.old) (length scratch2.old)) (as_redact_outcome result.one output1.new report1.new scratch1.new) (as_redact_outcome result.two output2.new report2.new scratch2.new) }
{
    let one = redact(first, policy, key, output1, report1, scratch1);
    let two = redact(second, policy, key, output2, report2, scratch2);
    Twice { one: one, two: two }
}
