// The entries print, append and built-in: they write the printed form of the policy read, merged or named.
ghost use Rattle.std.specs.Prelude.{◌≡◌, length};
ghost use Rattle.run_model.specs.Entries.{print_outcome, append_outcome, builtin_outcome};
ghost use Rattle.entries.specs.Returned.{lent, as_outcome};

use super::returned::{Returned, answer, is_short, refuse};
use policy_print::print::print_text;
use policy_print::{builtin, print};
use refusal::Refusal;

// Reads a policy, and prints it to output.
pub fn print(policy: &[u8], output: &mut [u8], scratch: &mut [u8]) -> Returned
    ensures { as_outcome result output.new scratch.new ≡ print_outcome (lent (length output.old) (length scratch.old)) policy.now }
{
    if is_short(output.len(), scratch.len()) {
        return refuse(Refusal::ShortBuffer.into(), output, scratch);
    }
    let printed = print_text(policy, output);
    answer(printed, output, scratch)
}

// Reads two policies, and prints them merged to output.
pub fn append(first: &[u8], second: &[u8], output: &mut [u8], scratch: &mut [u8]) -> Returned
    ensures { as_outcome result output.new scratch.new ≡ append_outcome (lent (length output.old) (length scratch.old)) first.now second.now }
{
    if is_short(output.len(), scratch.len()) {
        return refuse(Refusal::ShortBuffer.into(), output, scratch);
    }
    let printed = print::append(first, second, output);
    answer(printed, output, scratch)
}

// Prints a built-in policy, named by its number, to output.
pub fn builtin(number: u64, output: &mut [u8], scratch: &mut [u8]) -> Returned
    ensures { as_outcome result output.new scratch.new ≡ builtin_outcome (lent (length output.old) (length scratch.old)) number }
{
    if is_short(output.len(), scratch.len()) {
        return refuse(Refusal::ShortBuffer.into(), output, scratch);
    }
    let printed = builtin::builtin(number, output);
    answer(printed, output, scratch)
}
