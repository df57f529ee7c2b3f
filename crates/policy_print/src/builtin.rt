// The four built-in policies, each a text that is read and printed.
ghost use Rattle.std.specs.Prelude.{◌≤◌, length};
ghost use Rattle.policy_model.specs.Builtin.{builtin_text};
ghost use Rattle.policy_print.specs.Print.{PrintedIs, builtin_read};
ghost use Rattle.refusal.specs.Limits.{INPUT_MAX};

use super::print::print_text;
use refusal::{Refusal, Refused};

// Prints a built-in policy to the front of out: `accept_all`, `reject_all`, `patient_identifiers`, `all_but_the_header`.
pub fn builtin(number: u64, out: &mut [u8]) -> Result<usize, Refused>
    requires { INPUT_MAX ≤ length out.old }
    ensures { PrintedIs (builtin_read number) out.old out.new result }
{
    match number {
        0 => print_text(b"unrecognised pass\n", out),
        1 => print_text(b"reject replace REDACTED\nunrecognised mask *\n", out),
        2 => print_text(
            b"PID-2.1 pseudonym\nPID-3.1 pseudonym\nPID-4.1 pseudonym\nPID-5 replace REDACTED\nPID-6 replace REDACTED\nPID-7 first 4\nPID-9 replace REDACTED\nPID-11 clear\nPID-12 clear\nPID-13 clear\nPID-14 clear\nPID-18.1 pseudonym\nPID-19 clear\nPID-20 clear\nPID-21.1 pseudonym\nPID-23 clear\nPID-29 first 4\nNK1-2 replace REDACTED\nNK1-4 clear\nNK1-5 clear\nNK1-6 clear\nPV1-5.1 pseudonym\nPV1-7 replace REDACTED\nPV1-8 replace REDACTED\nPV1-9 replace REDACTED\nPV1-17 replace REDACTED\nPV1-19.1 pseudonym\nGT1-2.1 pseudonym\nGT1-3 replace REDACTED\nGT1-4 replace REDACTED\nGT1-5 clear\nGT1-6 clear\nGT1-7 clear\nGT1-8 first 4\nGT1-12 clear\nIN1-16 replace REDACTED\nIN1-18 first 4\nIN1-19 clear\nIN1-36 pseudonym\nIN1-49.1 pseudonym\n",
            out,
        ),
        3 => print_text(b"MSH keep\nreject replace REDACTED\n", out),
        _ => Err(Refusal::NoSuchBuiltin.into()),
    }
}
