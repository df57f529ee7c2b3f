// The cases of policies: read, merged or built in, and printed.
use super::groups::Group;
use super::parts::{PAGE, Page, front, number, put, put_number, put_refused, put_repeated, sum};
use policy_print::builtin::builtin;
use policy_print::print::{append, print_text};
use refusal::Refused;

// Reads and prints the policy of a, n times b, and c.
fn print_repeated(a: &[u8], b: &[u8], n: u64, c: &[u8], got: &mut Page) -> Result<usize, Refused> {
    let mut text = [0u8; PAGE];
    let len = put_repeated(a, b, n, c, &mut text);
    print_text(front(&text, len), got)
}

// Prints the group's policy: a, a and b merged, the built-in one whose number is a, a with LF behind it up to b bytes, or b times a and c.
fn printed(group: Group, a: &[u8], b: &[u8], c: &[u8], got: &mut Page) -> Result<usize, Refused> {
    match group {
        Group::Policy => print_text(a, got),
        Group::Append => append(a, b, got),
        Group::Builtin => builtin(number(a), got),
        Group::Padded => {
            let missing = number(b).saturating_sub(a.len() as u64);
            print_repeated(a, b"\n", missing, b"", got)
        }
        _ => print_repeated(b"", a, number(b), c, got),
    }
}

// Writes a refusal's number and line.
fn refused(why: Refused, got: &mut Page) -> usize {
    let i = put_refused(why.refusal, got);
    let j = put(b" line ", got, i);
    put_number(why.line as u64, got, j)
}

// What comes out of a case of a group of policies; of one that repeats a text, the length and the hash.
pub fn policy_answer(group: Group, a: &[u8], b: &[u8], c: &[u8], got: &mut Page) -> usize {
    match printed(group, a, b, c, got) {
        Ok(n) if matches!(group, Group::Times) => sum(n, got),
        Ok(n) => n,
        Err(why) => refused(why, got),
    }
}
