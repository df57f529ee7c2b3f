// The cases: what each group computes from a line's fields.
use super::actions::{action, apply};
use super::groups::{Group, Tally, group_at, place_of};
use super::lines::{field, input};
use super::messages::message_answer;
use super::parts::{PAGE, Page, front, number, put, put_byte, put_hash, put_number};
use super::paths::path;
use super::policies::policy_answer;
use super::sample::is_replayed;
use super::values::value_answer;
use pseudonym::{OFFSET, fold, pseudonym};
use text::decimal::number_at;

// The number at the front of a and the index behind it.
fn decimal(a: &[u8], got: &mut Page) -> usize {
    let Some((n, end)) = number_at(a, 0) else {
        return put(b"refused", got, 0);
    };
    let i = put_number(n, got, 0);
    let j = put_byte(b' ', got, i);
    put_number(end as u64, got, j)
}

// What comes out of a case of the group: the hash of a, the pseudonym of b under the key a, the number at the front of a, the same in
// hexadecimal, the path a or the action a printed, what the action a makes of c under the key b, or what its module computes.
fn answer(group: Group, a: &[u8], b: &[u8], c: &[u8], d: &[u8], got: &mut Page) -> usize {
    match group {
        Group::Fnv => put_hash(fold(OFFSET, a), got, 0),
        Group::Pseudonym => pseudonym(number(a), b, got, 0),
        Group::Decimal => decimal(a, got),
        Group::Hexadecimal => put_hash(number(a), got, 0),
        Group::Path => path(a, got),
        Group::Action => action(a, got),
        Group::Apply => apply(a, b, c, got),
        Group::Policy | Group::Append | Group::Builtin | Group::Padded | Group::Times => {
            policy_answer(group, a, b, c, got)
        }
        Group::Decode | Group::Encode | Group::Lower | Group::Word => {
            value_answer(group, a, b, got)
        }
        _ => message_answer(group, a, b, c, d, got),
    }
}

// What comes out of the case that a line states, at the front of got.
fn outcome<'a>(group: Group, line: &[u8], got: &'a mut Page) -> &'a [u8] {
    let mut a = [0u8; PAGE];
    let mut b = [0u8; PAGE];
    let mut c = [0u8; PAGE];
    let mut d = [0u8; PAGE];
    let a = input(line, 2, &mut a);
    let b = input(line, 3, &mut b);
    let c = input(line, 4, &mut c);
    let d = input(line, 5, &mut d);
    let n = answer(group, a, b, c, d, got);
    front(got, n)
}

// Whether the case that a line states comes out as field 1 says.
fn is_answered(group: Group, line: &[u8]) -> bool {
    let mut want = [0u8; PAGE];
    let mut got = [0u8; PAGE];
    outcome(group, line, &mut got) == input(line, 1, &mut want)
}

// Whether the case that a line states comes out right.
fn is_right(group: Group, line: &[u8]) -> bool {
    match group {
        Group::EntryRedact
        | Group::EntryPrint
        | Group::EntryAppend
        | Group::EntryBuiltin
        | Group::EntryPayload => is_replayed(group, line),
        _ => is_answered(group, line),
    }
}

// Runs the case that a line states, and counts it.
fn run_line(line: &[u8], tally: &mut Tally) {
    let place = place_of(field(line, 0));
    let right = match place.and_then(group_at) {
        Some(group) => is_right(group, line),
        None => false,
    };
    tally.count(place, right);
}

// Runs every line that is not empty and does not begin with `#`.
pub fn run(text: &[u8], tally: &mut Tally) {
    for line in text.split(|b| *b == b'\n') {
        if let Some(b) = line.first()
            && *b != b'#'
        {
            run_line(line, tally);
        }
    }
}
