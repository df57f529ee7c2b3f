// The cases of the entries, with every result of a call. A line's fields: 0 its group; 1 number, 2 line, 3 rows, 4 text, 5 report; the
// lengths of 6 output, 7 report, 8 scratch; 9 the first text, 10 the second, 11 the key or the built-in's number.
use super::groups::Group;
use super::lines::{field, field_count, input};
use super::parts::{PAGE, Page, front, part};
use entries::payload::payload;
use entries::print::{append, builtin, print};
use entries::returned::{Returned, ReturnedReport};
use redact::redact::redact;
use text::decimal::number_at;

// The number that field k of the line is, and nothing but it.
fn number_of(line: &[u8], k: usize) -> Option<u64> {
    let text = field(line, k);
    let (n, end) = number_at(text, 0)?;
    (end == text.len()).then_some(n)
}

// Whether field k of the line is the number n.
fn is_number(line: &[u8], k: usize, n: u64) -> bool {
    number_of(line, k) == Some(n)
}

// The lengths of the buffers that a call is handed.
#[derive(Clone, Copy)]
struct Room {
    output: usize,
    report: usize,
    scratch: usize,
}

// Whether the first len bytes of the page are field k of the line, n bytes long, and zeros behind it.
fn is_text(line: &[u8], k: usize, n: u64, page: &Page, len: usize) -> bool {
    let mut want = [0u8; PAGE];
    let end = input(line, k, &mut want).len();
    n == end as u64 && end <= len && front(page, len) == front(&want, len)
}

// Whether a call handed back what the line says. Field 12, which no line has, is empty.
fn is_returned(
    line: &[u8],
    returned: ReturnedReport,
    room: Room,
    output: &Page,
    report: &Page,
    scratch: &Page,
) -> bool {
    is_number(line, 1, returned.number as u64)
        & is_number(line, 2, returned.line)
        & is_number(line, 3, returned.rows)
        & is_text(line, 4, returned.text_len, output, room.output)
        & is_text(line, 5, returned.report_len, report, room.report)
        & is_text(line, 12, 0, scratch, room.scratch)
}

// The length that field k of the line states, if it is that of a page or less.
fn length_of(line: &[u8], k: usize) -> Option<usize> {
    let n = usize::try_from(number_of(line, k)?).ok()?;
    (n <= PAGE).then_some(n)
}

// The lengths that the line states.
fn room_of(line: &[u8]) -> Option<Room> {
    Some(Room {
        output: length_of(line, 6)?,
        report: length_of(line, 7)?,
        scratch: length_of(line, 8)?,
    })
}

// What an entry that is lent no report hands back, with no rows.
fn no_rows(r: Returned) -> ReturnedReport {
    ReturnedReport {
        number: r.number,
        line: r.line,
        text_len: r.text_len,
        report_len: 0,
        rows: 0,
    }
}

// Calls the group's entry.
fn call(
    group: Group,
    a: &[u8],
    b: &[u8],
    key: u64,
    output: &mut [u8],
    report: &mut [u8],
    scratch: &mut [u8],
) -> ReturnedReport {
    match group {
        Group::EntryRedact => redact(a, b, key, output, report, scratch),
        Group::EntryPrint => no_rows(print(a, output, scratch)),
        Group::EntryAppend => no_rows(append(a, b, output, scratch)),
        Group::EntryBuiltin => no_rows(builtin(key, output, scratch)),
        _ => no_rows(payload(a, b, key, output, scratch)),
    }
}

// Whether the group's entry hands back what the line says, from these inputs and in buffers that hold garbage.
fn is_right_with(group: Group, line: &[u8], a: &[u8], b: &[u8], key: u64) -> bool {
    let Some(room) = room_of(line) else {
        return false;
    };
    let mut output = [0xA5u8; PAGE];
    let mut report = [0xA5u8; PAGE];
    let mut scratch = [0xA5u8; PAGE];
    let o = part(&mut output, room.output);
    let r = part(&mut report, room.report);
    let s = part(&mut scratch, room.scratch);
    let returned = call(group, a, b, key, o, r, s);
    is_returned(line, returned, room, &output, &report, &scratch)
}

// The same with the inputs that the line states.
fn is_right_under(group: Group, line: &[u8], key: u64) -> bool {
    let mut a = [0u8; PAGE];
    let mut b = [0u8; PAGE];
    let a = input(line, 9, &mut a);
    let b = input(line, 10, &mut b);
    is_right_with(group, line, a, b, key)
}

// Whether the line has 12 fields, none of them too long.
fn is_whole(line: &[u8]) -> bool {
    line.len() <= 8192 && field_count(line) == 12 && !field(line, 11).is_empty()
}

// Whether the group's entry hands back what the line says; not if the line can't be read.
pub fn is_replayed(group: Group, line: &[u8]) -> bool {
    if !is_whole(line) {
        return false;
    }
    match number_of(line, 11) {
        Some(key) => is_right_under(group, line, key),
        None => false,
    }
}
