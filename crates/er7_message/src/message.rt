// Reading a message: its segments and leaves, and what refuses it.
ghost use Rattle.std.specs.Prelude.{◌≡◌, true, false, [], ◌+◌, ◌≤◌, ◌<◌, ◌==◌, length, take, drop, reverse};
ghost use Rattle.std.specs.List.{position_or_len, find};
ghost use Rattle.text.specs.Text.{same};
ghost use Rattle.message_model.specs.Message.{is_header_name, is_name_byte, is_name, is_named, separators_of, count, at_field, leaves_behind, segment_lines, message_fault, message_of};
ghost use Rattle.er7_table.specs.Table.{name_of};
ghost use Rattle.er7_table.specs.Filling.{LeafRoom, LeavesRead};
ghost use Rattle.er7_message.specs.Parsed.{ParsedAs};
ghost use Rattle.er7_message.specs.Inner.{line, LineEnd, names, Numbered, SegmentRead, Reading, HeaderEnd, fault_by, message_by, lines_fault, lines_message, NothingRead};
ghost use Rattle.refusal.specs.Limits.{LEAVES_MAX, SEGMENTS_MAX};

use super::separators::{is_header, separators_of};
use er7::message::Label;
use er7::separators::Separators;
use er7_table::table::{
    Leaf, SEGMENT_ROWS, Segment, at_field, is_header_name, label_of, next, put_leaf, put_segment,
    read_leaves,
};
use refusal::Refusal;
use refusal::input::{Input, no_foreign};
use refusal::limits::{INPUT_MAX, SEGMENTS_MAX};

// A message that was read: its delimiters, how many segments and leaves stand in the tables, and whether its last byte is a CR.
#[derive(Clone, Copy)]
pub struct Layout {
    pub separators: Separators,
    pub segments: usize,
    pub leaves: usize,
    pub last_cr: bool,
}

// How many bytes stand before the first CR.
fn line_len(text: &[u8]) -> usize
    ensures { result ≡ position_or_len (λ b. b == 0x0d) text.now }
{
    text.iter().take_while(|&&b| b != b'\r').count()
}

// Where the line that begins at index i ends.
fn line_end(text: &[u8], i: usize) -> usize
    requires { i ≤ length text.now }
    ensures { LineEnd text.now i result }
{
    i + line_len(&text[i..])
}

// Whether b may stand in a name.
#[tactic(auto, unfolding(message_model::specs::Message::is_name_byte, text::specs::Text::is_upper, text::specs::Text::is_digit))]
fn is_name_byte(b: u8) -> bool
    ensures { result ≡ is_name_byte b }
{
    matches!(b, b'A'..=b'Z' | b'0'..=b'9')
}

// Whether three bytes are the name of a segment behind the header.
fn is_name(n: &[u8]) -> bool
    requires { length n.now ≡ 3 }
    ensures { result ≡ is_name n.now }
{
    n.iter().all(|&b| is_name_byte(b)) & !is_header_name(n[0], n[1], n[2])
}

// Whether a line begins with a name, behind which comes a field delimiter or the end.
#[tactic(auto, unfolding(message_model::specs::Message::is_named))]
fn is_named(s: Separators, line: &[u8]) -> bool
    ensures { result ≡ is_named s line.now }
{
    line.len() >= 3 && is_name(&line[..3]) && (line.len() == 3 || line[3] == s.field)
}

// Whether a line begins with the name of the label.
fn has_name(label: Label, line: &[u8]) -> bool
    ensures { result ≡ same (name_of label) (take 3 line.now) }
{
    line.starts_with(&[label.a, label.b, label.c])
}

// The last of the segments that has the name at the front of a line.
fn last_named(segments: &[Segment], line: &[u8]) -> Option<Segment>
    ensures { result ≡ find (λ s. same (name_of s.label) (take 3 line.now)) (reverse segments.now) }
{
    segments
        .iter()
        .rev()
        .copied()
        .find(|row| has_name(row.label, line))
}

// The occurrence of a line with a name behind the segments before it: one more than that of the last segment of this name.
fn occurrence(before: &[Segment], line: &[u8]) -> usize
    requires { (length before.now ≤ SEGMENTS_MAX) × Numbered before.now (length before.now) }
    ensures { result ≡ count (take 3 line.now) (names before.now 0 (length before.now)) + 1 }
{
    match last_named(before, line) {
        Some(last) => last.label.occurrence + 1,
        None => 1,
    }
}

// Reads the leaves of what stands between the indices from and end, behind a name or MSH-2, into the rows from n on; field is the field before them.
// Returns the number of rows then; TooMany if there are more than 4096.
fn read_behind(
    text: &[u8],
    from: usize,
    end: usize,
    s: Separators,
    field: usize,
    n: usize,
    leaves: &mut [Leaf],
) -> Result<usize, Refusal>
    requires { (1 ≤ from) × (field ≤ from) × (from ≤ end) × (end ≤ length text.now) × (n ≤ LEAVES_MAX) × (n < from) × LeafRoom leaves.old (length text.now) }
    ensures { LeavesRead (leaves_behind s (at_field field) (drop from (take end text.now))) text.now end n leaves.old leaves.new result }
{
    if from == end {
        return Ok(n);
    }
    let p = next(s, text[from], at_field(field));
    read_leaves(&text[..end], from + 1, s, p, n, leaves)
}

// Reads the line from index i to index e, which has a name and is no header, as segment k behind n leaves.
// Returns the number of leaves then; TooMany if there are more than 256 segments or 4096 leaves.
fn read_segment(
    text: &[u8],
    i: usize,
    e: usize,
    s: Separators,
    k: usize,
    n: usize,
    segments: &mut [Segment; SEGMENT_ROWS],
    leaves: &mut [Leaf],
) -> Result<usize, Refusal>
    requires { (i + 3 ≤ e) × (e ≤ length text.now) × (k ≤ SEGMENTS_MAX) × (n ≤ LEAVES_MAX) × (n ≤ i) × LeafRoom leaves.old (length text.now) × Numbered segments.old k × (is_header_name (take 3 (line text.now i e)) ≡ false) }
    ensures { SegmentRead s text.now (line text.now i e) e k n segments.old leaves.old segments.new leaves.new result }
{
    if k == SEGMENTS_MAX {
        return Err(Refusal::TooMany);
    }
    let end = read_behind(text, i + 3, e, s, 0, n, leaves)?;
    let line = &text[i..e];
    let number = occurrence(&segments[..k], line);
    let label = label_of(line, number);
    put_segment(segments, k, Segment { first: n, label }, end);
    Ok(end)
}

// Reads the first line, which ends at index e and names the delimiters s, as segment 0.
// Returns the number of leaves; TooMany if there are more than 4096.
fn read_header(
    text: &[u8],
    e: usize,
    s: Separators,
    segments: &mut [Segment; SEGMENT_ROWS],
    leaves: &mut [Leaf],
) -> Result<usize, Refusal>
    requires { (8 ≤ e) × (e ≤ length text.now) × (s ≡ separators_of (line text.now 0 e)) × LeafRoom leaves.old (length text.now) × (is_header_name (take 3 (line text.now 0 e)) ≡ true) }
    ensures { SegmentRead s text.now (line text.now 0 e) e 0 0 segments.old leaves.old segments.new leaves.new result }
{
    put_leaf(leaves, 0, at_field(1), 3, 1);
    put_leaf(leaves, 1, at_field(2), 4, 4);
    let n = read_behind(text, 8, e, s, 2, 2, leaves)?;
    let label = label_of(&text[..e], 1);
    put_segment(segments, 0, Segment { first: 0, label }, n);
    Ok(n)
}

// Reads the lines from index from on, behind the header and its n0 leaves; last says whether a CR ends the last one.
fn read_rest(
    text: &[u8],
    from: usize,
    s: Separators,
    last: bool,
    n0: usize,
    segments: &mut [Segment; SEGMENT_ROWS],
    leaves: &mut [Leaf],
) -> Result<Layout, Refusal>
    requires { (from ≤ length text.now) × (n0 ≤ from) × Reading s text.now segments.old leaves.old 1 n0 (segment_lines [] (drop from text.now)) }
    ensures { ParsedAs text.now (fault_by s text.now) (message_by s last text.now) segments.new leaves.new result }
{
    let mut i = from;
    let mut k = 1;
    let mut n = n0;
    // no `for`: how many lines there are, and where the next one starts, is known only when the one before it is read
    'lines: loop {
        let e = line_end(text, i);
        if !is_named(s, &text[i..e]) {
            return Err(Refusal::BadSegment);
        }
        n = read_segment(text, i, e, s, k, n, segments, leaves)?;
        k += 1;
        if e == text.len() {
            return Ok(Layout {
                separators: s,
                segments: k,
                leaves: n,
                last_cr: last,
            });
        }
        i = e + 1;
    }
}

// Reads the lines of a text by the delimiters s of its header, which ends at index e; last says whether a CR ends the last one.
fn read_lines(
    text: &[u8],
    e: usize,
    s: Separators,
    last: bool,
    segments: &mut [Segment; SEGMENT_ROWS],
    leaves: &mut [Leaf],
) -> Result<Layout, Refusal>
    requires { HeaderEnd s text.now e × LeafRoom leaves.old (length text.now) }
    ensures { ParsedAs text.now (fault_by s text.now) (message_by s last text.now) segments.new leaves.new result }
{
    let n = read_header(text, e, s, segments, leaves)?;
    if e == text.len() {
        return Ok(Layout {
            separators: s,
            segments: 1,
            leaves: n,
            last_cr: last,
        });
    }
    read_rest(text, e + 1, s, last, n, segments, leaves)
}

// Reads the lines of a text; last says whether a CR ends the last one.
fn parse_lines(
    text: &[u8],
    last: bool,
    segments: &mut [Segment; SEGMENT_ROWS],
    leaves: &mut [Leaf],
) -> Result<Layout, Refusal>
    requires { LeafRoom leaves.old (length text.now) }
    ensures { ParsedAs text.now (lines_fault text.now) (lines_message last text.now) segments.new leaves.new result }
{
    let e = line_end(text, 0);
    let header = &text[..e];
    if !is_header(header) {
        return Err(Refusal::BadHeader);
    }
    let s = separators_of(header);
    read_lines(text, e, s, last, segments, leaves)
}

// Reads a message of no bytes: it has no segments, hence no leaves and no delimiters.
fn read_nothing(segments: &mut [Segment; SEGMENT_ROWS]) -> Layout
    ensures { NothingRead segments.new result }
{
    segments[0].first = 0;
    let none = Separators {
        field: 0,
        component: 0,
        repetition: 0,
        escape: 0,
        subcomponent: 0,
    };
    Layout {
        separators: none,
        segments: 0,
        leaves: 0,
        last_cr: false,
    }
}

// Reads a message into the two tables, or says what refuses it.
pub fn parse(
    text: &[u8],
    segments: &mut [Segment; SEGMENT_ROWS],
    leaves: &mut [Leaf],
) -> Result<Layout, Refusal>
    requires { LeafRoom leaves.old (length text.now) }
    ensures { ParsedAs text.now (message_fault text.now) (message_of text.now) segments.new leaves.new result }
{
    if INPUT_MAX < text.len() {
        return Err(Refusal::TooLong);
    }
    if !no_foreign(Input::Message, text) {
        return Err(Refusal::ForeignByte);
    }
    if text.is_empty() {
        return Ok(read_nothing(segments));
    }
    match text.strip_suffix(b"\r") {
        Some(lines) => parse_lines(lines, true, segments, leaves),
        None => parse_lines(text, false, segments, leaves),
    }
}
