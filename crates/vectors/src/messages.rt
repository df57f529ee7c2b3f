// The cases of messages: read, and their leaves listed.
use super::groups::Group;
use super::parts::{
    PAGE, Page, front, number, put, put_byte, put_number, put_refused, put_repeated, sum,
};
use er7::message::{Label, Place};
use er7_message::message::{Layout, parse};
use er7_table::table::{Leaf, NO_LEAF, NO_SEGMENT, SEGMENT_ROWS, Segment};
use refusal::limits::LEAVES_MAX;

// Writes the byte b and the number n, and returns the index behind them.
fn put_step(b: u8, n: usize, out: &mut Page, at: usize) -> usize {
    let k = put_byte(b, out, at);
    put_number(n as u64, out, k)
}

// Writes the name and the occurrence of a segment.
fn put_label(g: Label, out: &mut Page, at: usize) -> usize {
    let a = put_byte(g.a, out, at);
    let b = put_byte(g.b, out, a);
    let c = put_byte(g.c, out, b);
    let k = put_step(b'[', g.occurrence, out, c);
    put_byte(b']', out, k)
}

// Writes the place of a leaf.
fn put_place(p: Place, out: &mut Page, at: usize) -> usize {
    let a = put_step(b'-', p.field, out, at);
    let b = put_step(b'[', p.repetition, out, a);
    let c = put_byte(b']', out, b);
    let k = put_step(b'.', p.component, out, c);
    put_step(b'.', p.subcomponent, out, k)
}

// Writes n bytes of text from index start on, if it has them.
fn put_part(text: &[u8], start: usize, n: usize, out: &mut Page, at: usize) -> usize {
    if start <= text.len() && n <= text.len() - start {
        return put(&text[start..start + n], out, at);
    }
    at
}

// Writes a leaf of the segment g: its label, its place and its text.
fn show_leaf(text: &[u8], g: Label, leaf: Leaf, out: &mut Page, at: usize) -> usize {
    let a = put_label(g, out, at);
    let b = put_place(leaf.place, out, a);
    let c = put_byte(b'=', out, b);
    let k = put_part(text, leaf.start, leaf.len, out, c);
    put_byte(b'\n', out, k)
}

// Writes the leaves of the segment g.
fn put_leaves(text: &[u8], g: Label, leaves: &[Leaf], out: &mut Page, at: usize) -> usize {
    let mut k = at;
    for leaf in leaves {
        k = show_leaf(text, g, *leaf, out, k);
    }
    k
}

// Writes a segment, whose leaves stand before leaf end: its leaves, or its label alone.
fn show_segment(
    text: &[u8],
    segment: Segment,
    end: usize,
    leaves: &[Leaf],
    out: &mut Page,
    at: usize,
) -> usize {
    let g = segment.label;
    let own = leaves.get(segment.first..end).unwrap_or(&[]);
    if own.is_empty() {
        let k = put_label(g, out, at);
        return put_byte(b'\n', out, k);
    }
    put_leaves(text, g, own, out, at)
}

// Writes the first n segments.
fn put_segments(
    text: &[u8],
    segments: &[Segment; SEGMENT_ROWS],
    n: usize,
    leaves: &[Leaf],
    out: &mut Page,
) -> usize {
    let mut k = 0;
    for (segment, behind) in segments.iter().zip(&segments[1..]).take(n) {
        k = show_segment(text, *segment, behind.first, leaves, out, k);
    }
    k
}

// Lists a message that was read, with `CR` if a CR ends its last segment; the listing's length and hash in the group of repeated texts.
fn put_message(
    group: Group,
    text: &[u8],
    segments: &[Segment; SEGMENT_ROWS],
    layout: Layout,
    leaves: &[Leaf],
    got: &mut Page,
) -> usize {
    let k = put_segments(text, segments, layout.segments, leaves, got);
    let n = if layout.last_cr {
        put(b"CR", got, k)
    } else {
        k
    };
    if matches!(group, Group::Repeated) {
        sum(n, got)
    } else {
        n
    }
}

// Reads a message and lists it, or writes the refusal.
fn list(group: Group, text: &[u8], got: &mut Page) -> usize {
    let mut segments = [NO_SEGMENT; SEGMENT_ROWS];
    let mut leaves = [NO_LEAF; LEAVES_MAX];
    match parse(text, &mut segments, &mut leaves) {
        Ok(layout) => put_message(group, text, &segments, layout, &leaves, got),
        Err(why) => put_refused(why, got),
    }
}

// What comes out of a case of a group of messages: of a, c times b, and d.
pub fn message_answer(
    group: Group,
    a: &[u8],
    b: &[u8],
    c: &[u8],
    d: &[u8],
    got: &mut Page,
) -> usize {
    let mut text = [0u8; PAGE];
    let n = put_repeated(a, b, number(c), d, &mut text);
    list(group, front(&text, n), got)
}
