// Printing a message: each leaf behind its delimiter, each segment behind its name.
ghost use Rattle.std.specs.Prelude.{◌≡◌, ◌+◌, ◌≤◌, length};
ghost use Rattle.text.specs.Text.{Wrote};
ghost use Rattle.message_model.specs.Message.{delimiter};
ghost use Rattle.er7_table.specs.Table.{name_of, Good, Segmented};
ghost use Rattle.er7_render.specs.Rendered.{rendered};
ghost use Rattle.er7_render.specs.Inner.{lead_in, ending, InStore, InTables, leaf_text, leaves_text, segment_text};

use er7::message::{Label, Place};
use er7::separators::Separators;
use er7_message::message::Layout;
use er7_table::table::{Leaf, SEGMENT_ROWS, Segment, is_header_name};
use text::bytes::{byte_at, copy_at};

// The delimiter before a leaf at p.
#[tactic(auto, unfolding(message_model::specs::Message::delimiter))]
pub fn delimiter_before(s: Separators, p: Place) -> u8
    ensures { result ≡ delimiter s p }
{
    if p.subcomponent != 1 {
        return s.subcomponent;
    }
    if p.component != 1 {
        return s.component;
    }
    if p.repetition != 1 {
        return s.repetition;
    }
    s.field
}

// Writes what stands before a leaf at p to out from index at on: its delimiter, and nothing before MSH-1 and MSH-2. Returns the index behind it.
fn put_lead(s: Separators, header: bool, p: Place, out: &mut [u8], at: usize) -> usize
    requires { at + length (lead_in s header p) ≤ length out.old }
    ensures { Wrote out.old at (lead_in s header p) out.new result }
{
    if header & (p.field <= 2) {
        return at;
    }
    byte_at(out, at, delimiter_before(s, p))
}

// Writes a leaf and what stands before it to out from index at on, and nothing if the leaf has vanished. Returns the index behind it.
fn print_leaf(
    s: Separators,
    header: bool,
    leaf: Leaf,
    store: &[u8],
    out: &mut [u8],
    at: usize,
) -> usize
    requires { InStore store.now leaf × (at + length (leaf_text s header store.now leaf) ≤ length out.old) }
    ensures { Wrote out.old at (leaf_text s header store.now leaf) out.new result }
{
    if leaf.gone {
        return at;
    }
    let k = put_lead(s, header, leaf.place, out, at);
    copy_at(out, k, leaf.text(store))
}

// Writes leaves to out from index at on, and returns the index behind them.
fn put_leaves(
    s: Separators,
    header: bool,
    leaves: &[Leaf],
    store: &[u8],
    out: &mut [u8],
    at: usize,
) -> usize
    requires { Good leaves.now store.now (length leaves.now) (length store.now) × (at + length (leaves_text s header leaves.now store.now 0 (length leaves.now)) ≤ length out.old) }
    ensures { Wrote out.old at (leaves_text s header leaves.now store.now 0 (length leaves.now)) out.new result }
{
    let mut k = at;
    for leaf in leaves {
        k = print_leaf(s, header, *leaf, store, out, k);
    }
    k
}

// Writes the name of a label to out from index at on, and returns the index behind it.
fn put_name(label: Label, out: &mut [u8], at: usize) -> usize
    requires { at + 3 ≤ length out.old }
    ensures { Wrote out.old at (name_of label) out.new result }
{
    copy_at(out, at, &[label.a, label.b, label.c])
}

// Writes a CR to out at index at if it is wanted, and returns the index behind it.
fn put_cr(wanted: bool, out: &mut [u8], at: usize) -> usize
    requires { at + length (ending wanted) ≤ length out.old }
    ensures { Wrote out.old at (ending wanted) out.new result }
{
    if wanted {
        return byte_at(out, at, 13);
    }
    at
}

// Writes segment k to out from index at on, and returns the index behind it; a CR ends it, the last one only if the message ended so.
fn print_segment(
    layout: Layout,
    k: usize,
    segments: &[Segment; SEGMENT_ROWS],
    leaves: &[Leaf],
    store: &[u8],
    out: &mut [u8],
    at: usize,
) -> usize
    requires { InTables segments.now leaves.now store.now k × (at + length (segment_text layout.separators layout.last_cr segments.now leaves.now store.now layout.segments k) ≤ length out.old) }
    ensures { Wrote out.old at (segment_text layout.separators layout.last_cr segments.now leaves.now store.now layout.segments k) out.new result }
{
    let segment = segments[k];
    let end = segments[k + 1].first;
    let label = segment.label;
    let header = is_header_name(label.a, label.b, label.c);
    let named = put_name(label, out, at);
    let own = &leaves[segment.first..end];
    let printed = put_leaves(layout.separators, header, own, store, out, named);
    put_cr((k + 1 != layout.segments) | layout.last_cr, out, printed)
}

// Writes the message in the tables to the front of out, and returns its length.
pub fn render(
    segments: &[Segment; SEGMENT_ROWS],
    leaves: &[Leaf],
    store: &[u8],
    layout: Layout,
    out: &mut [u8],
) -> usize
    requires segmented { Segmented segments.now layout.segments layout.leaves × Good leaves.now store.now layout.leaves (length store.now) }
    requires out_in_bounds { length (rendered layout segments.now leaves.now store.now) ≤ length out.old }
    ensures { Wrote out.old 0 (rendered layout segments.now leaves.now store.now) out.new result }
{
    let mut at = 0;
    for k in 0..layout.segments {
        at = print_segment(layout, k, segments, leaves, store, out, at);
    }
    at
}
