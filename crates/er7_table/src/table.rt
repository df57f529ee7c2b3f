// The table of leaves, and the table of segments.
ghost use Rattle.std.specs.Prelude.{◌≡◌, [], ◌∷◌, ◌+◌, ◌-◌, ◌^◌, ◌≤◌, ◌<◌, length, take, drop};
ghost use Rattle.std.specs.List.{position_or_len};
ghost use Rattle.text.specs.Text.{part};
ghost use Rattle.message_model.specs.Message as Message;
ghost use Rattle.er7_table.specs.Table.{Within, as_label};
ghost use Rattle.er7_table.specs.Filling.{LeafEnd, LeafPut, SegmentPut, LeafRoom, LeavesRead};
ghost use Rattle.refusal.specs.Limits.{LEAVES_MAX};

use er7::message::{Label, Place};
use er7::separators::Separators;
use refusal::Refusal;
use refusal::limits::{LEAVES_MAX, SEGMENTS_MAX};

// A leaf: where its text begins in the store, the length of the text, whether the leaf has vanished, and its place.
#[derive(Clone, Copy)]
pub struct Leaf {
    pub start: usize,
    pub len: usize,
    pub gone: bool,
    pub place: Place,
}

impl Leaf {
    // Its text in the store.
    #[tactic(auto, unfolding(text::specs::Text::part))]
    pub fn text(self, store: &[u8]) -> &[u8]
        requires { self.start + self.len ≤ length store.now }
        ensures { result.now ≡ part store.now self.start self.len }
    {
        &store[self.start..self.start + self.len]
    }
}

// A row of the table of leaves that no leaf has.
pub const NO_LEAF: Leaf = Leaf {
    start: 0,
    len: 0,
    gone: false,
    place: Place {
        field: 0,
        repetition: 0,
        component: 0,
        subcomponent: 0,
    },
};

// A segment: its first leaf, and its label.
#[derive(Clone, Copy)]
pub struct Segment {
    pub first: usize,
    pub label: Label,
}

// A row of the table of segments that no segment has.
pub const NO_SEGMENT: Segment = Segment {
    first: 0,
    label: Label {
        a: 0,
        b: 0,
        c: 0,
        occurrence: 0,
    },
};

// The rows of the table of segments: the one behind the last segment has the number of leaves as its first leaf.
pub const SEGMENT_ROWS: usize = SEGMENTS_MAX + 1;

// Whether b ends a leaf.
#[tactic(auto, unfolding(message_model::specs::Message::ends_leaf))]
pub fn ends_leaf(s: Separators, b: u8) -> bool
    ensures { result ≡ Message.ends_leaf s b }
{
    (b == s.field) | (b == s.repetition) | (b == s.component) | (b == s.subcomponent)
}

// Whether three bytes are the name of a header.
#[tactic(auto, unfolding(message_model::specs::Message::is_header_name, text::specs::Text::same, text::specs::Text::bytes))]
pub fn is_header_name(a: u8, b: u8, c: u8) -> bool
    ensures { result ≡ Message.is_header_name (a ∷ b ∷ c ∷ []) }
{
    matches!((a, b, c), (b'M', b'S', b'H') | (b'F' | b'B', b'H', b'S'))
}

// The first place of field n.
#[tactic(auto, unfolding(message_model::specs::Message::at_field))]
pub fn at_field(n: usize) -> Place
    ensures { result ≡ Message.at_field n }
{
    Place {
        field: n,
        repetition: 1,
        component: 1,
        subcomponent: 1,
    }
}

// Where the leaf behind the delimiter b stands, if the one before it stands at p.
#[tactic(auto, unfolding(message_model::specs::Message::next, message_model::specs::Message::at_field))]
pub fn next(s: Separators, b: u8, p: Place) -> Place
    requires { Within p (2 ^ 64 - 2) }
    ensures { result ≡ Message.next s b p }
{
    if b == s.field {
        return at_field(p.field + 1);
    }
    let first = at_field(p.field);
    if b == s.repetition {
        return Place {
            repetition: p.repetition + 1,
            ..first
        };
    }
    if b == s.component {
        return Place {
            repetition: p.repetition,
            component: p.component + 1,
            ..first
        };
    }
    Place {
        subcomponent: p.subcomponent + 1,
        ..p
    }
}

// The label of the segment that a line is, by the name at its front, and its occurrence.
pub fn label_of(line: &[u8], occurrence: usize) -> Label
    requires { 3 ≤ length line.now }
    ensures { as_label result ≡ record { name = take 3 line.now; occurrence = occurrence } }
{
    Label {
        a: line[0],
        b: line[1],
        c: line[2],
        occurrence,
    }
}

// How many bytes stand before the first delimiter.
fn leaf_len(text: &[u8], s: Separators) -> usize
    ensures { result ≡ position_or_len (λ b. Message.ends_leaf s b) text.now }
{
    text.iter().take_while(|&&b| !ends_leaf(s, b)).count()
}

// Where the leaf that begins at index i ends.
pub fn leaf_end(text: &[u8], i: usize, s: Separators) -> usize
    requires { i ≤ length text.now }
    ensures { LeafEnd s text.now i result }
{
    i + leaf_len(&text[i..], s)
}

// Makes row i the leaf at place whose text is len bytes of the store from index start on.
pub fn put_leaf(leaves: &mut [Leaf], i: usize, place: Place, start: usize, len: usize)
    requires { i < length leaves.old }
    ensures { LeafPut leaves.old i place start len leaves.new }
{
    leaves[i] = Leaf {
        start,
        len,
        gone: false,
        place,
    };
}

// Makes row k the segment, whose leaves end before end.
pub fn put_segment(segments: &mut [Segment], k: usize, segment: Segment, end: usize)
    requires { k + 1 < length segments.old }
    ensures { SegmentPut segments.old k segment end segments.new }
{
    segments[k] = segment;
    segments[k + 1].first = end;
}

// Reads the leaves of text from index from on, of which the first stands at place, into the rows from n0 on.
// Returns the number of rows then; TooMany if there are more than 4096.
pub fn read_leaves(
    text: &[u8],
    from: usize,
    s: Separators,
    place: Place,
    n0: usize,
    leaves: &mut [Leaf],
) -> Result<usize, Refusal>
    requires { (from ≤ length text.now) × (n0 ≤ LEAVES_MAX) × (n0 < from) × LeafRoom leaves.old (length text.now) × Within place from }
    ensures { LeavesRead (Message.leaves s place [] (drop from text.now)) text.now (length text.now) n0 leaves.old leaves.new result }
{
    let mut i = from;
    let mut p = place;
    for n in n0..LEAVES_MAX {
        let e = leaf_end(text, i, s);
        put_leaf(leaves, n, p, i, e - i);
        if e == text.len() {
            return Ok(n + 1);
        }
        p = next(s, text[e], p);
        i = e + 1;
    }
    Err(Refusal::TooMany)
}
