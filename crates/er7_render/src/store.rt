// The store of the leaves' texts. It only grows: a new text is written behind the last one, and the leaf's row then says where it stands.
// A compaction leaves the texts of the leaves that have not vanished, and no more.
ghost use Rattle.std.specs.Prelude.{◌≡◌, cond, ◌+◌, ◌≤◌, ◌<◌, length};
ghost use Rattle.text.specs.Text.{SameTo};
ghost use Rattle.er7_table.specs.Table.{leaf_row, Good};
ghost use Rattle.er7_render.specs.Stored.{TextSet, Vanished, live_len, live_sum, Packed, RoomMade};
ghost use Rattle.er7_render.specs.Inner.{InStore, LeafPacked};
ghost use Rattle.refusal.specs.Limits.{LEARNT_BYTES_MAX, TEXT_MAX};

use er7_table::table::Leaf;
use refusal::limits::TEXT_MAX;
use text::bytes::copy_at;

// Makes the text of leaf i the len bytes of the store from index start on.
pub fn set_text(leaves: &mut [Leaf], i: usize, start: usize, len: usize)
    requires { i < length leaves.old }
    ensures { TextSet leaves.old i start len leaves.new }
{
    leaves[i].start = start;
    leaves[i].len = len;
}

// Makes leaf i vanish.
pub fn set_gone(leaves: &mut [Leaf], i: usize)
    requires { i < length leaves.old }
    ensures { Vanished leaves.old i leaves.new }
{
    leaves[i].gone = true;
}

// The length of a leaf's text, 0 if the leaf has vanished.
fn live_len(leaf: Leaf) -> usize
    ensures { result ≡ cond leaf.gone 0 leaf.len }
{
    if leaf.gone { 0 } else { leaf.len }
}

// Copies the text of leaf i, if the leaf has not vanished, from the store to spare from index at on, and makes it the leaf's text there.
// Returns the index behind it.
fn pack_leaf(leaves: &mut [Leaf], i: usize, store: &[u8], spare: &mut [u8], at: usize) -> usize
    requires { (i < length leaves.old) × InStore store.now (leaf_row leaves.old i) × (at + live_len leaves.old i ≤ length spare.old) }
    ensures { LeafPacked leaves.old store.now i spare.old at leaves.new spare.new result }
{
    let leaf = leaves[i];
    let n = live_len(leaf);
    let live = Leaf { len: n, ..leaf };
    let r = copy_at(spare, at, live.text(store));
    set_text(leaves, i, at, n);
    r
}

// Copies the texts of the n leaves that have not vanished, in order, to the front of spare, and makes them the leaves' texts there.
// Returns how many bytes they are.
fn pack(n: usize, leaves: &mut [Leaf], store: &[u8], spare: &mut [u8]) -> usize
    requires { Good leaves.old store.now n (length store.now) × (live_sum leaves.old 0 n ≤ length spare.old) }
    ensures { Packed leaves.old store.now n leaves.new spare.new result }
{
    let mut at = 0;
    for i in 0..n {
        at = pack_leaf(leaves, i, store, spare, at);
    }
    at
}

// Leaves in the store, of which the first used bytes hold the texts of n leaves, only the texts of those that have not vanished.
// Returns how many bytes they are. What spare holds is lost.
fn compact(n: usize, leaves: &mut [Leaf], store: &mut [u8], spare: &mut [u8], used: usize) -> usize
    requires { Good leaves.old store.old n used × (live_sum leaves.old 0 n ≤ length store.old) × (live_sum leaves.old 0 n ≤ length spare.old) }
    ensures { Packed leaves.old store.old n leaves.new store.new result }
{
    let r = pack(n, leaves, store, spare);
    copy_at(store, 0, &spare[..r]);
    r
}

// Does so through bytes from index from on, whose first from bytes are kept.
fn compact_behind(
    n: usize,
    leaves: &mut [Leaf],
    store: &mut [u8],
    bytes: &mut [u8],
    from: usize,
    used: usize,
) -> usize
    requires { Good leaves.old store.old n used × (live_sum leaves.old 0 n ≤ length store.old) × (from + live_sum leaves.old 0 n ≤ length bytes.old) }
    ensures { Packed leaves.old store.old n leaves.new store.new result × SameTo from bytes.old bytes.new }
{
    compact(n, leaves, store, &mut bytes[from..], used)
}

// Room in the store for the texts that a turn may write: where fewer than 49,152 bytes are left behind the used ones, the texts are moved together first,
// through bytes from index from on, whose first from bytes are kept.
// Returns how many bytes of the store are used.
pub fn make_room(
    n: usize,
    leaves: &mut [Leaf],
    store: &mut [u8; 98304],
    bytes: &mut [u8; 65536],
    from: usize,
    used: usize,
) -> usize
    requires { Good leaves.old store.old n used × (live_sum leaves.old 0 n ≤ TEXT_MAX) × (from ≤ LEARNT_BYTES_MAX) }
    ensures { RoomMade n leaves.old store.old bytes.old from leaves.new store.new bytes.new result }
{
    if used <= TEXT_MAX {
        return used;
    }
    compact_behind(n, leaves, store, bytes, from, used)
}
