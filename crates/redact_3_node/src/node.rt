// The collapse of a node: its leaves are learnt, its first leaf becomes the null, and each other vanishes when the pass comes to it.
ghost use Rattle.std.specs.Prelude.{◌≡◌, Bool, true, List, suc, ◌+◌, ◌-◌, ◌≤◌, ◌<◌, length};
ghost use Rattle.text.specs.Text.{Text};
ghost use Rattle.er7_redact.specs.Action.{as_action, ActionHeld};
ghost use Rattle.er7_redact.specs.Policy.{as_rule};
ghost use Rattle.message_model.specs.Value.{NULL};
ghost use Rattle.run_model.specs.Redact.{becomes, collapse, covers, is_node, learning, row, size, reach};
ghost use Rattle.er7_table.specs.Table.{place_at, as_label};
ghost use Rattle.er7_render.specs.Stored.{live_len, live_sum};
ghost use Rattle.redact_6_row.specs.Reach.{as_reach, starts_at};
ghost use Rattle.redact_5_act.specs.Known.{GoodKnown};
ghost use Rattle.redact_5_act.specs.State.{after_step};
ghost use Rattle.redact_4_leaf.specs.State.{buffers, KnownHeld, Learning, NodeReady, Change};
ghost use Rattle.redact_4_leaf.specs.Visit.{rule_pass, Visit};
ghost use Rattle.redact_3_node.specs.Node.{node_end, live_texts, leaf_size, leaves_size, Learnable, AllLearnable, already};
ghost use Rattle.redact_3_node.specs.Node as Node;
ghost use Rattle.refusal.specs.Limits.{INPUT_MAX, LEAVES_MAX, TEXT_MAX};

use er7_redact::action::Action;
use er7_redact::policy::Rule;
use er7_render::store::set_gone;
use er7_table::table::Leaf;
use er7_value::escape::is_null;
use redact_4_leaf::leaf::{Spot, put_change};
use redact_4_leaf::learn::learn_at;
use redact_5_act::act::put_null;
use redact_5_act::known::Known;
use redact_5_act::state::{Counters, Setting};
use redact_6_row::reach::{Reach, reach_of, starts};
use refusal::Refusal;
use refusal::limits::LEARNT_MAX;

// Whether leaf i has not vanished and begins a node.
#[tactic(auto, unfolding(crate::specs::Node::opens, er7_table::specs::Table::place_at))]
fn opens(reach: Reach, i: usize, leaves: &[Leaf]) -> bool
    requires { i < length leaves.now }
    ensures { result ≡ Node.opens (as_reach reach) leaves.now i }
{
    !leaves[i].gone & starts(reach, leaves[i].place)
}

// The index behind the last leaf of the node whose first is leaf i: the next leaf that has not vanished and begins a node, or end.
fn node_end(reach: Reach, i: usize, end: usize, leaves: &[Leaf]) -> usize
    requires { (i < end) × (end ≤ length leaves.now) }
    ensures { result ≡ node_end (as_reach reach) leaves.now (suc i) (end - suc i) }
{
    (i + 1..end)
        .find(|&j| opens(reach, j, leaves))
        .unwrap_or(end)
}

// The bytes of leaf i with its delimiter, 0 if it has vanished.
#[tactic(auto, unfolding(crate::specs::Node::leaf_size, er7_render::specs::Stored::live_len))]
fn leaf_size(i: usize, leaves: &[Leaf]) -> usize
    requires { (i < length leaves.now) × (live_len leaves.now i ≤ TEXT_MAX) }
    ensures { result ≡ leaf_size leaves.now i }
{
    let leaf = leaves[i];
    if leaf.gone { 0 } else { leaf.len + 1 }
}

// The bytes of the leaves from leaf first to before leaf end that have not vanished, each with its delimiter.
fn leaves_size(first: usize, end: usize, leaves: &[Leaf]) -> usize
    requires { (first ≤ end) × (end ≤ length leaves.now) × (live_sum leaves.now first (end - first) ≤ TEXT_MAX) }
    ensures { result ≡ leaves_size leaves.now first (end - first) }
{
    let mut sum = 0;
    for i in first..end {
        sum += leaf_size(i, leaves);
    }
    sum
}

// Learns what leaf i says, with the action a, unless it has vanished.
fn learn_live(
    on: Setting,
    a: Action,
    i: usize,
    leaves: &[Leaf],
    store: &[u8; 98304],
    bytes: &mut [u8; 65536],
    known: &mut [Known; LEARNT_MAX],
    counters: &mut Counters,
) -> Result<(), Refusal>
    requires { Learnable leaves.now bytes.old known.old i counters.old }
    ensures { (text : Text) → ActionHeld text a → KnownHeld text bytes.old known.old counters.old → Learning (learning on.separators (as_action text a) (live_texts leaves.now store.now i 1)) on.sweep text bytes.old known.old counters.old bytes.new known.new (after_step counters.new result) }
{
    if leaves[i].gone {
        return Ok(());
    }
    learn_at(on, a, i, leaves, store, bytes, known, counters)
}

// Learns what the leaves from leaf first to before leaf end say that have not vanished.
fn learn_all(
    on: Setting,
    a: Action,
    first: usize,
    end: usize,
    leaves: &[Leaf],
    store: &[u8; 98304],
    bytes: &mut [u8; 65536],
    known: &mut [Known; LEARNT_MAX],
    counters: &mut Counters,
) -> Result<(), Refusal>
    requires { AllLearnable leaves.now first end × GoodKnown bytes.old known.old counters.old.known counters.old.known_used }
    ensures { (text : Text) → ActionHeld text a → KnownHeld text bytes.old known.old counters.old → Learning (learning on.separators (as_action text a) (live_texts leaves.now store.now first (end - first))) on.sweep text bytes.old known.old counters.old bytes.new known.new (after_step counters.new result) }
{
    for i in first..end {
        learn_live(on, a, i, leaves, store, bytes, known, counters)?;
    }
    Ok(())
}

// Makes the null the text of a leaf, with its row, where went bytes of the message go.
fn put_null_change(
    at: Spot,
    n: usize,
    a: Action,
    text: &[u8],
    went: usize,
    leaves: &mut [Leaf],
    store: &mut [u8; 98304],
    report: &mut [u8],
    counters: &mut Counters,
) -> Result<(), Refusal>
    requires { ActionHeld text.now a × NodeReady leaves.old store.old n at.index at.end counters.old × (length text.now ≤ INPUT_MAX) }
    ensures { Change true (becomes NULL) (row (as_label at.label) (place_at leaves.old at.index) (as_action text.now a)) went n at.index leaves.old store.old report.old counters.old leaves.new store.new report.new (after_step counters.new result) }
{
    if let Some(came) = put_null(store, went, *counters)? {
        put_change(at, a, text, went, came, leaves, report, counters);
    }
    Ok(())
}

// The node that begins at a leaf and ends before index at.end becomes one null leaf, unless it is that already.
fn null_node(
    at: Spot,
    n: usize,
    a: Action,
    text: &[u8],
    leaves: &mut [Leaf],
    store: &mut [u8; 98304],
    report: &mut [u8],
    counters: &mut Counters,
) -> Result<(), Refusal>
    requires { ActionHeld text.now a × NodeReady leaves.old store.old n at.index at.end counters.old × (length text.now ≤ INPUT_MAX) }
    ensures { Change true (collapse true (already leaves.old store.old at.index at.end)) (row (as_label at.label) (place_at leaves.old at.index) (as_action text.now a)) (size (live_texts leaves.old store.old at.index (at.end - at.index)) - 1) n at.index leaves.old store.old report.old counters.old leaves.new store.new report.new (after_step counters.new result) }
{
    let i = at.index;
    let leaf = leaves[i];
    let rest = leaves_size(i + 1, at.end, leaves);
    if is_null(leaf.text(store)) & (rest == 0) {
        return Ok(());
    }
    let went = leaf.len + rest;
    put_null_change(at, n, a, text, went, leaves, store, report, counters)
}

// The collapse of the node whose first leaf this is, in a segment whose leaves end before index at.end.
fn collapse_node(
    on: Setting,
    at: Spot,
    rule: Rule,
    text: &[u8],
    leaves: &mut [Leaf],
    store: &mut [u8; 98304],
    report: &mut [u8],
    bytes: &mut [u8; 65536],
    known: &mut [Known; LEARNT_MAX],
    counters: &mut Counters,
) -> Result<(), Refusal>
    requires { ActionHeld text.now rule.action × (is_node (reach (as_rule text.now rule)) ≡ true) × (covers (as_rule text.now rule) (as_label at.label) (place_at leaves.old at.index) ≡ true) × (starts_at (reach (as_rule text.now rule)) (place_at leaves.old at.index) ≡ true) × NodeReady leaves.old store.old on.leaves at.index at.end counters.old × KnownHeld text.now bytes.old known.old counters.old × (length text.now ≤ INPUT_MAX) × (on.leaves ≤ LEAVES_MAX) }
    ensures { (named : List Bool) → Visit (λ ks. rule_pass on.key on.separators (as_rule text.now rule)) true on at text.now (buffers named leaves.old store.old report.old bytes.old known.old) counters.old (buffers named leaves.new store.new report.new bytes.new known.new) (after_step counters.new result) }
{
    let a = rule.action;
    let i = at.index;
    let end = node_end(reach_of(rule), i, at.end, leaves);
    learn_all(on, a, i, end, leaves, store, bytes, known, counters)?;
    null_node(
        Spot { end, ..at },
        on.leaves,
        a,
        text,
        leaves,
        store,
        report,
        counters,
    )
}

// A rule that collapses nodes, on a leaf that it covers: a node collapses at its first leaf, and each other leaf of it vanishes.
pub fn collapse_leaf(
    on: Setting,
    at: Spot,
    rule: Rule,
    text: &[u8],
    leaves: &mut [Leaf],
    store: &mut [u8; 98304],
    report: &mut [u8],
    bytes: &mut [u8; 65536],
    known: &mut [Known; LEARNT_MAX],
    counters: &mut Counters,
) -> Result<(), Refusal>
    requires { ActionHeld text.now rule.action × (is_node (reach (as_rule text.now rule)) ≡ true) × (covers (as_rule text.now rule) (as_label at.label) (place_at leaves.old at.index) ≡ true) × NodeReady leaves.old store.old on.leaves at.index at.end counters.old × KnownHeld text.now bytes.old known.old counters.old × (length text.now ≤ INPUT_MAX) × (on.leaves ≤ LEAVES_MAX) }
    ensures { (named : List Bool) → Visit (λ ks. rule_pass on.key on.separators (as_rule text.now rule)) true on at text.now (buffers named leaves.old store.old report.old bytes.old known.old) counters.old (buffers named leaves.new store.new report.new bytes.new known.new) (after_step counters.new result) }
{
    let i = at.index;
    if !starts(reach_of(rule), leaves[i].place) {
        set_gone(leaves, i);
        return Ok(());
    }
    collapse_node(
        on, at, rule, text, leaves, store, report, bytes, known, counters,
    )
}
