// A turn of a run over all leaves of a message.
ghost use Rattle.std.specs.Prelude.{◌≡◌, ◌+◌, ◌≤◌, ◌<◌, length};
ghost use Rattle.er7.specs.Path.{PathHeld};
ghost use Rattle.er7_table.specs.Table.{as_label, Segmented};
ghost use Rattle.redact_5_act.specs.State.{after_step};
ghost use Rattle.redact_4_leaf.specs.State.{buffers};
ghost use Rattle.redact_4_leaf.specs.Visit.{Visit};
ghost use Rattle.redact_2_turn.specs.Turn as Turns;
ghost use Rattle.redact_2_turn.specs.Turn.{name_of, aim_of, field_of, works, by_node, pass_by, TurnHeld, JobHeld};
ghost use Rattle.redact_2_turn.specs.Ordered.{Rising, AllOrdered, StartAt, is_behind, NextLeaf, NextSegment, SpotIs};
ghost use Rattle.redact_2_turn.specs.Taken.{Ahead, Visitable, Passable, LeavesPassed, TurnTaken};
ghost use Rattle.refusal.specs.Limits.{LEAVES_MAX};

use er7::message::Label;
use er7::path::Path;
use er7_redact::action::{Action, is_null_action};
use er7_redact::policy::Rule;
use er7_table::table::{Leaf, SEGMENT_ROWS, Segment};
use redact_3_node::node::collapse_leaf;
use redact_4_leaf::leaf::{Spot, act_on, mark};
use redact_4_leaf::visit::{apply_leaf, sweep_leaf};
use redact_5_act::known::Known;
use redact_5_act::state::{Counters, Setting};
use redact_6_row::reach::{index_fits, reaches_place, touchable};
use refusal::Refusal;
use refusal::limits::{LEARNT_MAX, LEAVES_MAX};

// A rule on each leaf, a rule on nodes, a rejecting posture, the sweep, or nothing.
#[derive(Clone, Copy)]
pub enum Turn {
    Apply(Rule),
    Collapse(Rule),
    Reject(Action),
    Sweep,
    Idle,
}

// What a turn looks at: the leaves that a path's numbers fit, in the segments of its name and of its occurrence, in none if its name has
// not three bytes; or the leaves that no rule named, in every segment, with those that are empty or without; or nothing.
#[derive(Clone, Copy)]
pub enum Aim {
    Reached {
        name: Option<(u8, u8, u8)>,
        path: Path,
    },
    Unnamed {
        empty: bool,
    },
    Nothing,
}

// A turn of a run, and what it looks at.
#[derive(Clone, Copy)]
pub struct Job {
    pub on: Setting,
    pub turn: Turn,
    pub aim: Aim,
}

// The name of a path, which stands in text, if it has three bytes.
#[tactic(auto, unfolding(crate::specs::Turn::name_of))]
fn name_of(path: Path, text: &[u8]) -> Option<(u8, u8, u8)>
    requires { PathHeld text.now path }
    ensures { result ≡ name_of text.now path }
{
    if path.segment_len != 3 {
        return None;
    }
    let i = path.segment;
    Some((text[i], text[i + 1], text[i + 2]))
}

// What a turn looks at.
#[tactic(auto, unfolding(crate::specs::Turn::aim_of, crate::specs::Turn::aim_at))]
pub fn aim_of(turn: Turn, text: &[u8]) -> Aim
    requires { TurnHeld text.now turn }
    ensures { result ≡ aim_of text.now turn }
{
    match turn {
        Turn::Apply(Rule { path, .. }) | Turn::Collapse(Rule { path, .. }) => Aim::Reached {
            name: name_of(path, text),
            path,
        },
        Turn::Reject(a) => Aim::Unnamed {
            empty: is_null_action(a),
        },
        Turn::Sweep => Aim::Unnamed { empty: false },
        Turn::Idle => Aim::Nothing,
    }
}

// The field to which an aim keeps, 0 for none.
#[tactic(auto, unfolding(crate::specs::Turn::field_of))]
fn field_of(aim: &Aim) -> u64
    ensures { result ≡ field_of aim.now }
{
    match *aim {
        Aim::Reached { path, .. } => path.field,
        Aim::Unnamed { .. } => 0,
        Aim::Nothing => 0,
    }
}

// Whether an aim has to do with a segment.
#[tactic(auto, unfolding(crate::specs::Turn::enters))]
fn enters(aim: &Aim, g: Label) -> bool
    ensures { result ≡ Turns.enters aim.now (as_label g) }
{
    match *aim {
        Aim::Reached { name, path } => {
            let Some((a, b, c)) = name else {
                return false;
            };
            (a == g.a) & (b == g.b) & (c == g.c) & index_fits(path.segment_occurrence, g.occurrence)
        }
        Aim::Unnamed { .. } => true,
        Aim::Nothing => false,
    }
}

// The next segment, from segment `from` on, of m, with which an aim has to do.
fn next_segment(
    aim: &Aim,
    segments: &[Segment; SEGMENT_ROWS],
    from: usize,
    m: usize,
) -> Option<usize>
    requires { (from ≤ m) × (m ≤ SEGMENT_ROWS) }
    ensures { NextSegment aim.now segments.now from m result }
{
    for k in from..m {
        if enters(aim, segments[k].label) {
            return Some(k);
        }
    }
    None
}

// The index of the first leaf that may be of the field: each field before it has a leaf at least.
fn start_at(field: u64, first: usize, end: usize) -> usize
    requires { first ≤ end }
    ensures { StartAt field first end result }
{
    let before = field.saturating_sub(1).min((end - first) as u64);
    first + before as usize
}

// Whether a leaf of the segment g has not vanished and may be touched.
fn is_touched(g: Label, leaf: &Leaf) -> bool
    ensures { result ≡ Turns.is_touched (as_label g) leaf.now }
{
    !leaf.gone & touchable(g, leaf.place)
}

// Whether an aim has to do with a leaf of a segment g with which it has to do. A leaf of another field is told at one look.
fn works_on(aim: &Aim, g: Label, named: bool, leaf: &Leaf) -> bool
    ensures { result ≡ works aim.now (as_label g) named leaf.now }
{
    match *aim {
        Aim::Reached { path, .. } => {
            index_fits(path.field, leaf.place.field)
                && is_touched(g, leaf) & reaches_place(path, leaf.place)
        }
        Aim::Unnamed { empty } => is_touched(g, leaf) & !named & (empty | (leaf.len != 0)),
        Aim::Nothing => false,
    }
}

// Whether a leaf has not vanished and stands behind the field, which is 0 for none.
fn is_behind(field: u64, leaf: &Leaf) -> bool
    ensures { result ≡ is_behind field leaf.now }
{
    field < leaf.place.field as u64 && (field != 0) & !leaf.gone
}

// The index of the next leaf of the segment g, from index `from` to index `end`, with which an aim has to do. A leaf of another field is told
// at one look.
fn next_leaf(
    aim: &Aim,
    g: Label,
    named: &[bool; LEAVES_MAX],
    leaves: &[Leaf],
    from: usize,
    end: usize,
) -> Option<usize>
    requires { (from ≤ end) × (end ≤ length leaves.now) × (end ≤ LEAVES_MAX) × Rising leaves.now from end }
    ensures { NextLeaf aim.now (as_label g) named.now leaves.now from end result }
{
    let field = field_of(aim);
    for i in from..end {
        let leaf = &leaves[i];
        if index_fits(field, leaf.place.field) {
            if works_on(aim, g, named[i], leaf) {
                return Some(i);
            }
        } else if is_behind(field, leaf) {
            return None;
        }
    }
    None
}

// A turn on a leaf with which it has to do.
fn visit(
    job: &Job,
    at: Spot,
    text: &[u8],
    named: &mut [bool; LEAVES_MAX],
    leaves: &mut [Leaf],
    store: &mut [u8; 98304],
    report: &mut [u8],
    bytes: &mut [u8; 65536],
    known: &mut [Known; LEARNT_MAX],
    counters: &mut Counters,
) -> Result<(), Refusal>
    requires { JobHeld text.now job.now × Visitable text.now job.now at (buffers named.old leaves.old store.old report.old bytes.old known.old) counters.old }
    ensures { Visit (pass_by text.now job.now) (by_node job.now.turn) job.now.on at text.now (buffers named.old leaves.old store.old report.old bytes.old known.old) counters.old (buffers named.new leaves.new store.new report.new bytes.new known.new) (after_step counters.new result) }
{
    let on = job.on;
    let turn = job.turn;
    match turn {
        Turn::Apply(rule) => {
            mark(named, at.index);
            apply_leaf(
                on, at, rule, text, leaves, store, report, bytes, known, counters,
            )
        }
        Turn::Collapse(rule) => collapse_leaf(
            on, at, rule, text, leaves, store, report, bytes, known, counters,
        ),
        Turn::Reject(a) => act_on(on, at, a, text, leaves, store, report, bytes, counters),
        Turn::Sweep => sweep_leaf(on, at, text, leaves, store, report, bytes, known, counters),
        Turn::Idle => Ok(()),
    }
}

// A turn on the leaves of a segment: those from index at.index on.
fn pass_leaves(
    job: &Job,
    at: Spot,
    text: &[u8],
    named: &mut [bool; LEAVES_MAX],
    leaves: &mut [Leaf],
    store: &mut [u8; 98304],
    report: &mut [u8],
    bytes: &mut [u8; 65536],
    known: &mut [Known; LEARNT_MAX],
    counters: &mut Counters,
) -> Result<(), Refusal>
    requires { JobHeld text.now job.now × Passable job.now at leaves.old × Ahead text.now job.now at.index (buffers named.old leaves.old store.old report.old bytes.old known.old) counters.old }
    ensures { LeavesPassed (pass_by text.now job.now) (by_node job.now.turn) job.now.on at text.now (buffers named.old leaves.old store.old report.old bytes.old known.old) counters.old (buffers named.new leaves.new store.new report.new bytes.new known.new) (after_step counters.new result) }
{
    let start = start_at(field_of(&job.aim), at.index, at.end);
    let mut next = next_leaf(&job.aim, at.label, named, leaves, start, at.end);
    while let Some(i) = next {
        let spot = Spot { index: i, ..at };
        visit(
            job, spot, text, named, leaves, store, report, bytes, known, counters,
        )?;
        next = next_leaf(&job.aim, at.label, named, leaves, i + 1, at.end);
    }
    Ok(())
}

// Where the first leaf of segment k stands.
fn spot_of(segments: &[Segment; SEGMENT_ROWS], k: usize) -> Spot
    requires { k + 1 < SEGMENT_ROWS }
    ensures { SpotIs segments.now k result }
{
    Spot {
        label: segments[k].label,
        end: segments[k + 1].first,
        index: segments[k].first,
    }
}

// A turn on all segments.
pub fn take_turn(
    job: Job,
    text: &[u8],
    segments: &[Segment; SEGMENT_ROWS],
    named: &mut [bool; LEAVES_MAX],
    leaves: &mut [Leaf],
    store: &mut [u8; 98304],
    report: &mut [u8],
    bytes: &mut [u8; 65536],
    known: &mut [Known; LEARNT_MAX],
    counters: &mut Counters,
) -> Result<(), Refusal>
    requires { JobHeld text.now job × Segmented segments.now job.on.segments job.on.leaves × AllOrdered segments.now leaves.old job.on.segments × Ahead text.now job 0 (buffers named.old leaves.old store.old report.old bytes.old known.old) counters.old }
    ensures { TurnTaken (pass_by text.now job) job.on segments.now text.now (buffers named.old leaves.old store.old report.old bytes.old known.old) counters.old (buffers named.new leaves.new store.new report.new bytes.new known.new) (after_step counters.new result) }
{
    let mut next = next_segment(&job.aim, segments, 0, job.on.segments);
    while let Some(k) = next {
        pass_leaves(
            &job,
            spot_of(segments, k),
            text,
            named,
            leaves,
            store,
            report,
            bytes,
            known,
            counters,
        )?;
        next = next_segment(&job.aim, segments, k + 1, job.on.segments);
    }
    Ok(())
}
