// One leaf: its mark, its new text, and its row.
ghost use Rattle.std.specs.Prelude.{◌+◌, ◌≤◌, ◌<◌, ◌^◌, length};
ghost use Rattle.er7_redact.specs.Action.{as_action, ActionHeld};
ghost use Rattle.run_model.specs.Redact.{row};
ghost use Rattle.run_model.specs.Redact as Redact;
ghost use Rattle.er7_table.specs.Table.{place_at, as_label};
ghost use Rattle.redact_5_act.specs.State.{after_step};
ghost use Rattle.redact_4_leaf.specs.State.{text_in, Ready, Countable, ChangePut, Marked, ActedOn};
ghost use Rattle.refusal.specs.Limits.{INPUT_MAX};

use er7::message::Label;
use er7_redact::action::Action;
use er7_render::store::set_text;
use er7_table::table::Leaf;
use redact_5_act::act::act;
use redact_5_act::state::{Counters, Setting};
use redact_6_row::report::row_at;
use refusal::Refusal;

// Where a leaf stands: in a segment with that label, whose leaves end before index end, at that index.
#[derive(Clone, Copy)]
pub struct Spot {
    pub label: Label,
    pub end: usize,
    pub index: usize,
}

// Names leaf i.
pub fn mark(named: &mut [bool], i: usize)
    requires { i < length named.old }
    ensures { Marked named.old i named.new }
{
    named[i] = true;
}

// The leaf has its new text of came bytes behind the last one in the store, and went bytes of the message go: its row of the table and its row of the report.
#[tactic(auto, unfolding(er7_table::specs::Table::place_at))]
pub fn put_change(
    at: Spot,
    a: Action,
    text: &[u8],
    went: usize,
    came: usize,
    leaves: &mut [Leaf],
    report: &mut [u8],
    counters: &mut Counters,
)
    requires { ActionHeld text.now a × (at.index < length leaves.old) × Countable came counters.old × (length text.now ≤ INPUT_MAX) }
    ensures { ChangePut (row (as_label at.label) (place_at leaves.old at.index) (as_action text.now a)) at.index went came leaves.old report.old counters.old leaves.new report.new counters.new }
{
    let c = *counters;
    let i = at.index;
    let p = leaves[i].place;
    set_text(leaves, i, c.used, came);
    *counters = Counters {
        rows: c.rows + 1,
        report_len: row_at(report, c.report_len, at.label, p, a, text),
        size: c.size.saturating_sub(went) + came,
        used: c.used + came,
        ..c
    };
}

// The action a on a leaf: its new text, and its row.
pub fn act_on(
    on: Setting,
    at: Spot,
    a: Action,
    text: &[u8],
    leaves: &mut [Leaf],
    store: &mut [u8; 98304],
    report: &mut [u8],
    bytes: &mut [u8; 65536],
    counters: &mut Counters,
) -> Result<(), Refusal>
    requires { ActionHeld text.now a × Ready leaves.old store.old on.leaves at.index counters.old × (length text.now ≤ INPUT_MAX) }
    ensures { ActedOn (Redact.act on.key on.separators (as_action text.now a) (text_in leaves.old store.old at.index)) (row (as_label at.label) (place_at leaves.old at.index) (as_action text.now a)) on.leaves at.index leaves.old store.old report.old bytes.old counters.old leaves.new store.new report.new bytes.new (after_step counters.new result) }
{
    let Leaf { start, len, .. } = leaves[at.index];
    if let Some(came) = act(on, a, text, start, len, store, bytes, *counters)? {
        put_change(at, a, text, len, came, leaves, report, counters);
    }
    Ok(())
}
