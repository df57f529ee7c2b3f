// Visits to a leaf that may be touched and that has not vanished.
ghost use Rattle.std.specs.Prelude.{◌≡◌, Bool, true, false, List, ◌≤◌, length};
ghost use Rattle.er7_redact.specs.Action.{ActionHeld};
ghost use Rattle.er7_redact.specs.Policy.{as_rule};
ghost use Rattle.run_model.specs.Redact.{reach, each_leaf, covers, for_sweep, is_unnamed};
ghost use Rattle.er7_table.specs.Table.{place_at, as_label};
ghost use Rattle.redact_5_act.specs.State.{after_step};
ghost use Rattle.redact_4_leaf.specs.State.{buffers, marked, KnownHeld, Ready, Marked};
ghost use Rattle.redact_4_leaf.specs.Visit.{rule_pass, unnamed_pass, Visit};
ghost use Rattle.refusal.specs.Limits.{INPUT_MAX, LEAVES_MAX};

use super::leaf::{Spot, act_on};
use super::learn::learn_at;
use er7_redact::action::is_keep;
use er7_redact::policy::Rule;
use er7_table::table::Leaf;
use redact_5_act::known::{Known, for_sweep};
use redact_5_act::state::{Counters, Setting};
use refusal::Refusal;
use refusal::limits::LEARNT_MAX;

// A rule that acts on each leaf, on a leaf that it covers and that is named by now: unless it is kept, it is learnt and acted on.
pub fn apply_leaf(
    on: Setting,
    at: Spot,
    rule: Rule,
    text: &[u8],
    leaves: &mut [Leaf],
    store: &mut [u8; 98304],
    report: &mut [u8],
    bytes: &mut [u8; 65536],
    known: &mut [Known; LEARNT_MAX],
    counters: &mut Counters,
) -> Result<(), Refusal>
    requires { ActionHeld text.now rule.action × (reach (as_rule text.now rule) ≡ each_leaf) × (covers (as_rule text.now rule) (as_label at.label) (place_at leaves.old at.index) ≡ true) × Ready leaves.old store.old on.leaves at.index counters.old × KnownHeld text.now bytes.old known.old counters.old × (length text.now ≤ INPUT_MAX) × (on.leaves ≤ LEAVES_MAX) }
    ensures { (named named' : List Bool) → Marked named at.index named' → Visit (λ ks. rule_pass on.key on.separators (as_rule text.now rule)) false on at text.now (buffers named leaves.old store.old report.old bytes.old known.old) counters.old (buffers named' leaves.new store.new report.new bytes.new known.new) (after_step counters.new result) }
{
    let a = rule.action;
    if is_keep(a) {
        return Ok(());
    }
    learn_at(on, a, at.index, leaves, store, bytes, known, counters)?;
    act_on(on, at, a, text, leaves, store, report, bytes, counters)
}

// The sweep on a leaf that is not named: the action of the longest learnt value that is a whole word of it.
pub fn sweep_leaf(
    on: Setting,
    at: Spot,
    text: &[u8],
    leaves: &mut [Leaf],
    store: &mut [u8; 98304],
    report: &mut [u8],
    bytes: &mut [u8; 65536],
    known: &[Known; LEARNT_MAX],
    counters: &mut Counters,
) -> Result<(), Refusal>
    requires { KnownHeld text.now bytes.old known.now counters.old × Ready leaves.old store.old on.leaves at.index counters.old × (length text.now ≤ INPUT_MAX) × (on.leaves ≤ LEAVES_MAX) }
    ensures { (named : List Bool) → is_unnamed (as_label at.label) (place_at leaves.old at.index) (marked named at.index) ≡ true → Visit (λ ks. unnamed_pass on.key on.separators (for_sweep on.separators ks)) false on at text.now (buffers named leaves.old store.old report.old bytes.old known.now) counters.old (buffers named leaves.new store.new report.new bytes.new known.now) (after_step counters.new result) }
{
    let c = *counters;
    let Some(k) = for_sweep(
        on.separators,
        leaves[at.index].text(store),
        bytes,
        known,
        c.known,
        c.known_used,
    ) else {
        return Ok(());
    };
    act_on(
        on,
        at,
        known[k].action,
        text,
        leaves,
        store,
        report,
        bytes,
        counters,
    )
}
