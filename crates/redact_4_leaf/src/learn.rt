// A leaf's value is learnt.
ghost use Rattle.std.specs.Prelude.{[], ◌∷◌};
ghost use Rattle.text.specs.Text.{Text};
ghost use Rattle.er7_redact.specs.Action.{as_action, ActionHeld};
ghost use Rattle.run_model.specs.Redact.{learning};
ghost use Rattle.redact_5_act.specs.State.{after_step};
ghost use Rattle.redact_4_leaf.specs.State.{text_in, KnownHeld, Learning, Readable};

use er7_redact::action::Action;
use er7_table::table::Leaf;
use redact_5_act::known::{Known, learn_leaf};
use redact_5_act::state::{Counters, Setting};
use refusal::Refusal;
use refusal::limits::LEARNT_MAX;

// Learns what leaf i says, with the action a, if there is to be a sweep.
pub fn learn_at(
    on: Setting,
    a: Action,
    i: usize,
    leaves: &[Leaf],
    store: &[u8; 98304],
    bytes: &mut [u8; 65536],
    known: &mut [Known; LEARNT_MAX],
    counters: &mut Counters,
) -> Result<(), Refusal>
    requires { Readable leaves.now bytes.old known.old i counters.old }
    ensures { (text : Text) → ActionHeld text a → KnownHeld text bytes.old known.old counters.old → Learning (learning on.separators (as_action text a) (text_in leaves.now store.now i ∷ [])) on.sweep text bytes.old known.old counters.old bytes.new known.new (after_step counters.new result) }
{
    if !on.sweep {
        return Ok(());
    }
    let c = *counters;
    let (count, used) = learn_leaf(
        a,
        on.separators,
        leaves[i].text(store),
        bytes,
        known,
        c.known,
        c.known_used,
    )?;
    *counters = Counters {
        known: count,
        known_used: used,
        ..c
    };
    Ok(())
}
