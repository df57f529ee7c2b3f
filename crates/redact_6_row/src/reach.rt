// Which leaves a rule reaches.
ghost use Rattle.std.specs.Prelude.{◌≡◌};
ghost use Rattle.text.specs.Text.{Text};
ghost use Rattle.er7.specs.Path.{as_path};
ghost use Rattle.er7_redact.specs.Policy.{as_rule};
ghost use Rattle.message_model.specs.Message as Message;
ghost use Rattle.run_model.specs.Redact.{fits, reach, each_node, depth};
ghost use Rattle.er7_table.specs.Table.{as_label};
ghost use Rattle.redact_6_row.specs.Reach.{reaches_place, as_reach, starts_at};

use er7::message::{Label, Place};
use er7::path::Path;
use er7_redact::action::is_null_action;
use er7_redact::policy::Rule;
use er7_table::table::is_header_name;

// Where a rule acts: on each leaf, or on each node of a depth.
#[derive(Clone, Copy)]
pub enum Reach {
    EachLeaf,
    EachField,
    EachRepetition,
    EachComponent,
}

// Whether the leaf at p is neither MSH-1 nor MSH-2.
pub fn touchable(g: Label, p: Place) -> bool
    ensures { result ≡ Message.touchable (as_label g) p }
{
    2 < p.field || !is_header_name(g.a, g.b, g.c)
}

// Whether an index of a path, 0 where it is absent, fits the one that was found.
#[tactic(auto, unfolding(run_model::specs::Redact::fits))]
pub fn index_fits(wanted: u64, found: usize) -> bool
    ensures { result ≡ fits wanted found }
{
    wanted == 0 || wanted == found as u64
}

// Whether a path reaches the leaf at p of a segment that it reaches into.
pub fn reaches_place(path: Path, p: Place) -> bool
    ensures { (t : Text) → result ≡ reaches_place (as_path t path) p }
{
    index_fits(path.field, p.field)
        & index_fits(path.repetition, p.repetition)
        & index_fits(path.component, p.component)
        & index_fits(path.subcomponent, p.subcomponent)
}

// The nodes that a path names which stops above the subcomponent.
fn node_of(path: Path) -> Reach
    ensures { (t : Text) → as_reach result ≡ each_node (depth (as_path t path)) }
{
    if path.component != 0 {
        return Reach::EachComponent;
    }
    if path.repetition != 0 {
        return Reach::EachRepetition;
    }
    Reach::EachField
}

// Where a rule acts.
pub fn reach_of(rule: Rule) -> Reach
    ensures { (t : Text) → as_reach result ≡ reach (as_rule t rule) }
{
    let action = rule.action;
    let path = rule.path;
    if is_null_action(action) & (path.subcomponent == 0) {
        return node_of(path);
    }
    Reach::EachLeaf
}

// Whether a node's first leaf stands at p; every leaf is the first of itself.
pub fn starts(reach: Reach, p: Place) -> bool
    ensures { result ≡ starts_at (as_reach reach) p }
{
    match reach {
        Reach::EachLeaf => true,
        Reach::EachField => (p.repetition == 1) & (p.component == 1) & (p.subcomponent == 1),
        Reach::EachRepetition => (p.component == 1) & (p.subcomponent == 1),
        Reach::EachComponent => p.subcomponent == 1,
    }
}
