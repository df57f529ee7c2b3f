// The turns of a run: "Rules in policy order, each over segments in order; then a rejecting posture over unnamed leaves; then the sweep".
ghost use Rattle.std.specs.Prelude.{◌≡◌, Bool, List, ℕ, Ok};
ghost use Rattle.message_model.specs.Message as Message;
ghost use Rattle.run_model.specs.Redact.{Progress};
ghost use Rattle.policy.specs.Policy.{as_policy, PolicyHeld};
ghost use Rattle.redact_5_act.specs.State.{after_step};
ghost use Rattle.redact_4_leaf.specs.State.{buffers};
ghost use Rattle.redact_2_turn.specs.Turn.{pass_of, TurnHeld};
ghost use Rattle.redact_2_turn.specs.Taken.{TurnTaken};
ghost use Rattle.redact_1_run.specs.Turns.{RuleTurn, PostureTurn, turn_of_sweep, after_tasks, progress_tasks, tasks_of};
ghost use Rattle.redact_1_run.specs.Stage.{Stage, Stands, Begun, Inputs, TurnReady, RoomFor, MadeRoom};

use er7_redact::policy::{Posture, Rule};
use er7_render::store::make_room;
use er7_table::table::{Leaf, SEGMENT_ROWS, Segment};
use policy::policy::Policy;
use redact_2_turn::turn::{Job, Turn, aim_of, take_turn};
use redact_5_act::known::Known;
use redact_5_act::state::{Counters, Setting};
use redact_6_row::reach::{Reach, reach_of};
use refusal::Refusal;
use refusal::limits::{LEARNT_MAX, LEAVES_MAX};

// Which leaves are named, and how far the run has come.
#[derive(Clone, Copy)]
pub struct Run {
    pub named: [bool; LEAVES_MAX],
    pub done: Result<Counters, Refusal>,
}

// The turn of a rule.
fn rule_turn(rule: Rule) -> Turn
    ensures { RuleTurn rule result }
{
    match reach_of(rule) {
        Reach::EachLeaf => Turn::Apply(rule),
        Reach::EachField => Turn::Collapse(rule),
        Reach::EachRepetition => Turn::Collapse(rule),
        Reach::EachComponent => Turn::Collapse(rule),
    }
}

// The turn of a posture: one that accepts has nothing to do.
fn posture_turn(posture: Posture) -> Turn
    ensures { PostureTurn posture result }
{
    match posture {
        Posture::Accept => Turn::Idle,
        Posture::Reject(a) => Turn::Reject(a),
    }
}

// The turn of the sweep, with that many values known: where none is it has nothing to do.
#[tactic(auto, unfolding(crate::specs::Turns::turn_of_sweep))]
fn sweep_turn(known: usize) -> Turn
    ensures { result ≡ turn_of_sweep known }
{
    if known == 0 {
        return Turn::Idle;
    }
    Turn::Sweep
}

// Makes room for a turn: where the store has too little for one, the texts are moved together.
fn with_room(
    n: usize,
    leaves: &mut [Leaf],
    store: &mut [u8; 98304],
    bytes: &mut [u8; 65536],
    counters: &mut Counters,
)
    requires { RoomFor n leaves.old store.old counters.old }
    ensures { MadeRoom n leaves.old store.old bytes.old counters.old leaves.new store.new bytes.new counters.new }
{
    counters.used = make_room(n, leaves, store, bytes, counters.known_used, counters.used);
}

// The next turn.
fn next_turn(
    on: Setting,
    turn: Turn,
    text: &[u8],
    segments: &[Segment; SEGMENT_ROWS],
    named: &mut [bool; LEAVES_MAX],
    leaves: &mut [Leaf],
    store: &mut [u8; 98304],
    report: &mut [u8],
    bytes: &mut [u8; 65536],
    known: &mut [Known; LEARNT_MAX],
    counters: &mut Counters,
) -> Result<(), Refusal>
    requires { TurnHeld text.now turn × Inputs text.now segments.now on × TurnReady text.now segments.now on (buffers named.old leaves.old store.old report.old bytes.old known.old) counters.old }
    ensures { TurnTaken (λ ks. pass_of on.key on.separators text.now ks turn) on segments.now text.now (buffers named.old leaves.old store.old report.old bytes.old known.old) counters.old (buffers named.new leaves.new store.new report.new bytes.new known.new) (after_step counters.new result) }
{
    with_room(on.leaves, leaves, store, bytes, counters);
    let aim = aim_of(turn, text);
    let job = Job { on, turn, aim };
    take_turn(
        job, text, segments, named, leaves, store, report, bytes, known, counters,
    )
}

// All turns of a policy.
fn all_turns(
    on: Setting,
    policy: &Policy,
    text: &[u8],
    segments: &[Segment; SEGMENT_ROWS],
    named: &mut [bool; LEAVES_MAX],
    leaves: &mut [Leaf],
    store: &mut [u8; 98304],
    report: &mut [u8],
    bytes: &mut [u8; 65536],
    known: &mut [Known; LEARNT_MAX],
    counters: &mut Counters,
) -> Result<(), Refusal>
    requires { PolicyHeld text.now policy.now × (on.sweep ≡ policy.now.sweep) × Inputs text.now segments.now on × Begun text.now segments.now on (buffers named.old leaves.old store.old report.old bytes.old known.old) (Ok counters.old) }
    ensures { (x : ℕ) (cr : Bool) (ss : List Message.Segment) (b : Progress) → Stage x cr text.now segments.now on 0 ss b (buffers named.old leaves.old store.old report.old bytes.old known.old) counters.old → Stands x cr text.now segments.now on 130 (after_tasks on.key on.separators (as_policy text.now policy.now) (tasks_of (as_policy text.now policy.now)) ss b) (progress_tasks on.key on.separators (as_policy text.now policy.now) (tasks_of (as_policy text.now policy.now)) ss b) (buffers named.new leaves.new store.new report.new bytes.new known.new) (after_step counters.new result) }
{
    let rules = policy.rules.as_slice();
    for rule in rules {
        let turn = rule_turn(*rule);
        next_turn(
            on, turn, text, segments, named, leaves, store, report, bytes, known, counters,
        )?;
    }
    let judging = posture_turn(policy.posture);
    next_turn(
        on, judging, text, segments, named, leaves, store, report, bytes, known, counters,
    )?;
    let sweeping = sweep_turn(counters.known);
    next_turn(
        on, sweeping, text, segments, named, leaves, store, report, bytes, known, counters,
    )
}

// All turns of a policy, unless the run was refused: then it stays so.
pub fn run_turns(
    run: &mut Run,
    on: Setting,
    policy: &Policy,
    text: &[u8],
    segments: &[Segment; SEGMENT_ROWS],
    leaves: &mut [Leaf],
    store: &mut [u8; 98304],
    report: &mut [u8],
    bytes: &mut [u8; 65536],
    known: &mut [Known; LEARNT_MAX],
)
    requires { PolicyHeld text.now policy.now × (on.sweep ≡ policy.now.sweep) × Inputs text.now segments.now on × Begun text.now segments.now on (buffers run.old.named leaves.old store.old report.old bytes.old known.old) run.old.done }
    ensures { (x : ℕ) (cr : Bool) (ss : List Message.Segment) (b : Progress) → Stands x cr text.now segments.now on 0 ss b (buffers run.old.named leaves.old store.old report.old bytes.old known.old) run.old.done → Stands x cr text.now segments.now on 130 (after_tasks on.key on.separators (as_policy text.now policy.now) (tasks_of (as_policy text.now policy.now)) ss b) (progress_tasks on.key on.separators (as_policy text.now policy.now) (tasks_of (as_policy text.now policy.now)) ss b) (buffers run.new.named leaves.new store.new report.new bytes.new known.new) run.new.done }
{
    let Ok(mut counters) = run.done else {
        return;
    };
    let made = all_turns(
        on,
        policy,
        text,
        segments,
        &mut run.named,
        leaves,
        store,
        report,
        bytes,
        known,
        &mut counters,
    );
    run.done = made.and(Ok(counters));
}
