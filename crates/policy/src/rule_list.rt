// The rules of a policy, in an array that has room for as many as a policy may have.
ghost use Rattle.std.specs.Prelude.{◌≡◌, [], ◌≤◌, length};
ghost use Rattle.policy.specs.RuleList.{Pushed};
ghost use Rattle.refusal.specs.Limits.{RULES_MAX};

use er7::path::Path;
use er7_redact::action::Action;
use er7_redact::policy::Rule;
use refusal::Refusal;
use refusal::limits::RULES_MAX;
use std::marker::Model;

// Rules in their order: the first `count` of the array. Behind them stand rules that do nothing, so that the list alone gives the array back.
#[derive(Clone, Copy)]
pub struct RuleList {
    held: [Rule; RULES_MAX],
    count: usize,
}

impl Model for RuleList {
    ghost use Rattle.std.specs.Prelude.{◌≡◌, List, ◌++◌, ◌-◌, ◌≤◌, length, take, drop, replicate};
    ghost use Rattle.std.proofs.Common.{refl, arith, length-take, take-append-drop};
    ghost use Rattle.er7_redact.specs.declared.policy.Rule.{Rule as HeldRule};
    ghost use Rattle.refusal.specs.Limits.{RULES_MAX};
    ghost use Rattle.policy.specs.RuleList.{no_rule};

    ghost Value = { List HeldRule };

    ghost view = { λ r. take r.count r.held };

    ghost invariant = { λ r. (r.count ≤ RULES_MAX) × (length r.held ≡ RULES_MAX) × (drop r.count r.held ≡ replicate (RULES_MAX - r.count) no_rule) };

    ghost inverse = { λ d. record { held = d ++ replicate (RULES_MAX - length d) no_rule; count = length d } };

    ghost inverse_ok = { λ a h. let n : length (take a.count a.held) ≡ a.count = simp length-take (omega (arith, h.0, h.1)) in rw (n, ← h.2, take-append-drop) refl };
}

// A rule that does nothing, for the places behind the last rule.
const NO_RULE: Rule = Rule {
    path: Path {
        segment: 0,
        segment_len: 0,
        segment_occurrence: 0,
        field: 0,
        repetition: 0,
        component: 0,
        subcomponent: 0,
    },
    action: Action::Keep,
};

impl RuleList {
    // No rules.
    pub fn none() -> RuleList
        ensures { result ≡ [] }
    {
        RuleList {
            held: [NO_RULE; RULES_MAX],
            count: 0,
        }
    }

    // The rules in their order.
    pub fn as_slice(&self) -> &[Rule]
        ensures value { result.now ≡ self.now }
        ensures few { length result.now ≤ RULES_MAX }
    {
        &self.held[..self.count]
    }

    // How many rules there are.
    pub fn len(&self) -> usize
        ensures value { result ≡ length self.now }
        ensures few { result ≤ RULES_MAX }
    {
        self.as_slice().len()
    }

    // Puts a rule behind the others, if there is a place left.
    pub fn push(&mut self, rule: Rule) -> Result<(), Refusal>
        ensures { Pushed self.old rule self.new result }
    {
        if self.count < RULES_MAX {
            self.held[self.count] = rule;
            self.count += 1;
            return Ok(());
        }
        Err(Refusal::TooMany)
    }
}
