// Policies, and how they are read.
ghost use Rattle.std.specs.Prelude.{◌≡◌, ◌≤◌, length};
ghost use Rattle.text.specs.Text.{between};
ghost use Rattle.policy_model.specs.Policy as M;
ghost use Rattle.policy.specs.Policy.{PolicyIs};
ghost use Rattle.policy.specs.Reading.{Starts, LineTaken, LinesRead};
ghost use Rattle.refusal.specs.Limits.{INPUT_MAX};

use super::line::{LineRead, Unrecognised, read_line};
use super::rule_list::RuleList;
use er7_redact::policy::Posture;
use refusal::input::{Input, no_foreign};
use refusal::limits::INPUT_MAX;
use refusal::{Refusal, Refused};
use text::bytes::{Class, run_end};

// The rules in their order, and the three defaults. Names and replacements stand in the policy's text.
#[derive(Clone, Copy)]
pub struct Policy {
    pub rules: RuleList,
    pub posture: Posture,
    pub unrecognised: Unrecognised,
    pub sweep: bool,
}

impl Policy {
    // A policy that says nothing.
    fn start() -> Policy
        ensures { Starts result }
    {
        Policy {
            rules: RuleList::none(),
            posture: Posture::Accept,
            unrecognised: Unrecognised::Refuse,
            sweep: true,
        }
    }

    // Takes in the line from index i to index e; a later directive replaces an earlier one.
    fn take_line(&mut self, text: &[u8], i: usize, e: usize) -> Result<(), Refusal>
        requires { (i ≤ e) × (e ≤ length text.now) }
        ensures { LineTaken text.now (M.read_line (between text.now i e)) self.old self.new result }
    {
        match read_line(text, i, e)? {
            LineRead::Nothing => {}
            LineRead::Rule(rule) => self.rules.push(rule)?,
            LineRead::Posture(posture) => self.posture = posture,
            LineRead::Unrecognised(unrecognised) => self.unrecognised = unrecognised,
            LineRead::Sweep(sweep) => self.sweep = sweep,
        }
        Ok(())
    }
}

// Reads the lines of a text from the first on.
fn read_lines(text: &[u8]) -> Result<Policy, Refused>
    requires { length text.now ≤ INPUT_MAX }
    ensures { LinesRead text.now result }
{
    let mut policy = Policy::start();
    let mut line = 1;
    let mut i = 0;
    // No iterator gives the index where a line begins, and the names in its rule are found by it.
    while i < text.len() {
        let e = run_end(text, i, Class::AllBut(b'\n'));
        policy
            .take_line(text, i, e)
            .map_err(|refusal| Refused { refusal, line })?;
        i = e + 1;
        line += 1;
    }
    Ok(policy)
}

// Reads a policy.
pub fn parse(text: &[u8]) -> Result<Policy, Refused>
    ensures { PolicyIs text.now result }
{
    if INPUT_MAX < text.len() {
        return Err(Refusal::TooLong.into());
    }
    if !no_foreign(Input::Policy, text) {
        return Err(Refusal::ForeignByte.into());
    }
    read_lines(text)
}
