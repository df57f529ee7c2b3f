// A policy's text, as `Display` prints it.
ghost use Rattle.std.specs.Prelude.{◌≡◌, ◌+◌, ◌≤◌, length};
ghost use Rattle.text.specs.Text.{Wrote};
ghost use Rattle.er7.specs.Path.{print_path};
ghost use Rattle.er7_redact.specs.Policy.{as_rule, as_posture};
ghost use Rattle.policy_model.specs.Policy as M;
ghost use Rattle.policy.specs.Line.{as_unrecognised, RuleHeld, PostureHeld, UnrecognisedHeld};
ghost use Rattle.policy.specs.Policy.{as_rules, PolicyHeld};
ghost use Rattle.policy_print.specs.Display.{with_lf, rule_text, rules_text, blank_line, unrecognised_line, sweep_line};

use er7::path;
use er7_redact::action;
use er7_redact::policy::{Posture, Rule};
use policy::line::Unrecognised;
use policy::policy::Policy;
use text::bytes::{byte_at, copy_at, fill_at};

// The length of the longest printed path.
pub fn width(policy: &Policy, text: &[u8]) -> usize
    requires { PolicyHeld text.now policy.now }
    ensures { result ≡ M.width (as_rules text.now policy.now.rules) }
{
    let mut w = 0;
    for rule in policy.rules.as_slice() {
        let len = path::printed_len(rule.path, text);
        w = w.max(len);
    }
    w
}

// Writes a rule's line: its path in a column of n bytes, two blanks, its action.
#[tactic(auto, using(text::proofs::Writes::wrote_length, crate::proofs::Parts::rule_length), unfolding(er7_redact::specs::Policy::as_rule))]
fn put_rule(rule: Rule, text: &[u8], n: usize, out: &mut [u8], at: usize) -> usize
    requires { RuleHeld text.now rule × (length (print_path (as_rule text.now rule).path) ≤ n) × (at + length (rule_text n (as_rule text.now rule)) ≤ length out.old) }
    ensures { Wrote out.old at (rule_text n (as_rule text.now rule)) out.new result }
{
    let w = path::print(rule.path, text, out, at);
    let gap = n - (w - at) + 2;
    let k = fill_at(out, w, gap, b' ');
    let e = action::print(rule.action, text, out, k);
    byte_at(out, e, b'\n')
}

// Writes the rules' lines, with paths in a column of n bytes.
#[tactic(auto, using(crate::proofs::Parts::rule_narrow, crate::proofs::Parts::rule_fits))]
pub fn put_rules(policy: &Policy, text: &[u8], n: usize, out: &mut [u8], at: usize) -> usize
    requires { PolicyHeld text.now policy.now × (M.width (as_rules text.now policy.now.rules) ≤ n) × (at + length (rules_text n (as_rules text.now policy.now.rules)) ≤ length out.old) }
    ensures { Wrote out.old at (rules_text n (as_rules text.now policy.now.rules)) out.new result }
{
    let mut k = at;
    for rule in policy.rules.as_slice() {
        k = put_rule(*rule, text, n, out, k);
    }
    k
}

// Writes the empty line behind `count` rules, if there are any.
#[tactic(auto, using(text::proofs::Writes::wrote_none, crate::proofs::Parts::blank_none, crate::proofs::Parts::blank_some))]
pub fn put_blank(count: usize, out: &mut [u8], at: usize) -> usize
    requires { at + length (blank_line count) ≤ length out.old }
    ensures { Wrote out.old at (blank_line count) out.new result }
{
    if count == 0 {
        return at;
    }
    byte_at(out, at, b'\n')
}

// Writes the posture's line.
#[tactic(auto, using(text::proofs::Writes::wrote_length, crate::proofs::Parts::accept_room, crate::proofs::Parts::reject_room))]
pub fn put_posture(posture: Posture, text: &[u8], out: &mut [u8], at: usize) -> usize
    requires { PostureHeld text.now posture × (at + length (with_lf (M.posture_line (as_posture text.now posture))) ≤ length out.old) }
    ensures { Wrote out.old at (with_lf (M.posture_line (as_posture text.now posture))) out.new result }
{
    match posture {
        Posture::Accept => copy_at(out, at, b"accept\n"),
        Posture::Reject(a) => {
            let k = copy_at(out, at, b"reject        ");
            let e = action::print(a, text, out, k);
            byte_at(out, e, b'\n')
        }
    }
}

// Writes the line that says what a payload gets.
#[tactic(auto, using(text::proofs::Writes::wrote_length, crate::proofs::Parts::unrecognised_room, crate::proofs::Parts::apply_room, crate::proofs::Parts::text_room, crate::proofs::Parts::pass_text, crate::proofs::Parts::refuse_text), unfolding(text::specs::Text::bytes))]
pub fn put_unrecognised(u: Unrecognised, text: &[u8], out: &mut [u8], at: usize) -> usize
    requires { UnrecognisedHeld text.now u × (at + length (with_lf (unrecognised_line (as_unrecognised text.now u))) ≤ length out.old) }
    ensures { Wrote out.old at (with_lf (unrecognised_line (as_unrecognised text.now u))) out.new result }
{
    let k = copy_at(out, at, b"unrecognised  ");
    match u {
        Unrecognised::Pass => copy_at(out, k, b"pass\n"),
        Unrecognised::Refuse => copy_at(out, k, b"refuse\n"),
        Unrecognised::Apply(a) => {
            let e = action::print(a, text, out, k);
            byte_at(out, e, b'\n')
        }
    }
}

// Writes the line that says whether the sweep is on.
#[tactic(auto, using(crate::proofs::Parts::on_line, crate::proofs::Parts::off_line), unfolding(text::specs::Text::bytes))]
pub fn put_sweep(sweep: bool, out: &mut [u8], at: usize) -> usize
    requires { at + length (with_lf (sweep_line sweep)) ≤ length out.old }
    ensures { Wrote out.old at (with_lf (sweep_line sweep)) out.new result }
{
    if sweep {
        return copy_at(out, at, b"known-values  on\n");
    }
    copy_at(out, at, b"known-values  off\n")
}
