// A policy's text printed: of one policy, and of two that are merged.
ghost use Rattle.std.specs.Prelude.{◌+◌, ◌≤◌, length};
ghost use Rattle.text.specs.Text.{Wrote};
ghost use Rattle.er7_redact.specs.Policy.{as_posture};
ghost use Rattle.policy_model.specs.Policy.{read_policy, stricter, merged, print_policy};
ghost use Rattle.policy.specs.Line.{as_unrecognised, PostureHeld, UnrecognisedHeld};
ghost use Rattle.policy.specs.Policy.{as_policy, PolicyHeld};
ghost use Rattle.policy_print.specs.Display.{defaults_text};
ghost use Rattle.policy_print.specs.Print.{PrintedIs, appended};
ghost use Rattle.refusal.specs.Limits.{INPUT_MAX};

use super::display::{put_blank, put_posture, put_rules, put_sweep, put_unrecognised, width};
use er7_redact::policy::Posture;
use policy::line::Unrecognised;
use policy::policy::{Policy, parse};
use refusal::limits::RULES_MAX;
use refusal::{Refusal, Refused};

// Writes the three default lines. What stands in the posture is a part of s, what stands in u a part of t.
#[tactic(auto, using(text::proofs::Writes::wrote_length, crate::proofs::Whole::defaults_length))]
fn put_defaults(
    posture: Posture,
    s: &[u8],
    u: Unrecognised,
    t: &[u8],
    sweep: bool,
    out: &mut [u8],
    at: usize,
) -> usize
    requires { PostureHeld s.now posture × UnrecognisedHeld t.now u × (at + length (defaults_text (as_posture s.now posture) (as_unrecognised t.now u) sweep) ≤ length out.old) }
    ensures { Wrote out.old at (defaults_text (as_posture s.now posture) (as_unrecognised t.now u) sweep) out.new result }
{
    let a = put_posture(posture, s, out, at);
    let b = put_unrecognised(u, t, out, a);
    put_sweep(sweep, out, b)
}

// Writes the policy, whose names and replacements stand in text, to out from index at on, and returns the index behind it.
#[tactic(auto, using(text::proofs::Writes::wrote_length, crate::proofs::Whole::print_length))]
pub fn print(policy: &Policy, text: &[u8], out: &mut [u8], at: usize) -> usize
    requires { PolicyHeld text.now policy.now × (at + length (print_policy (as_policy text.now policy.now)) ≤ length out.old) }
    ensures { Wrote out.old at (print_policy (as_policy text.now policy.now)) out.new result }
{
    let n = width(policy, text);
    let a = put_rules(policy, text, n, out, at);
    let b = put_blank(policy.rules.len(), out, a);
    put_defaults(
        policy.posture,
        text,
        policy.unrecognised,
        text,
        policy.sweep,
        out,
        b,
    )
}

// Writes the default lines of two policies that are merged: the second posture if it rejects.
fn put_merged(
    p: Posture,
    s: &[u8],
    q: Posture,
    u: Unrecognised,
    t: &[u8],
    sweep: bool,
    out: &mut [u8],
    at: usize,
) -> usize
    requires { PostureHeld s.now p × PostureHeld t.now q × UnrecognisedHeld t.now u × (at + length (defaults_text (stricter (as_posture s.now p) (as_posture t.now q)) (as_unrecognised t.now u) sweep) ≤ length out.old) }
    ensures { Wrote out.old at (defaults_text (stricter (as_posture s.now p) (as_posture t.now q)) (as_unrecognised t.now u) sweep) out.new result }
{
    match q {
        Posture::Accept => put_defaults(p, s, u, t, sweep, out, at),
        Posture::Reject(_) => put_defaults(q, t, u, t, sweep, out, at),
    }
}

// Writes the merged policy of p, which stands in s, and q, which stands in t, to out from index at on.
#[tactic(auto, using(text::proofs::Writes::wrote_length, crate::proofs::Whole::merged_length))]
fn print_merged(p: &Policy, s: &[u8], q: &Policy, t: &[u8], out: &mut [u8], at: usize) -> usize
    requires { PolicyHeld s.now p.now × PolicyHeld t.now q.now × (at + length (print_policy (merged (as_policy s.now p.now) (as_policy t.now q.now))) ≤ length out.old) }
    ensures { Wrote out.old at (print_policy (merged (as_policy s.now p.now) (as_policy t.now q.now))) out.new result }
{
    let n = width(p, s).max(width(q, t));
    let a = put_rules(p, s, n, out, at);
    let b = put_rules(q, t, n, out, a);
    let k = put_blank(p.rules.len() + q.rules.len(), out, b);
    let first = p.posture;
    let second = q.posture;
    let u = q.unrecognised;
    put_merged(first, s, second, u, t, p.sweep | q.sweep, out, k)
}

// Reads a policy and prints it to the front of out.
pub fn print_text(text: &[u8], out: &mut [u8]) -> Result<usize, Refused>
    requires { INPUT_MAX ≤ length out.old }
    ensures { PrintedIs (read_policy text.now) out.old out.new result }
{
    let policy = parse(text)?;
    Ok(print(&policy, text, out, 0))
}

// Reads two policies and prints them merged to the front of out, unless they have too many rules together.
pub fn append(s: &[u8], t: &[u8], out: &mut [u8]) -> Result<usize, Refused>
    requires { INPUT_MAX ≤ length out.old }
    ensures { PrintedIs (appended (read_policy s.now) (read_policy t.now)) out.old out.new result }
{
    let p = parse(s)?;
    let q = parse(t)?;
    if RULES_MAX < p.rules.len() + q.rules.len() {
        return Err(Refusal::TooMany.into());
    }
    Ok(print_merged(&p, s, &q, t, out, 0))
}
