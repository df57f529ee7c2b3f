// A policy's lines, and what each says.
ghost use Rattle.std.specs.Prelude.{◌≡◌, ◌||◌, ◌≤◌, length};
ghost use Rattle.text.specs.Text.{bytes, is_word, between};
ghost use Rattle.er7.specs.Path.{read_path};
ghost use Rattle.er7_redact.specs.Action.{read_action};
ghost use Rattle.policy_model.specs.Policy as M;
ghost use Rattle.policy.specs.Line.{as_line_kind, Rejecting, Applying, ActionAt, PathAt, LineAt, TrimmedEnd};

use er7::path;
use er7::path::Path;
use er7_redact::action;
use er7_redact::action::{Action, is_keep, is_null_action};
use er7_redact::policy::{Posture, Rule};
use refusal::Refusal;
use text::bytes::{Class, is_in, is_word, run_to};

// What a payload gets: it passes, is refused, or gets an action.
#[derive(Clone, Copy)]
pub enum Unrecognised {
    Pass,
    Refuse,
    Apply(Action),
}

// What a line says.
#[derive(Clone, Copy)]
pub enum LineRead {
    Nothing,
    Rule(Rule),
    Posture(Posture),
    Unrecognised(Unrecognised),
    Sweep(bool),
}

// What a line's first word picks.
#[derive(Clone, Copy)]
pub enum LineKind {
    Accept,
    Reject,
    Unrecognised,
    KnownValues,
    Star,
    Path,
}

// Whether w is `unrecognised`, in either spelling.
#[tactic(auto, unfolding(text::specs::Text::bytes))]
fn is_unrecognised(w: &[u8]) -> bool
    ensures { result ≡ is_word w.now (bytes "unrecognised") || is_word w.now (bytes "unrecognized") }
{
    is_word(w, b"unrecognised") | is_word(w, b"unrecognized")
}

// What a line's first word picks.
#[tactic(auto, unfolding(text::specs::Text::bytes, policy_model::specs::Policy::line_kind, crate::specs::Line::as_line_kind))]
fn line_kind(w: &[u8]) -> LineKind
    ensures { as_line_kind result ≡ M.line_kind w.now }
{
    if is_word(w, b"accept") {
        return LineKind::Accept;
    }
    if is_word(w, b"reject") {
        return LineKind::Reject;
    }
    if is_unrecognised(w) {
        return LineKind::Unrecognised;
    }
    if is_word(w, b"known-values") {
        return LineKind::KnownValues;
    }
    if is_word(w, b"*") {
        return LineKind::Star;
    }
    LineKind::Path
}

// The posture of `reject` with the action a.
#[tactic(auto, unfolding(er7_redact::specs::Policy::as_posture, policy_model::specs::Policy::rejecting))]
fn rejecting(a: Action) -> Posture
    ensures { Rejecting a result }
{
    if is_keep(a) {
        return Posture::Accept;
    }
    Posture::Reject(a)
}

// What `unrecognised` with the action a does.
#[tactic(auto, unfolding(crate::specs::Line::as_unrecognised, policy_model::specs::Policy::applying))]
fn applying(a: Action) -> Unrecognised
    ensures { Applying a result }
{
    if is_keep(a) | is_null_action(a) {
        return Unrecognised::Pass;
    }
    Unrecognised::Apply(a)
}

// The action that stands in text from index i to index e, with no blanks around it.
fn parse_action(text: &[u8], i: usize, e: usize) -> Result<Action, Refusal>
    requires { (i ≤ e) × (e ≤ length text.now) }
    ensures { ActionAt text.now (read_action (between text.now i e)) result }
{
    action::parse(&text[i..e], i)
}

// The path that stands in text from index i to index e.
fn path_at(text: &[u8], i: usize, e: usize) -> Option<Path>
    requires { (i ≤ e) × (e ≤ length text.now) }
    ensures { PathAt text.now (read_path (between text.now i e)) result }
{
    path::parse(&text[i..e], i)
}

// `accept` with what stands from index i to index e.
fn read_accept(text: &[u8], i: usize, e: usize) -> Result<LineRead, Refusal>
    requires { (i ≤ e) × (e ≤ length text.now) }
    ensures { LineAt text.now (M.read_accept (between text.now i e)) result }
{
    if i == e {
        return Ok(LineRead::Posture(Posture::Accept));
    }
    Err(Refusal::BadDirective)
}

// `reject` with what stands from index i to index e.
fn read_reject(text: &[u8], i: usize, e: usize) -> Result<LineRead, Refusal>
    requires { (i ≤ e) × (e ≤ length text.now) }
    ensures { LineAt text.now (M.read_reject (between text.now i e)) result }
{
    if i == e {
        return Ok(LineRead::Posture(Posture::Reject(Action::Replace { start: 0, len: 0 })));
    }
    let a = parse_action(text, i, e)?;
    Ok(LineRead::Posture(rejecting(a)))
}

// `unrecognised` with what stands from index i to index e.
fn read_unrecognised(text: &[u8], i: usize, e: usize) -> Result<LineRead, Refusal>
    requires { (i ≤ e) × (e ≤ length text.now) }
    ensures { LineAt text.now (M.read_unrecognised (between text.now i e)) result }
{
    if i == e {
        return Err(Refusal::BadDirective);
    }
    if is_word(&text[i..e], b"refuse") {
        return Ok(LineRead::Unrecognised(Unrecognised::Refuse));
    }
    if is_word(&text[i..e], b"pass") {
        return Ok(LineRead::Unrecognised(Unrecognised::Pass));
    }
    let a = parse_action(text, i, e)?;
    Ok(LineRead::Unrecognised(applying(a)))
}

// `known-values` with what stands from index i to index e.
#[tactic(auto, unfolding(text::specs::Text::bytes, text::specs::Text::between, policy_model::specs::Policy::read_known_values, crate::specs::Line::as_line_read, crate::specs::Line::as_line))]
fn read_known_values(text: &[u8], i: usize, e: usize) -> Result<LineRead, Refusal>
    requires { (i ≤ e) × (e ≤ length text.now) }
    ensures { LineAt text.now (M.read_known_values (between text.now i e)) result }
{
    if is_word(&text[i..e], b"on") {
        return Ok(LineRead::Sweep(true));
    }
    if is_word(&text[i..e], b"off") {
        return Ok(LineRead::Sweep(false));
    }
    Err(Refusal::BadDirective)
}

// A rule: its path stands from index i to index m, its action, which is judged first, from index k to index e.
fn read_rule(text: &[u8], i: usize, m: usize, k: usize, e: usize) -> Result<LineRead, Refusal>
    requires { (i ≤ m) × (m ≤ k) × (k ≤ e) × (e ≤ length text.now) }
    ensures { LineAt text.now (M.read_rule (between text.now i m) (between text.now k e)) result }
{
    let action = parse_action(text, k, e)?;
    let path = path_at(text, i, m).ok_or(Refusal::BadPath)?;
    Ok(LineRead::Rule(Rule { path, action }))
}

// A line whose first word, from index i to index m, picks the head, and whose rest stands from index k to index e.
#[tactic(auto, unfolding(policy_model::specs::Policy::read_directive, crate::specs::Line::as_line_kind, crate::specs::Line::as_line_read))]
fn read_directive(
    kind: LineKind,
    text: &[u8],
    i: usize,
    m: usize,
    k: usize,
    e: usize,
) -> Result<LineRead, Refusal>
    requires { (i ≤ m) × (m ≤ k) × (k ≤ e) × (e ≤ length text.now) }
    ensures { LineAt text.now (M.read_directive (as_line_kind kind) (between text.now i m) (between text.now k e)) result }
{
    match kind {
        LineKind::Accept => read_accept(text, k, e),
        LineKind::Reject => read_reject(text, k, e),
        LineKind::Unrecognised => read_unrecognised(text, k, e),
        LineKind::KnownValues => read_known_values(text, k, e),
        LineKind::Star => Err(Refusal::BadDirective),
        LineKind::Path => read_rule(text, i, m, k, e),
    }
}

// The same, unless the first word or the rest is too long.
fn judged(text: &[u8], i: usize, m: usize, k: usize, e: usize) -> Result<LineRead, Refusal>
    requires { (i ≤ m) × (m ≤ k) × (k ≤ e) × (e ≤ length text.now) }
    ensures { LineAt text.now (M.judged (between text.now i m) (between text.now k e)) result }
{
    if (64 < m - i) | (80 < e - k) {
        return Err(Refusal::TooMany);
    }
    read_directive(line_kind(&text[i..m]), text, i, m, k, e)
}

// What the text from index i to index e says, which has no comment and no blanks around it.
fn read_words(text: &[u8], i: usize, e: usize) -> Result<LineRead, Refusal>
    requires { (i ≤ e) × (e ≤ length text.now) }
    ensures { LineAt text.now (M.read_words (between text.now i e)) result }
{
    if i == e {
        return Ok(LineRead::Nothing);
    }
    let m = run_to(text, i, e, Class::NotBlank);
    let k = run_to(text, m, e, Class::Blank);
    judged(text, i, m, k, e)
}

// Where the text from index i to index e ends without the blanks at its end.
fn trimmed_end(text: &[u8], i: usize, e: usize) -> usize
    requires { (i ≤ e) × (e ≤ length text.now) }
    ensures { TrimmedEnd text.now i e result }
{
    for j in (i..e).rev() {
        if !is_in(Class::Blank, text[j]) {
            return j + 1;
        }
    }
    i
}

// What the line from index i to index e says; a CR before its LF is no part of it.
pub fn read_line(text: &[u8], i: usize, e: usize) -> Result<LineRead, Refusal>
    requires { (i ≤ e) × (e ≤ length text.now) }
    ensures { LineAt text.now (M.read_line (between text.now i e)) result }
{
    let end = run_to(text, i, e, Class::AllBut(b'\r'));
    if 255 < end - i {
        return Err(Refusal::TooMany);
    }
    let hash = run_to(text, i, end, Class::AllBut(b'#'));
    let start = run_to(text, i, hash, Class::Blank);
    let stop = trimmed_end(text, start, hash);
    read_words(text, start, stop)
}
