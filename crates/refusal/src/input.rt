// What a caller hands over, and the bytes that each may hold.
ghost use Rattle.std.specs.Prelude.{◌≡◌, ◌+◌, ◌≤◌, ◌<◌, length, drop, get_or};
ghost use Rattle.refusal.specs.Refusal.{is_plain, begins_in_lf, is_allowed, no_foreign};

// A message, a policy or a payload.
#[derive(Clone, Copy)]
pub enum Input {
    Message,
    Policy,
    Payload,
}

// Whether b may stand in each of them.
#[tactic(auto, unfolding(crate::specs::Refusal::is_plain))]
fn is_plain(b: u8) -> bool
    ensures { result ≡ is_plain b }
{
    matches!(b, b'\t' | b' '..=b'~')
}

// Whether an LF stands in text at index i. With `<` in the place of `!=`, no_foreign takes seventeen times as long for a policy.
#[tactic(auto, using(crate::proofs::Foreign::lf_end, crate::proofs::Foreign::lf_here))]
fn is_lf_at(text: &[u8], i: usize) -> bool
    requires { i ≤ length text.now }
    ensures { result ≡ begins_in_lf (drop i text.now) }
{
    i != text.len() && text[i] == b'\n'
}

// Whether the byte at index i may stand there.
#[tactic(auto, unfolding(crate::specs::Refusal::is_allowed))]
fn is_allowed_at(input: Input, text: &[u8], i: usize) -> bool
    requires { i < length text.now }
    ensures { result ≡ is_allowed input (get_or text.now i 0) (drop (i + 1) text.now) }
{
    let b = text[i];
    match input {
        Input::Message => is_plain(b) | (b == b'\r'),
        Input::Policy => is_plain(b) | (b == b'\n') | ((b == b'\r') & is_lf_at(text, i + 1)),
        Input::Payload => is_plain(b) | (b == b'\r') | (b == b'\n'),
    }
}

// Whether each byte may stand where it does. All are looked at, without a branch, which is faster.
pub fn no_foreign(input: Input, text: &[u8]) -> bool
    ensures { result ≡ no_foreign input text.now }
{
    let mut fine = true;
    for i in 0..text.len() {
        fine &= is_allowed_at(input, text, i);
    }
    fine
}
