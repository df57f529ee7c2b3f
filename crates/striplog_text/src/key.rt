// The key of key.txt, read chunk by chunk: leading zeros are allowed, so a file of any length may hold one.
ghost use Rattle.std.specs.Prelude.{◌≡◌};
ghost use Rattle.striplog_text.specs.Key.{with_digit, behind_digits, fed_byte, fed};

use text::bytes::{Class, is_in};

// What the bytes so far are: none, digits with their worth, such digits and one LF behind them, or no key.
#[derive(Clone, Copy)]
pub enum Key {
    Nothing,
    Digits(u64),
    Ended(u64),
    Bad,
}

// The digit d behind digits worth n.
#[tactic(auto, unfolding(crate::specs::Key::with_digit))]
fn with_digit(n: u64, d: u64) -> Key
    ensures { result ≡ with_digit n d }
{
    match n.checked_mul(10).and_then(|n| n.checked_add(d)) {
        Some(n) => Key::Digits(n),
        None => Key::Bad,
    }
}

// The byte b behind digits worth n.
#[tactic(auto, using(text::proofs::Decimals::digit_low, text::proofs::Decimals::digit_high), unfolding(text::specs::Text::is_in, crate::specs::Key::behind_digits))]
fn behind_digits(n: u64, b: u8) -> Key
    ensures { result ≡ behind_digits n b }
{
    if is_in(Class::Digit, b) {
        return with_digit(n, (b - b'0') as u64);
    }
    if b == b'\n' {
        return Key::Ended(n);
    }
    Key::Bad
}

// The byte b behind the bytes so far.
#[tactic(auto, using(text::proofs::Decimals::digit_low, text::proofs::Decimals::digit_high), unfolding(text::specs::Text::is_in, crate::specs::Key::fed_byte))]
fn feed_byte(key: Key, b: u8) -> Key
    ensures { result ≡ fed_byte key b }
{
    match key {
        Key::Nothing => {
            if is_in(Class::Digit, b) {
                return with_digit(0, (b - b'0') as u64);
            }
            Key::Bad
        }
        Key::Digits(n) => behind_digits(n, b),
        Key::Ended(_) => Key::Bad,
        Key::Bad => Key::Bad,
    }
}

// The bytes of a chunk behind the bytes so far.
pub fn feed(key: Key, chunk: &[u8]) -> Key
    ensures { result ≡ fed key chunk.now }
{
    chunk.iter().fold(key, |key, b| feed_byte(key, *b))
}
