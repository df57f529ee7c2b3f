// Decimal numbers: printing and reading.
ghost use Rattle.std.specs.Prelude.{◌≡◌, ◌+◌, ◌≤◌, ◌<◌, length};
ghost use Rattle.text.specs.Text.{Wrote};
ghost use Rattle.text.specs.Number.{decimal, take_number, TakenAt};
ghost use Rattle.text.specs.Inner.{leading};

use super::bytes::{Class, is_in};

// A digit as a byte.
pub fn digit(n: u64) -> u8
    requires { n < 10 }
    ensures { result ≡ 48 + n }
{
    b'0' + n as u8
}

// Writes n to buf from index at on, and returns the index behind it.
pub fn decimal_at(buf: &mut [u8], at: usize, n: u64) -> usize
    requires { at + length (decimal n) ≤ length buf.old }
    ensures { Wrote buf.old at (decimal n) buf.new result }
{
    if n < 10 {
        buf[at] = digit(n);
        return at + 1;
    }
    let k = decimal_at(buf, at, n / 10);
    buf[k] = digit(n % 10);
    k + 1
}

// How many digits n has.
pub fn decimal_len(n: u64) -> usize
    ensures { (result ≡ length (decimal n)) × (result ≤ 20) }
{
    match n.checked_ilog10() {
        Some(k) => k as usize + 1,
        None => 1,
    }
}

// What the digits at the front of s are worth, with how many they are, if 64 bits hold it.
fn leading(s: &[u8]) -> Option<(u64, usize)>
    ensures { result ≡ leading s.now }
{
    let mut n: u64 = 0;
    for (j, b) in s.iter().enumerate() {
        if !is_in(Class::Digit, *b) {
            return Some((n, j));
        }
        n = n.checked_mul(10)?.checked_add((*b - b'0') as u64)?;
    }
    Some((n, s.len()))
}

// Reads the digits from index i on, at least one, as a u64; gives the index behind them too.
pub fn number_at(s: &[u8], i: usize) -> Option<(u64, usize)>
    requires { i ≤ length s.now }
    ensures { TakenAt take_number s.now i result }
{
    let (n, len) = leading(&s[i..])?;
    if len == 0 {
        return None;
    }
    Some((n, i + len))
}
