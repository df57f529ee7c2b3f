// Numbers digit by digit, the highest first: in hexadecimal, and as bytes.
ghost use Rattle.std.specs.Prelude.{◌≡◌, ℕ, ◌+◌, ◌≤◌, ◌<◌, length};
ghost use Rattle.text.specs.Text.{Wrote};
ghost use Rattle.text.specs.Number.{positional, hex_digit, hexadecimal, eight_bytes};

use super::bytes::copy_at;

// A digit as a byte, in lower case.
fn hex_digit(n: u64) -> u8
    requires { n < 16 }
    ensures { result ≡ hex_digit n }
{
    if n < 10 {
        return 48 + n as u8;
    }
    87 + n as u8
}

// Fills out with as many digits of n in the base as it has bytes, the highest first, each as `digit` gives it.
pub fn put_digits<F: Fn(u64) -> u8>(out: &mut [u8], base: u64, n: u64, digit: F)
    requires { (0 < base) × ((d : ℕ) → d < base → F.pre digit d) }
    ensures { (f : ℕ → ℕ) → ((d r : ℕ) → d < base → F.post digit d r → r ≡ f d) → out.new ≡ positional base f (length out.old) n }
{
    let mut m = n;
    for i in (0..out.len()).rev() {
        out[i] = digit(m % base);
        m = m / base;
    }
}

// Writes the 16 digits of n to buf from index at on, and returns the index behind them.
pub fn hexadecimal_at(buf: &mut [u8], at: usize, n: u64) -> usize
    requires { at + 16 ≤ length buf.old }
    ensures { Wrote buf.old at (hexadecimal n) buf.new result }
{
    let end = at + 16;
    put_digits(&mut buf[at..end], 16, n, hex_digit);
    end
}

// Writes the eight bytes of n to buf from index at on, and returns the index behind them.
pub fn eight_bytes_at(buf: &mut [u8], at: usize, n: u64) -> usize
    requires { at + 8 ≤ length buf.old }
    ensures { Wrote buf.old at (eight_bytes n) buf.new result }
{
    copy_at(buf, at, &n.to_be_bytes())
}
