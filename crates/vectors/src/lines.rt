// Lines of fields parted by tabs.
ghost use Rattle.std.specs.Prelude.{◌≤◌, ◌<◌, length, IfSome};

use super::parts::{Page, front};

// Field k, from 0, of a line; an empty one if it has fewer.
pub fn field(line: &[u8], k: usize) -> &[u8]
    ensures { length result.now ≤ length line.now }
{
    line.split(|b| *b == b'\t').nth(k).unwrap_or(&[])
}

// How many fields a line has.
pub fn field_count(line: &[u8]) -> usize {
    line.split(|b| *b == b'\t').count()
}

// The byte that `\` and b stand for.
fn unescaped(b: u8) -> u8 {
    match b {
        b't' => b'\t',
        b'n' => b'\n',
        b'r' => b'\r',
        b'0' => 0,
        b'u' => 0x1F,
        b'd' => 0x7F,
        b'h' => 0x80,
        _ => b,
    }
}

// The number of a hexadecimal digit in lower case, 0 for any other byte.
fn digit(b: u8) -> u8
    ensures { result < 16 }
{
    match b {
        b'0'..=b'9' => b - b'0',
        b'a'..=b'f' => b - b'a' + 10,
        _ => 0,
    }
}

// The byte that s begins with, as itself, as `\x` and two digits, or as `\` and one byte; and what stands behind it.
fn first(s: &[u8]) -> Option<(u8, &[u8])>
    ensures { IfSome result (λ p. length p.1.now < length s.now) }
{
    match s {
        [b'\\', b'x', high, low, rest @ ..] => Some((digit(*high) * 16 + digit(*low), rest)),
        [b'\\', b'x', ..] | [b'\\'] | [] => None,
        [b'\\', b, rest @ ..] => Some((unescaped(*b), rest)),
        [b, rest @ ..] => Some((*b, rest)),
    }
}

// Writes s to the front of out with its escapes read, as far as it fits, and returns the length.
fn unescape(s: &[u8], out: &mut Page) -> usize {
    let mut rest = s;
    for n in 0..out.len() {
        let Some((byte, behind)) = first(rest) else {
            return n;
        };
        out[n] = byte;
        rest = behind;
    }
    out.len()
}

// Puts field k of the line, with its escapes read, at the front of out, and returns it.
pub fn input<'a>(line: &[u8], k: usize, out: &'a mut Page) -> &'a [u8] {
    let n = unescape(field(line, k), out);
    front(out, n)
}
