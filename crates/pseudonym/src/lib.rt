// Pseudonyms: stable stand-ins for identifiers, by the 64-bit FNV-1a hash of a key and a value.
#![tactic(auto)]

ghost use Rattle.std.specs.Prelude.{◌≡◌, ◌+◌, ◌*◌, ◌%◌, ◌^◌, ◌≤◌, length};
ghost use Rattle.text.specs.Text.{Wrote};
ghost use Rattle.pseudonym.specs.Pseudonym as P;

use text::positional::{eight_bytes_at, hexadecimal_at};

// The hash of no bytes, and the number that every step multiplies by.
pub const OFFSET: u64 = 0xcbf2_9ce4_8422_2325;

pub const PRIME: u64 = 0x0000_0100_0000_01b3;

// The low 64 bits of the product, from the products of halves: that of the low ones, and the sum of the middle ones, shifted by half a word.
pub fn wrapping_mul(a: u64, b: u64) -> u64
    ensures { result ≡ (a * b) % 2 ^ 64 }
{
    let a_low = a % 0x1_0000_0000;
    let a_high = a / 0x1_0000_0000;
    let b_low = b % 0x1_0000_0000;
    let b_high = b / 0x1_0000_0000;
    let middle = (a_high * b_low).wrapping_add(a_low * b_high) % 0x1_0000_0000;
    (a_low * b_low).wrapping_add(middle * 0x1_0000_0000)
}

// One byte more.
#[tactic(auto, unfolding(crate::specs::Pseudonym::step))]
pub fn step(hash: u64, byte: u8) -> u64
    ensures { result ≡ P.step hash byte }
{
    wrapping_mul(hash ^ u64::from(byte), PRIME)
}

// The bytes of s, one after the other.
pub fn fold(hash: u64, s: &[u8]) -> u64
    ensures { result ≡ P.fold hash s.now }
{
    s.iter().fold(hash, |h, b| step(h, *b))
}

// Writes the pseudonym of value under key to out from index at on, and returns the index behind it.
pub fn pseudonym(key: u64, value: &[u8], out: &mut [u8], at: usize) -> usize
    requires { at + 16 ≤ length out.old }
    ensures { Wrote out.old at (P.pseudonym key value.now) out.new result }
{
    let mut bytes = [0u8; 8];
    eight_bytes_at(&mut bytes, 0, key);
    let keyed = fold(OFFSET, &bytes);
    let hash = fold(keyed, value);
    hexadecimal_at(out, at, hash)
}
