// Parts of answers: texts and numbers, written to a page as far as they fit.
use pseudonym::{OFFSET, fold};
use refusal::Refusal;
use text::bytes::{byte_at, copy_at};
use text::decimal::{decimal_at, decimal_len, number_at};
use text::positional::hexadecimal_at;

// Room for a text.
pub const PAGE: usize = 131072;

pub type Page = [u8; PAGE];

// The number at the front of a, 0 if there is none.
pub fn number(a: &[u8]) -> u64 {
    number_at(a, 0).map_or(0, |(n, _)| n)
}

// The first n bytes of the page, all of it if it has fewer.
pub fn front(page: &Page, n: usize) -> &[u8] {
    &page[..n.min(PAGE)]
}

// The first n bytes of all, to be written; all of it if it has fewer.
pub fn part(all: &mut [u8], n: usize) -> &mut [u8] {
    let end = n.min(all.len());
    &mut all[..end]
}

// Writes a to out from index at on, and returns the index behind it.
pub fn put(a: &[u8], out: &mut [u8], at: usize) -> usize {
    if at <= out.len() && a.len() <= out.len() - at {
        return copy_at(out, at, a);
    }
    at
}

// Writes the byte b, and returns the index behind it.
pub fn put_byte(b: u8, out: &mut Page, at: usize) -> usize {
    if at < PAGE {
        return byte_at(out, at, b);
    }
    at
}

// Writes the number n, and returns the index behind it.
pub fn put_number(n: u64, out: &mut Page, at: usize) -> usize {
    if at <= PAGE && decimal_len(n) <= PAGE - at {
        return decimal_at(out, at, n);
    }
    at
}

// Writes n times a, and returns the index behind it.
fn put_times(a: &[u8], n: u64, out: &mut Page, at: usize) -> usize {
    let mut k = at;
    for _ in 0..n {
        k = put(a, out, k);
    }
    k
}

// Writes a, n times b, and c to the front of out, and returns the index behind them.
pub fn put_repeated(a: &[u8], b: &[u8], n: u64, c: &[u8], out: &mut Page) -> usize {
    let i = put(a, out, 0);
    let j = put_times(b, n, out, i);
    put(c, out, j)
}

// Writes n and the hash of the first n bytes of out in their place, and returns the index behind them.
pub fn sum(n: usize, out: &mut Page) -> usize {
    let hash = fold(OFFSET, front(out, n));
    let i = put_number(n as u64, out, 0);
    let j = put_byte(b' ', out, i);
    put_hash(hash, out, j)
}

// Writes a hash, and returns the index behind it.
pub fn put_hash(hash: u64, out: &mut Page, at: usize) -> usize {
    if at <= PAGE - 16 {
        return hexadecimal_at(out, at, hash);
    }
    at
}

// Writes a refusal's number to the front of out, and returns the index behind it.
pub fn put_refused(why: Refusal, out: &mut Page) -> usize {
    let i = put(b"refused ", out, 0);
    put_number(refusal::number(why) as u64, out, i)
}
