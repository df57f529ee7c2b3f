// The three files, read, and what is printed, written.
ghost use Rattle.std.specs.Prelude.{◌≤◌, length, IfSome};

use super::strip::strip;
use reading::read_full;
use std::fs::File;
use std::io;
use std::io::{Read, Write};
use std::rt::Files;
use striplog_text::key::{Key, feed};

// Puts the file's bytes into buf, as many as there is room for, and returns them, if the file is there.
fn load<'a, R: Files>(rt: &R, name: &str, buf: &'a mut [u8]) -> Option<&'a [u8]>
    ensures { IfSome result (λ s. length s.now ≤ length buf.old) }
{
    let mut file = File::open(rt, name).ok()?;
    let len = read_full(&mut file, buf);
    Some(&buf[..len])
}

// Reads the key from a file chunk by chunk to its end; no file has 2^63 bytes.
fn read_key<F: Read>(file: &mut F) -> Key {
    let mut chunk = [0u8; 4096];
    let mut key = Key::Nothing;
    for _ in 0..1u64 << 51 {
        let n = read_full(file, &mut chunk);
        key = feed(key, &chunk[..n]);
        if n < chunk.len() {
            break;
        }
    }
    key
}

// Reads the key, if the file is there.
fn load_key<R: Files>(rt: &R, name: &str) -> Key {
    match File::open(rt, name) {
        Ok(mut file) => read_key(&mut file),
        Err(_) => Key::Bad,
    }
}

// Reads `message.er7`, `policy.txt` and `key.txt`, and writes what comes of them. One byte past the limit is read of the first two.
pub fn run<R: Files + Print>(rt: &R) -> io::Result<()> {
    let mut message = [0u8; 32769];
    let mut policy = [0u8; 32769];
    let mut out = [0u8; 114714];
    let message = load(rt, "message.er7", &mut message);
    let policy = load(rt, "policy.txt", &mut policy);
    let key = load_key(rt, "key.txt");
    let n = strip(message, policy, key, &mut out);
    io::writer(rt).write_all(&out[..n])
}
