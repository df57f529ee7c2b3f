// Runs the cases of data/vectors.txt and data/sample.txt and prints, for each group, how many came out right.
#![tactic(auto)]

mod actions;
mod cases;
mod groups;
mod lines;
mod messages;
mod parts;
mod paths;
mod policies;
mod sample;
mod values;

use groups::{Tally, no_cases};
use reading::read_full;
use std::fs::File;
use std::io;
use std::rt::Files;

// Puts the file's bytes into buf, and returns them; none if it is missing.
fn load<'a, R: Files>(rt: &R, name: &str, buf: &'a mut [u8]) -> &'a [u8] {
    let Ok(mut file) = File::open(rt, name) else {
        return &[];
    };
    let n = read_full(&mut file, buf);
    &buf[..n]
}

// Runs the cases of a file.
fn run_file<R: Files>(rt: &R, name: &str, tally: &mut Tally) {
    let mut buf = [0u8; 262144];
    cases::run(load(rt, name, &mut buf), tally);
}

fn main(rt: HostRuntime) -> io::Result<()> {
    let mut tally = no_cases();
    run_file(&rt, "vectors.txt", &mut tally);
    run_file(&rt, "sample.txt", &mut tally);
    tally.print(&mut io::writer(&rt))
}
