// striplog on a message of 32,769 bytes, whose first 32,768 are a message.
#![tactic(auto)]

use std::io;

fn main(rt: HostRuntime) -> io::Result<()> {
    striplog_run::files::run(&rt)
}
