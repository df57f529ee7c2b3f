// striplog on a message of no bytes.
#![tactic(auto)]

use std::io;

fn main(rt: HostRuntime) -> io::Result<()> {
    striplog_run::files::run(&rt)
}
