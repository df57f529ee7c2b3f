// striplog on a policy whose second line has a path that cannot be read.
#![tactic(auto)]

use std::io;

fn main(rt: HostRuntime) -> io::Result<()> {
    striplog_run::files::run(&rt)
}
