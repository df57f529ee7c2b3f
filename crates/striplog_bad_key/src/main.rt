// striplog on a key with CR LF behind it.
#![tactic(auto)]

use std::io;

fn main(rt: HostRuntime) -> io::Result<()> {
    striplog_run::files::run(&rt)
}
