// Redacts `message.er7` by `policy.txt` under the key of `key.txt`, and prints text, report and rows.
#![tactic(auto)]

use std::io;

fn main(rt: HostRuntime) -> io::Result<()> {
    striplog_run::files::run(&rt)
}
