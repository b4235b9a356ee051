// Runs requests as the record program does, and writes the dump of the tables that they leave.
#![tactic(auto)]

use std::io;

fn main(rt: HostRuntime) -> io::Result<()> {
    service::dump_input(&rt)
}
