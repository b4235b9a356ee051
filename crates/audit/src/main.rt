// The audit program (document 02, W1): a dump from standard input, one line to standard output.
#![tactic(auto)]

use std::io;

fn main(rt: HostRuntime) -> io::Result<()> {
    service::audit_input(&rt)
}
