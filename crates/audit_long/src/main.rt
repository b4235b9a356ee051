// The audit program on the longest dump with a byte more.
#![tactic(auto)]

use std::io;

fn main(rt: HostRuntime) -> io::Result<()> {
    service::audit_input(&rt)
}
