// Document 01's record program: requests from standard input, a line for each to standard output, and at the end the areas.
#![tactic(auto)]

use std::io;

fn main(rt: HostRuntime) -> io::Result<()> {
    stream::record(&rt)
}
