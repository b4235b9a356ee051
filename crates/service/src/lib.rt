// The service desk's programs: the audit of a dump, and the dump of what requests leave. What matters is in the
// crates audits and dumps.
#![tactic(auto)]

use audits::{Verdict, audit};
use dumps::{LONGEST, dump};
use std::io;
use stream::{AREA_WORDS, OUT, PAGES, read_full, take_input};

// A byte more than the longest dump has shows that this one is longer, and the rest is not read.
const ENOUGH: usize = LONGEST + 1;

// The line of a verdict. Where it cannot be written a part of it may have been.
pub fn say(rt: &impl Print, verdict: Verdict) -> io::Result<()> {
    println!(rt; "{verdict}")
}

// The audit program: a dump from standard input, one line to standard output. Where the dump cannot be read there is no line, and where
// the line cannot be written a part of it may have been.
pub fn audit_input(rt: &(impl Input + Print)) -> io::Result<()> {
    let mut bytes = [0u8; ENOUGH];
    let mut reader = rt.reader();
    let n = read_full(&mut reader, &mut bytes)?;
    say(rt, audit(&bytes[..n]))
}

// The dump program: requests from standard input, and to standard output the dump of the tables that they leave. Where the requests
// cannot be read nothing is written, and where the dump cannot be written a part of it may have been.
pub fn dump_input(rt: &(impl Input + Print)) -> io::Result<()> {
    let mut areas = [0u64; AREA_WORDS];
    let mut pages = [0u32; PAGES];
    let end = take_input(rt, &mut areas, &mut pages, false)?;
    write_dump(rt, &areas, &pages, end.count)
}

// Writes the dump of tables that are not refused. Where that fails a part of it may have been written.
fn write_dump(rt: &impl Print, areas: &[u64], pages: &[u32], count: usize) -> io::Result<()> {
    let mut out = [0u8; OUT];
    match dump(areas, pages, count, &mut out) {
        Ok(written) => rt.write_all(&out[..written]),
        Err(_) => Ok(()),
    }
}
