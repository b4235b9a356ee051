// Standard input to standard output, block by block in constant memory. No contract can say what the input is or what was written, so
// what matters is in the crate records; here is shown that no block is ever refused, and that what a reader gave is what was run, also
// where a read or a write fails.
#![tactic(auto)]

ghost use Rattle.std.specs.Prelude.{ℕ, ◌<◌, [], length, IfNone, IfOk, MatchOption, OnErr};
ghost use Rattle.std.specs.Io.KnownBytes.{IsAtEnd};
ghost use Rattle.rules.specs.Change.{tables};
ghost use Rattle.records.specs.Feed.{session};
ghost use Rattle.stream.specs.Reading.{stands, Runs, RunsSome, Comes, ComesToEnd, Fills};

mod progress;

use area_list::WORDS;
pub use progress::Progress;
use records::{feed, finish};
use requests::RECORD;
use std::io;
use std::io::Read;

// Bytes read at once. The lines of so many fit an output block.
const BLOCK: usize = 32768;
// Bytes of an output block, which also holds the longest dump.
pub const OUT: usize = 65536;
// The tables of the record program: 256 areas and 4,096 pages.
pub const AREA_WORDS: usize = 256 * WORDS;

pub const PAGES: usize = 4096;

// Reads a block and runs its records, or finds the input at its end, and then nothing changes. The lines are written if they are asked
// for. It fails only where the block cannot be read, and then nothing changes, or where its lines cannot be written, and then its
// records were run.
fn take_block<R: Read>(
    rt: &impl Print,
    reader: &mut R,
    areas: &mut [u64],
    pages: &mut [u32],
    bytes: &mut [u8; RECORD],
    at: Progress,
    lines: bool,
) -> io::Result<Option<Progress>>
    ensures ok { IfOk result (λ next. MatchOption next
        (Runs (R.remaining reader.old) (R.remaining reader.new)
        (stands areas.old pages.old at bytes.old) (stands areas.new pages.new at bytes.new))
        (λ now. RunsSome (R.remaining reader.old) (R.remaining reader.new)
        (stands areas.old pages.old at bytes.old) (stands areas.new pages.new now bytes.new))) }
    ensures end { IfOk result (λ next. IfNone next (IsAtEnd (R.remaining reader.new))) }
    ensures err { OnErr result ((now : Progress) × Runs (R.remaining reader.old) (R.remaining reader.new)
        (stands areas.old pages.old at bytes.old) (stands areas.new pages.new now bytes.new)) }
{
    let mut input = [0u8; BLOCK];
    let n = reader.read(&mut input)?;
    if n == 0 {
        return Ok(None);
    }
    let block = &input[..n];
    let mut out = [0u8; OUT];
    // A block's lines always find room, so it is not refused.
    let fed = feed(areas, pages, at.count, bytes, at.filled, block, &mut out).unwrap();
    tell(rt, lines, &out[..fed.written])?;
    Ok(Some(Progress {
        count: fed.count,
        filled: fed.filled,
    }))
}

// Writes the lines if they are asked for. Where that fails a part of them may have been written.
fn tell(rt: &impl Print, lines: bool, out: &[u8]) -> io::Result<()> {
    if lines {
        return rt.write_all(out);
    }
    Ok(())
}

// Runs the records of a reader to its end, or fails where a block cannot be read or its lines cannot be written. The tables then are
// what the blocks before it left, and where only its lines failed its own records too. A loop that is proved has to end, and nothing
// says that input does, so it counts its blocks up to a number that no run comes to.
fn take_all<R: Read>(
    rt: &impl Print,
    reader: &mut R,
    areas: &mut [u64],
    pages: &mut [u32],
    lines: bool,
) -> io::Result<Progress>
    ensures ok { IfOk result (λ at. ComesToEnd (R.remaining reader.old) (R.remaining reader.new)
        (session (tables areas.old pages.old 0) []) (tables areas.new pages.new at.count) at.filled) }
    ensures err { OnErr result ((count : ℕ) × (filled : ℕ) × Comes (R.remaining reader.old) (R.remaining reader.new)
        (session (tables areas.old pages.old 0) []) (tables areas.new pages.new count) filled) }
{
    let mut bytes = [0u8; RECORD];
    let mut at = Progress {
        count: 0,
        filled: 0,
    };
    for _ in 0..u64::MAX {
        match take_block(rt, reader, areas, pages, &mut bytes, at, lines)? {
            Some(next) => at = next,
            None => return Ok(at),
        }
    }
    Ok(at)
}

// Runs the records of standard input, as `take_all` does. Standard input does not say which bytes it has left, so no more is promised
// than that some bytes led to the tables.
pub fn take_input(
    rt: &(impl Input + Print),
    areas: &mut [u64],
    pages: &mut [u32],
    lines: bool,
) -> io::Result<Progress>
    ensures ok { IfOk result (λ at. Comes None None
        (session (tables areas.old pages.old 0) []) (tables areas.new pages.new at.count) at.filled) }
    ensures err { OnErr result ((count : ℕ) × (filled : ℕ) × Comes None None
        (session (tables areas.old pages.old 0) []) (tables areas.new pages.new count) filled) }
{
    let mut reader = rt.reader();
    take_all(rt, &mut reader, areas, pages, lines)
}

// Reads until the buffer is full or the input ends, and answers how many bytes that are. It fails only where a read does. What was
// read before stands at the front of the buffer then, and nothing says how much that is.
pub fn read_full<R: Read>(reader: &mut R, buf: &mut [u8]) -> io::Result<usize>
    ensures ok { IfOk result (λ n. Fills (R.remaining reader.old) (R.remaining reader.new) buf.new n) }
    ensures end { IfOk result (λ n. n < length buf.new → IsAtEnd (R.remaining reader.new)) }
    ensures err { OnErr result ((n : ℕ) × Fills (R.remaining reader.old) (R.remaining reader.new) buf.new n) }
{
    let mut done = 0;
    // No `for` and no chain counts this: each read gives as many bytes as it likes.
    while done < buf.len() {
        let n = reader.read(&mut buf[done..])?;
        if n == 0 {
            break;
        }
        done += n;
    }
    Ok(done)
}

// The record program: a line for each request, and at the end the areas. Input that cannot be read and lines that cannot be
// written end it early with that error, and no areas are listed then, or a part of them where they cannot be written.
pub fn record(rt: &(impl Input + Print)) -> io::Result<()> {
    let mut areas = [0u64; AREA_WORDS];
    let mut pages = [0u32; PAGES];
    let end = take_input(rt, &mut areas, &mut pages, true)?;
    let mut out = [0u8; OUT];
    let written = finish(&areas, &pages, end.count, end.filled, &mut out).unwrap_or(0);
    rt.write_all(&out[..written])
}
