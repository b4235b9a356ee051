// Audits many dumps: standard input has each as its length, four bytes with the lowest first, and then its bytes.
#![tactic(auto)]

ghost use Rattle.std.specs.Prelude.{ℕ, List};
ghost use Rattle.std.specs.Io.KnownBytes.{Consumes};
ghost use Rattle.stream.specs.Reading.{Fills};

use little_endian::read;
use std::io;
use std::io::Read;
use stream::{OUT, read_full};

// Reads a dump that fills the part, and says its verdict, or fails where the one or the other does. What was read stands at the front of
// the part then, and a part of the verdict may have been written.
fn audit_part<R: Read>(rt: &impl Print, reader: &mut R, part: &mut [u8]) -> io::Result<()>
    ensures { (n : ℕ) × Fills (R.remaining reader.old) (R.remaining reader.new) part.new n }
{
    let n = read_full(reader, part)?;
    service::say(rt, audits::audit(&part[..n]))
}

// Reads the next dump and says its verdict; false at the end of the input, or where a dump is longer than the buffer. Where a read
// fails there is no verdict, and the dump is lost; where a write does a part of the verdict may have been written.
fn audit_next<R: Read>(rt: &impl Print, reader: &mut R) -> io::Result<bool>
    ensures { (bytes : List ℕ) × Consumes (R.remaining reader.old) (R.remaining reader.new) bytes }
{
    let mut size = [0u8; 4];
    let n = read_full(reader, &mut size)?;
    if n < 4 {
        return Ok(false);
    }
    let length = read::<u32>(&size, 0) as usize;
    let mut bytes = [0u8; OUT];
    if bytes.len() < length {
        return Ok(false);
    }
    audit_part(rt, reader, &mut bytes[..length])?;
    Ok(true)
}

fn main(rt: HostRuntime) -> io::Result<()> {
    let mut reader = rt.reader();
    // `while audit_next(..)? {}` would say this, but it has no measure: the bytes that are left are not known.
    for _ in 0..u64::MAX {
        if !audit_next(&rt, &mut reader)? {
            break;
        }
    }
    Ok(())
}
