// The record program's work, on bytes in lent buffers: a piece of input cut anywhere, the lines of its records, and the areas at the end.
#![tactic(auto)]

ghost use Rattle.std.specs.Prelude.{◌≡◌, ◌+◌, ◌*◌, ◌<◌, ◌≤◌, length, take};
ghost use Rattle.area.specs.Answer.{number_of, reply};
ghost use Rattle.area_list.specs.Layout.{rows};
ghost use Rattle.rules.specs.Change.{tables};
ghost use Rattle.lines.specs.Line.{longest_line, Put};
ghost use Rattle.requests.specs.Request.{record_size};
ghost use Rattle.records.specs.Feed.{session, took, next_filled, takes, room_for, feed_answer, fed_outcome, feed_rule, settled, fed_filled};
ghost use Rattle.records.specs.Feed.{cut_line, listing, finished_outcome, finish_rule};

use area::Refusal;
use area_list::Areas;
use lines::{LONGEST, Line, put_line};
use questions::tables_answer;
use requests::RECORD;
use runs::step;

// What input did: the count and the bytes of a record held afterwards, and where in the output the lines end.
#[derive(Clone, Copy)]
pub struct Fed {
    pub count: usize,
    pub filled: usize,
    pub written: usize,
}

// One byte more: it goes into the record, and a whole record is run.
fn take_byte(
    areas: &mut [u64],
    pages: &mut [u32],
    bytes: &mut [u8; RECORD],
    fed: Fed,
    byte: u8,
    out: &mut [u8],
) -> Fed
    requires filled_lt_record_size { fed.filled < record_size }
    requires longest_line_in_bounds { fed.filled + 1 ≡ record_size → fed.written + longest_line ≤ length out.old }
    requires at_in_bounds { fed.written ≤ length out.old }
    ensures bytes_after { session (tables areas.new pages.new result.count) (take result.filled bytes.new)
        ≡ (took (session (tables areas.old pages.old fed.count) (take fed.filled bytes.old)) byte).session }
    ensures put { Put out.old fed.written (took (session (tables areas.old pages.old fed.count) (take fed.filled bytes.old)) byte).said
        out.new result.written }
    ensures filled_value { result.filled ≡ next_filled fed.filled }
{
    bytes[fed.filled] = byte;
    let filled = fed.filled + 1;
    if filled < RECORD {
        return Fed { filled, ..fed };
    }
    let stepped = step(areas, pages, fed.count, bytes);
    Fed {
        count: stepped.count,
        filled: 0,
        written: put_line(out, fed.written, stepped.line),
    }
}

// All bytes of a piece of input, one after the other.
fn take_bytes(
    areas: &mut [u64],
    pages: &mut [u32],
    count: usize,
    bytes: &mut [u8; RECORD],
    filled: usize,
    input: &[u8],
    out: &mut [u8],
) -> Fed
    requires filled_lt_record_size { filled < record_size }
    requires input_in_bounds { room_for (filled + length input.now) ≤ length out.old }
    ensures bytes_after { session (tables areas.new pages.new result.count) (take result.filled bytes.new)
        ≡ (takes (session (tables areas.old pages.old count) (take filled bytes.old)) input.now).session }
    ensures put { Put out.old 0 (takes (session (tables areas.old pages.old count) (take filled bytes.old)) input.now).said
        out.new result.written }
    ensures part_held { result.filled < record_size }
{
    let mut fed = Fed {
        count,
        filled,
        written: 0,
    };
    for byte in input {
        fed = take_byte(areas, pages, bytes, fed, *byte, out);
    }
    fed
}

// What a piece of input is answered, where what is held lies in 32 bytes.
fn feed_answer(filled: usize, input: &[u8], out: &[u8]) -> Result<(), Refusal>
    ensures { number_of result ≡ feed_answer record_size filled (length input.now) (length out.now) }
{
    if RECORD <= filled {
        return Err(Refusal::InvalidParam);
    }
    if out.len() < LONGEST * ((filled + input.len()) / RECORD) {
        return Err(Refusal::NoRoom);
    }
    Ok(())
}

// Takes a piece of input, cut anywhere: whole records are run, and their lines go to the start of the output; what is left of
// a record is held in the first bytes of the 32 lent, as many as are filled. All of the piece is taken, or a refusal takes
// nothing: 3 where what is held is no part of a record, 6 where the output has fewer than 41 bytes for each record that becomes
// whole. The bytes of a record are lent with their number beside them, since they are the caller's from one piece to the next.
pub fn feed(
    areas: &mut [u64],
    pages: &mut [u32],
    count: usize,
    bytes: &mut [u8],
    filled: usize,
    input: &[u8],
    out: &mut [u8],
) -> Result<Fed, Refusal>
    ensures bytes_after { let fed = fed_outcome count filled result in
        reply fed.answer (session (tables areas.new pages.new fed.value.count) (take fed.value.filled bytes.new))
        ≡ settled (feed_rule (tables areas.old pages.old count) bytes.old filled input.now (length out.old)) }
    ensures put { Put out.old 0 (feed_rule (tables areas.old pages.old count) bytes.old filled input.now (length out.old)).value.said
        out.new (fed_outcome count filled result).value.written }
    ensures filled_value { (fed_outcome count filled result).value.filled
        ≡ fed_filled filled (feed_rule (tables areas.old pages.old count) bytes.old filled input.now (length out.old)) }
{
    let Some(held) = bytes.as_mut_array::<RECORD>() else {
        return Err(Refusal::InvalidParam);
    };
    feed_answer(filled, input, out)?;
    Ok(take_bytes(areas, pages, count, held, filled, input, out))
}

// `cut`, if bytes of a record are held.
fn put_cut(out: &mut [u8], filled: usize) -> usize
    requires { longest_line ≤ length out.old }
    ensures { Put out.old 0 (cut_line filled) out.new result }
{
    if filled == 0 {
        return 0;
    }
    put_line(out, 0, Line::Cut)
}

// A line for each area, in order.
fn put_areas(areas: Areas<'_>, out: &mut [u8], at: usize) -> usize
    requires { at + longest_line * areas.count ≤ length out.old }
    ensures { Put out.old at (listing (rows areas.entry.words.now areas.entry.count)) out.new result }
{
    let mut place = at;
    for slot in 0..areas.count {
        let area = areas.at(slot);
        place = put_line(out, place, Line::Area(area.start, area.end, area.flags));
    }
    place
}

// The end of the input: `cut` if bytes of a record are held, then a line for each area, at the start of the output, and how many
// bytes that are. A refusal writes nothing: 1 where the tables are not good, 6 where the output has fewer than 41 bytes for each
// area and for `cut`.
pub fn finish(
    areas: &[u64],
    pages: &[u32],
    count: usize,
    filled: usize,
    out: &mut [u8],
) -> Result<usize, Refusal>
    ensures answer_value { number_of result ≡ (finish_rule areas.now pages.now count filled (length out.old)).answer }
    ensures put { Put out.old 0 (finish_rule areas.now pages.now count filled (length out.old)).value
        out.new (finished_outcome result).value }
{
    let list = tables_answer(areas, pages, count)?;
    if out.len() < LONGEST * (count + 1) {
        return Err(Refusal::NoRoom);
    }
    let at = put_cut(out, filled);
    Ok(put_areas(list, out, at))
}
