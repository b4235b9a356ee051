// A dump of the set's own tables, to be sent:
//
//     0       8   16
//    [ count | P | words of the areas | entries of the pages ]
//
// It is bytes; its numbers are little-endian, entries four bytes long and all others eight.
#![tactic(auto)]

ghost use Rattle.std.specs.Prelude.{◌≡◌, ◌+◌, ◌*◌, ◌≤◌, length, map, IfOk};
ghost use Rattle.lists.specs.Over.{over};
ghost use Rattle.area.specs.Answer.{number_of, reply};
ghost use Rattle.area_list.specs.Layout.{words_per_area};
ghost use Rattle.lines.specs.Line.{Writes};
ghost use Rattle.rules.specs.Change.{tables};
ghost use Rattle.little_endian.specs.Number.{bytes_of};
ghost use Rattle.dumps.specs.Dump.{dump_length, all_bytes, dump_of};
ghost use Rattle.dumps.specs.Write.{write_rule};

use area::Refusal;
use area_list::WORDS;
use good_tables::good;
use lines::Out;
use little_endian::LittleEndian;

// The most areas and pages that a dump may have.
pub const AREAS: usize = 256;

pub const PAGES: usize = 4096;
// Bytes of a word and of an entry, and of count and P together.
pub const WORD: usize = u64::SIZE;

pub const ENTRY: usize = u32::SIZE;

pub const HEADER: usize = 2 * WORD;
// Bytes of the longest dump.
pub const LONGEST: usize = HEADER + WORD * (WORDS * AREAS) + ENTRY * PAGES;

// One number. The place moves past it, as in `lines`.
fn put<T: LittleEndian>(out: &mut Out<'_>, value: T)
    requires { out.old.at + T.SIZE ≤ length out.old.bytes.now }
    ensures { Writes out.old (bytes_of T.SIZE (T.number value)) out.new }
{
    let next = out.at + T::SIZE;
    value.put(&mut out.bytes[out.at..next]);
    out.at = next;
}

// Numbers one after the other.
fn put_all<T: LittleEndian>(out: &mut Out<'_>, values: &[T])
    requires { out.old.at + T.SIZE * length values.now ≤ length out.old.bytes.now }
    ensures { Writes out.old (all_bytes T.SIZE (map T.number values.now)) out.new }
{
    for value in values {
        put(out, *value);
    }
}

// The dump, where there is room for all of it.
fn put_dump(areas: &[u64], pages: &[u32], count: usize, out: &mut Out<'_>)
    requires count_in_bounds { words_per_area * count ≤ length areas.now }
    requires pages_in_bounds { out.old.at + dump_length count (length pages.now) ≤ length out.old.bytes.now }
    ensures written { Writes out.old (dump_of (tables areas.now pages.now count)) out.new }
    ensures past { out.new.at ≡ out.old.at + dump_length count (length pages.now) }
{
    let words = WORDS * count;
    put(out, count as u64);
    put(out, pages.len() as u64);
    put_all(out, &areas[..words]);
    put_all(out, pages);
}

// Writes a dump of the tables to the start of a buffer, and answers how many bytes that are. Tables that are not good or too large for
// a dump are refused with BadTables, and a buffer that is too short with NoRoom; nothing is written then.
pub fn dump(areas: &[u64], pages: &[u32], count: usize, out: &mut [u8]) -> Result<usize, Refusal>
    ensures bytes { reply (number_of result) out.new ≡ write_rule (tables areas.now pages.now count) out.old }
    ensures written { IfOk result (λ n. (n ≡ dump_length count (length pages.now)) × (n ≤ length out.old)) }
{
    if !good(areas, count, pages.len()) {
        return Err(Refusal::BadTables);
    }
    if AREAS < count {
        return Err(Refusal::BadTables);
    }
    if PAGES < pages.len() {
        return Err(Refusal::BadTables);
    }
    let written = HEADER + WORD * (WORDS * count) + ENTRY * pages.len();
    if out.len() < written {
        return Err(Refusal::NoRoom);
    }
    let mut out = Out { bytes: out, at: 0 };
    put_dump(areas, pages, count, &mut out);
    Ok(out.at)
}
