// An audit for the service desk: whether a dump of both tables is good, and if not, what is the first thing wrong with it.
// How a dump lies is said in the crate dumps.
#![tactic(auto)]

ghost use Rattle.std.specs.Prelude.{◌≡◌, ◌+◌, ◌*◌, ◌≤◌, length, map, Some};
ghost use Rattle.page_table.specs.Limits.{max_pages};
ghost use Rattle.area_list.specs.Layout.{capacity_of};
ghost use Rattle.dumps.specs.Dump.{numbers_at};
ghost use Rattle.audits.specs.Audit.{tables_rule, sized_dump, Lent, audit_rule};
ghost use Rattle.audits.specs.Line.{verdict_line};

use agreement::first_wrong;
use area_list::{Areas, WORDS};
use dumps::{AREAS, ENTRY, HEADER, PAGES, WORD};
use good_tables::first_bad;
use little_endian::{LittleEndian, read};
use std::fmt;

// The words of the most areas.
const AREA_WORDS: usize = AREAS * WORDS;

// What an audit finds. Each is a line of document 02, so none is an error: an audit that finds something wrong has done its work.
#[derive(Clone, Copy, Debug, PartialEq, Eq)]
pub enum Verdict {
    // Count or P is over its limit, or the dump has another length.
    Table,
    // The first area, from 0, that breaks the rule of good tables.
    Area(usize),
    // The lowest page whose entry is not what its area says, or not 0 where no area lies.
    Page(usize),
    // Nothing is wrong.
    Good,
}

impl fmt::Display for Verdict {
    ghost output = { λ verdict. Some (verdict_line verdict) };

    fn fmt<W: fmt::Write>(&self, f: &mut fmt::Formatter<W>) -> fmt::Result {
        match self {
            Verdict::Table => write!(f, "table"),
            Verdict::Area(slot) => write!(f, "area {slot}"),
            Verdict::Page(page) => write!(f, "page {page}"),
            Verdict::Good => write!(f, "good"),
        }
    }
}

// The verdict on tables whose limits are known.
fn audit_tables(areas: &[u64], pages: &[u32], count: usize) -> Verdict
    requires count_bound { count ≤ capacity_of (length areas.now) }
    requires pages_len_bound { length pages.now ≤ max_pages }
    ensures { result ≡ tables_rule areas.now pages.now count }
{
    if let Some(area) = first_bad(areas, count, pages.len()) {
        return Verdict::Area(area);
    }
    let list = Areas {
        words: areas,
        count,
    };
    if let Some(page) = first_wrong(list, pages) {
        return Verdict::Page(page);
    }
    Verdict::Good
}

// Reads as many numbers as there is room for, one after the other. By index: of what `iter_mut` lends no promise says what is left there.
fn read_all<T: LittleEndian>(bytes: &[u8], at: usize, numbers: &mut [T])
    requires { at + T.SIZE * length numbers.old ≤ length bytes.now }
    ensures { map T.number numbers.new ≡ numbers_at bytes.now at T.SIZE (length numbers.old) }
{
    for k in 0..numbers.len() {
        numbers[k] = read(bytes, at + T::SIZE * k);
    }
}

// Whether count and P are within their limits and the dump has the length that they say.
fn sized(bytes: &[u8]) -> bool
    ensures { result ≡ sized_dump bytes.now }
{
    if bytes.len() < HEADER {
        return false;
    }
    let count = read::<u64>(bytes, 0) as usize;
    let pages = read::<u64>(bytes, WORD) as usize;
    if AREAS < count {
        return false;
    }
    if PAGES < pages {
        return false;
    }
    bytes.len() == HEADER + WORD * (WORDS * count) + ENTRY * pages
}

// The verdict on a dump, read into tables that are as long as it says.
fn audit_in(bytes: &[u8], areas: &mut [u64], pages: &mut [u32], count: usize) -> Verdict
    requires { Lent bytes.now areas.old pages.old count }
    ensures { result ≡ audit_rule bytes.now }
{
    read_all(bytes, HEADER, areas);
    read_all(bytes, HEADER + WORD * areas.len(), pages);
    audit_tables(areas, pages, count)
}

// The verdict on a dump.
pub fn audit(bytes: &[u8]) -> Verdict
    ensures { result ≡ audit_rule bytes.now }
{
    if !sized(bytes) {
        return Verdict::Table;
    }
    let count = read::<u64>(bytes, 0) as usize;
    let pages = read::<u64>(bytes, WORD) as usize;
    let words = WORDS * count;
    let mut area_table = [0u64; AREA_WORDS];
    let mut page_table = [0u32; PAGES];
    audit_in(
        bytes,
        &mut area_table[..words],
        &mut page_table[..pages],
        count,
    )
}
