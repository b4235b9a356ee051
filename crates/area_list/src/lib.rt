// The lent area table, a sorted list of areas as words: how the words lie, and the reading of one area. Over it stand three crates
// that know the words too: good_tables tests the tables, positions finds areas, slots puts areas in the place of others. Nothing
// above those names a word.
#![tactic(auto)]

ghost use Rattle.std.specs.Prelude.{◌≡◌, true, ◌+◌, ◌*◌, ◌<◌, ◌≤◌, length, get_or};
ghost use Rattle.area.specs.Area.{nothing};
ghost use Rattle.area_list.specs.Layout.{words_per_area, capacity_of, row_at, area_of, legal_word, backend_of, word_of, LegalRow, Reads, rows};
ghost use Rattle.area_list.specs.Item.{item_at};
ghost use Rattle.area_list.specs.Position.{SortedRows};

use area::Area;
use page_table::Backend;
use page_table::entry::FLAGS;

// Words an area takes.
pub const WORDS: usize = 4;
// Where in an area's words its start and its end lie.
pub const START: usize = 0;

pub const END: usize = 1;
// The most areas that a table may have.
const MAX_AREAS: usize = 256;
// A linear backend's word is this plus its delta.
const LINEAR: u64 = 0x1_0000_0000;

const LINEAR_END: u64 = 2 * LINEAR;

// The words of one area, as they lie: any numbers at all.
#[derive(Clone, Copy)]
pub struct Row {
    pub start: u64,
    pub end: u64,
    pub flags: u64,
    pub backend: u64,
}

// How many areas a table of so many words has room for.
#[tactic(auto, unfolding(crate::specs::Layout::capacity_of))]
pub fn capacity(words: usize) -> usize
    ensures { result ≡ capacity_of words }
{
    (words / WORDS).min(MAX_AREAS)
}

// The words of the area at a slot.
#[tactic(auto, using(crate::proofs::Rows::row_words))]
pub fn row_at(areas: &[u64], slot: usize) -> Row
    requires { words_per_area * slot + words_per_area ≤ length areas.now }
    ensures { result ≡ row_at areas.now slot }
{
    let at = WORDS * slot;
    let start = areas[at];
    let end = areas[at + 1];
    let flags = areas[at + 2];
    let backend = areas[at + 3];
    Row {
        start,
        end,
        flags,
        backend,
    }
}

// Whether a word stands for a backend.
#[tactic(auto, using(crate::proofs::Rows::lazy_legal, crate::proofs::Rows::small_illegal, crate::proofs::Rows::linear_legal))]
pub fn legal_word(word: u64) -> bool
    ensures { result ≡ legal_word word }
{
    word == 0 || (LINEAR..LINEAR_END).contains(&word)
}

// The backend that a legal word stands for. No `From`, as for `Row::area`.
#[tactic(auto, using(crate::proofs::Rows::lazy_backend, crate::proofs::Rows::linear_backend, crate::proofs::Rows::linear_word))]
fn backend_of(word: u64) -> Backend
    requires { legal_word word ≡ true }
    ensures { result ≡ backend_of word }
{
    if word == 0 {
        return Backend::Lazy;
    }
    Backend::Linear((word - LINEAR) as u32)
}

// The word that stands for a backend. No `From`: it would have to stand in page_table, which knows nothing of words; no plainer.
#[tactic(auto, unfolding(crate::specs::Layout::word_of))]
pub fn word_of(backend: Backend) -> u64
    ensures { result ≡ word_of backend }
{
    match backend {
        Backend::Lazy => 0,
        Backend::Linear(delta) => LINEAR + (delta as u64),
    }
}

impl Row {
    // The area that legal words stand for. No `From`: words that are not legal stand for none; `TryFrom`, below, tests them first.
    pub fn area(self) -> Area
        requires { LegalRow self }
        ensures { result ≡ area_of self }
    {
        let backend = backend_of(self.backend);
        Area {
            start: self.start,
            end: self.end,
            flags: self.flags as u32,
            backend,
        }
    }
}

// Words that stand for no area.
#[derive(Clone, Copy)]
pub struct NoArea;

impl TryFrom<Row> for Area {
    type Error = NoArea;

    ghost try_from_gives = { Reads };

    fn try_from(row: Row) -> Result<Area, NoArea> {
        if row.flags > FLAGS as u64 || !legal_word(row.backend) {
            return Err(NoArea);
        }
        Ok(row.area())
    }
}

// A list of areas, read where the caller's words lie: every slot below count has an area, and each starts no earlier than the one
// before it ends.
#[derive(Clone, Copy)]
pub struct Areas<'a> {
    pub words: &'a [u64],
    pub count: usize,
    pub ghost sorted: { SortedRows words.now count },
}

impl<'a> Areas<'a> {
    // The area at a slot.
    #[tactic(auto, using(crate::proofs::Rows::rows_at))]
    pub fn at(self, slot: usize) -> Area
        requires { slot < self.count }
        ensures { result ≡ get_or (rows self.entry.words.now self.entry.count) slot nothing }
    {
        row_at(self.words, slot).area()
    }
}

// The area at a slot, if there is one. Whoever asks need not know that the tables are good: it looks at this slot's words alone.
#[tactic(auto, using(crate::proofs::Items::item_none, crate::proofs::Items::item_reads), unfolding(crate::specs::Layout::capacity_of))]
pub fn item_at(areas: &[u64], count: usize, slot: usize) -> Option<Area>
    ensures { result ≡ item_at areas.now count slot }
{
    if slot >= count || slot >= capacity(areas.len()) {
        return None;
    }
    Area::try_from(row_at(areas, slot)).ok()
}
