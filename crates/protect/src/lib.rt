// The call `protect`. Both tables and the count are lent; the tables are tested before anything else, and the answers are document
// 01's numbers in 01's order.
#![tactic(auto)]

ghost use Rattle.std.specs.Prelude.{◌≡◌, IfOk};
ghost use Rattle.area.specs.Answer.{number_of};
ghost use Rattle.rules.specs.Change.{changed_outcome, protect_first_answer, protect_rule};

use area::Refusal;
use area_list::{Areas, capacity};
use flags::{FlagChange, reflag_areas};
use page_table::entry::FLAGS;
use protection::{GoodAreas, extra_areas, protect_list};
use questions::range_answer;

// What the tests of protect before the one for room answer, and the list as range_answer gives it.
#[tactic(auto, using(rules::proofs::Changing::protect_exits))]
fn protect_answer<'a>(
    areas: &'a [u64],
    pages: &[u32],
    count: usize,
    start: u64,
    size: u64,
    set: u32,
    clear: u32,
) -> Result<Areas<'a>, Refusal>
    ensures answer { number_of result ≡ protect_first_answer areas.now pages.now count start size set clear }
    ensures list { IfOk result (λ list. (list.words.now ≡ areas.now) × (list.count ≡ count)) }
{
    let list = range_answer(areas, pages, count, start, size)?;
    if FLAGS < set {
        return Err(Refusal::InvalidParam);
    }
    if FLAGS < clear {
        return Err(Refusal::InvalidParam);
    }
    Ok(list)
}

// Changes the flags of all mappings in a range: without the clear bits, then with the set bits. An area whose flags stay is
// skipped; one that the range cuts is split, and gaps are passed over.
pub fn protect(
    areas: &mut [u64],
    pages: &mut [u32],
    count: usize,
    start: u64,
    size: u64,
    set: u32,
    clear: u32,
) -> Result<usize, Refusal>
    ensures { changed_outcome count result areas.new pages.new ≡ protect_rule areas.old pages.old count start size set clear }
{
    let list = protect_answer(areas, pages, count, start, size, set, clear)?;
    if size == 0 {
        return Ok(count);
    }
    let end = start + size;
    let change = FlagChange { set, clear };
    let more = count + extra_areas(GoodAreas { list }, start, end, change);
    if capacity(areas.len()) < more {
        return Err(Refusal::NoRoom);
    }
    reflag_areas(list, pages, start, end, change);
    Ok(protect_list(areas, count, start, end, change))
}
