// The call `map`. Both tables and the count are lent; the tables are tested before anything else, and the answers are document
// 01's numbers in 01's order.
#![tactic(auto)]

ghost use Rattle.std.specs.Prelude.{◌≡◌, IfOk};
ghost use Rattle.area.specs.Answer.{number_of};
ghost use Rattle.rules.specs.Change.{changed_outcome, map_first_answer, map_rule};

use area::{Area, Refusal};
use area_list::{Areas, capacity};
use changes::{blocked, find_gap};
use page_table::entry::FLAGS;
use page_table::{Backend, PAGE};
use page_writes::write;
use questions::range_answer;
use slots::{number, splice};

// What the tests of map before the one for room answer, and the list that may be read where none applies.
#[tactic(auto, using(rules::proofs::Changing::map_exits))]
fn map_answer<'a>(
    areas: &'a [u64],
    pages: &[u32],
    count: usize,
    start: u64,
    size: u64,
    flags: u32,
    backend: Backend,
    replace: bool,
) -> Result<Areas<'a>, Refusal>
    ensures answer { number_of result ≡ map_first_answer areas.now pages.now count start size flags backend replace }
    ensures list { IfOk result (λ list. (list.words.now ≡ areas.now) × (list.count ≡ count)) }
{
    let list = range_answer(areas, pages, count, start, size)?;
    if size == 0 {
        return Err(Refusal::InvalidParam);
    }
    if FLAGS < flags {
        return Err(Refusal::InvalidParam);
    }
    let end = start + size;
    if blocked(list, start, end, replace) {
        return Err(Refusal::AlreadyExists);
    }
    if !backend.fits((start / PAGE) as usize, (end / PAGE) as usize) {
        return Err(Refusal::BadState);
    }
    Ok(list)
}

// Adds a mapping. One that replaces first removes all mappings in its range; neighbours are never joined.
pub fn map(
    areas: &mut [u64],
    pages: &mut [u32],
    count: usize,
    start: u64,
    size: u64,
    flags: u32,
    backend: Backend,
    replace: bool,
) -> Result<usize, Refusal>
    ensures { changed_outcome count result areas.new pages.new ≡ map_rule areas.old pages.old count start size flags backend replace }
{
    let list = map_answer(areas, pages, count, start, size, flags, backend, replace)?;
    let end = start + size;
    let area = Area {
        start,
        end,
        flags,
        backend,
    };
    let gap = find_gap(list, start, end);
    let parts = [gap.left, Some(area), gap.right];
    let grown = gap.low + number(&parts) + (count - gap.high);
    if capacity(areas.len()) < grown {
        return Err(Refusal::NoRoom);
    }
    let first = (start / PAGE) as usize;
    let past = (end / PAGE) as usize;
    write(pages, first, past, flags, backend);
    Ok(splice(areas, count, gap.low, gap.high, &parts))
}
