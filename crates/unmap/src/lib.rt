// The calls `unmap` and `clear`. Both tables and the count are lent; the tables are tested before anything else, and the answers
// are document 01's numbers in 01's order.
#![tactic(auto)]

ghost use Rattle.std.specs.Prelude.{◌≡◌};
ghost use Rattle.rules.specs.Change.{changed_outcome, unmap_rule, clear_rule};

use area::Refusal;
use area_list::capacity;
use changes::find_gap;
use page_table::PAGE;
use questions::{range_answer, tables_answer};
use slots::{number, splice};
use wipes::wipe_areas;

// Removes all mappings in a range. Areas inside it vanish, others lose the part inside, and one that surrounds it becomes two.
pub fn unmap(
    areas: &mut [u64],
    pages: &mut [u32],
    count: usize,
    start: u64,
    size: u64,
) -> Result<usize, Refusal>
    ensures { changed_outcome count result areas.new pages.new ≡ unmap_rule areas.old pages.old count start size }
{
    let list = range_answer(areas, pages, count, start, size)?;
    if size == 0 {
        return Ok(count);
    }
    let end = start + size;
    let gap = find_gap(list, start, end);
    let parts = [gap.left, gap.right];
    let left = gap.low + number(&parts) + (count - gap.high);
    if capacity(areas.len()) < left {
        return Err(Refusal::NoRoom);
    }
    wipe_areas(list, pages, start, end);
    Ok(splice(areas, count, gap.low, gap.high, &parts))
}

// Removes all areas and makes all their pages unmapped.
pub fn clear(areas: &mut [u64], pages: &mut [u32], count: usize) -> Result<usize, Refusal>
    ensures { changed_outcome count result areas.new pages.new ≡ clear_rule areas.old pages.old count }
{
    let list = tables_answer(areas, pages, count)?;
    let space = PAGE * (pages.len() as u64);
    wipe_areas(list, pages, 0, space);
    Ok(splice(areas, count, 0, count, &[]))
}
