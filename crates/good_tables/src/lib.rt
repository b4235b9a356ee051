// Whether the lent tables are good: the test that every call makes first, in one pass over the words of the areas.
#![tactic(auto)]

ghost use Rattle.std.specs.Prelude.{◌≡◌, ◌≤◌, length};
ghost use Rattle.page_table.specs.Limits.{max_pages};
ghost use Rattle.area_list.specs.Layout.{capacity_of};
ghost use Rattle.lists.specs.Found.{found_below};
ghost use Rattle.area_list.specs.Good.{space_of, good_row, first_bad, good_tables};

use area::Area;
use area_list::{Row, capacity, row_at};
use page_table::{MAX_PAGES, PAGE};

// Whether these words may follow an area that ended at before, in good tables with this space.
#[tactic(auto, using(area_list::proofs::Goodness::early_row, area_list::proofs::Goodness::illegal_row, area_list::proofs::Goodness::legal_decides))]
fn good_after(row: Row, space: u64, before: u64) -> bool
    ensures { result ≡ good_row space before row }
{
    row.start >= before && Area::try_from(row).is_ok_and(|area| area.good_in(space))
}

// The first slot whose area breaks the rule of good tables: the words of all areas are looked at once, in order.
pub fn first_bad(areas: &[u64], count: usize, pages: usize) -> Option<usize>
    requires pages_le_max_pages { pages ≤ max_pages }
    requires count_bound { count ≤ capacity_of (length areas.now) }
    ensures { result ≡ found_below count (first_bad (space_of pages) 0 areas.now count) }
{
    let space = PAGE * (pages as u64);
    let mut before = 0;
    for slot in 0..count {
        let row = row_at(areas, slot);
        if !good_after(row, space, before) {
            return Some(slot);
        }
        before = row.end;
    }
    None
}

// Whether the tables are good.
#[tactic(auto, using(area_list::proofs::Goodness::not_tables))]
pub fn good(areas: &[u64], count: usize, pages: usize) -> bool
    ensures { result ≡ good_tables areas.now count pages }
{
    if pages > MAX_PAGES || count > capacity(areas.len()) {
        return false;
    }
    first_bad(areas, count, pages).is_none()
}
