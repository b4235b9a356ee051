// Whether the page table agrees with the areas: the lowest page whose entry is not what its area says, or not 0 where no area lies.
#![tactic(auto)]

ghost use Rattle.std.specs.Prelude.{◌≡◌, ℕ, true, ◌≤◌, length};
ghost use Rattle.lists.specs.Found.{found_below};
ghost use Rattle.area_list.specs.Layout.{rows};
ghost use Rattle.area_list.specs.Good.{good_tables};
ghost use Rattle.agreement.specs.Agree.{differs, lowest_in, first_wrong};

use area_list::Areas;
use page_table::PAGE;

// The lowest page from first up to end whose entry is not what is said of the page.
fn first_differing<F: Fn(usize) -> u32>(
    pages: &[u32],
    first: usize,
    end: usize,
    says: F,
) -> Option<usize>
    requires callable { F.IsAlwaysCallable says }
    requires end_in_bounds { end ≤ length pages.now }
    // Where the entries that it says are those of a rule.
    ensures { (rule : ℕ → ℕ) → ((page entry : ℕ) → F.post says page entry → entry ≡ rule page)
        → result ≡ found_below end (lowest_in (differs rule pages.now) first end) }
{
    for page in first..end {
        if pages[page] != says(page) {
            return Some(page);
        }
    }
    None
}

// The lowest page that disagrees with the areas. The pages between areas and those of each area are looked at in turn, so each page
// is looked at once. That the tables are good ties the list to another table, so it stays a clause, as in `wipe_areas`.
pub fn first_wrong(areas: Areas<'_>, pages: &[u32]) -> Option<usize>
    requires { good_tables areas.words.now areas.count (length pages.now) ≡ true }
    ensures { result ≡ found_below (length pages.now) (first_wrong (rows areas.entry.words.now areas.entry.count) pages.now) }
{
    let mut from = 0;
    for slot in 0..areas.count {
        let area = areas.at(slot);
        let first = (area.start / PAGE) as usize;
        let end = (area.end / PAGE) as usize;
        if let Some(mapped) = first_differing(pages, from, first, |_| 0) {
            return Some(mapped);
        }
        if let Some(other) = first_differing(
            pages,
            first,
            end,
            |page| area.backend.entry(area.flags, page),
        ) {
            return Some(other);
        }
        from = end;
    }
    first_differing(pages, from, pages.len(), |_| 0)
}
