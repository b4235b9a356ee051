// The flags that protect gives, and what becomes of the entries of the pages in its range, for good tables and arguments that
// have been tested.
#![tactic(auto)]

ghost use Rattle.std.specs.Prelude.{◌≡◌, true, min, max, ◌/◌, ◌≤◌, length};
ghost use Rattle.lists.specs.Each.{within};
ghost use Rattle.page_table.specs.Limits.{page_size, max_flags};
ghost use Rattle.area_list.specs.Layout.{rows};
ghost use Rattle.area_list.specs.Good.{good_tables};
ghost use Rattle.effects.specs.Lists.{new_flags};
ghost use Rattle.effects.specs.Pages.{protects_area, protect_pages};

use area::Area;
use area_list::Areas;
use page_table::PAGE;
use page_table::entry::FLAGS;
use page_writes::reflag;
use wipes::Meeting;

// The flags that protect sets and those that it clears. What it sets may be any number here: that it is at most 15 is asked where
// the new flags go into the list.
#[derive(Clone, Copy)]
pub struct FlagChange {
    pub set: u32,
    pub clear: u32,
    ghost clear_legal: { clear ≤ max_flags },
}

impl FlagChange {
    // The old flags without the clear bits, then with the set bits: a bit in both is set.
    #[tactic(auto, unfolding(effects::specs::Lists::new_flags))]
    pub fn of(self, old: u32) -> u32
        ensures { result ≡ new_flags self.set self.clear old }
    {
        (old & (FLAGS - self.clear)) | self.set
    }
}

// Writes the entries of an area's pages in the range anew, with the new flags, where these are others than the old.
#[tactic(auto, using(crate::proofs::Flags::pages_same, crate::proofs::Flags::pages_anew))]
fn reflag_area(pages: &mut [u32], area: Area, low: u64, high: u64, change: FlagChange)
    ensures { pages.new
        ≡ within (protects_area change.set change.clear area) (max low area.start / page_size) (min high area.end / page_size) pages.old }
{
    let flags = change.of(area.flags);
    if flags == area.flags {
        return;
    }
    let first = (low.max(area.start) / PAGE) as usize;
    let end = (high.min(area.end) / PAGE) as usize;
    reflag(pages, first, end, flags, area.backend);
}

// Gives the pages that lie in areas and in the range the new flags. As in `wipe_areas`, what ties the list to the pages stays a clause.
pub fn reflag_areas(areas: Areas<'_>, pages: &mut [u32], low: u64, high: u64, change: FlagChange)
    requires { good_tables areas.words.now areas.count (length pages.old) ≡ true }
    ensures { pages.new ≡ protect_pages low high change.set change.clear (rows areas.entry.words.now areas.entry.count) pages.old }
{
    for area in Meeting::new(areas, low, high) {
        reflag_area(pages, area, low, high, change);
    }
}
