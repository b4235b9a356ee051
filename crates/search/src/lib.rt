// The search for free room: the lowest address that fits, found in one pass over the areas.
#![tactic(auto)]

ghost use Rattle.std.specs.Prelude.{◌≡◌, true, ◌+◌, ◌^◌, ◌<◌};
ghost use Rattle.area_list.specs.Layout.{rows};
ghost use Rattle.area_list.specs.Good.{good_tables, space_of};
ghost use Rattle.search.specs.Free.{is_power_of_two, up_to, LegalSearch, wanted_in, free_outcome, free_rule};

use area_list::Areas;
use page_table::PAGE;
use positions::first_ending_past;

// The room that a search asks for: size bytes at a multiple of align, from hint and low on and below high.
#[derive(Clone, Copy, Debug, PartialEq, Eq)]
pub struct Wanted {
    pub hint: u64,
    pub size: u64,
    pub low: u64,
    pub high: u64,
    pub align: u64,
}

// The library's test promises a count of ones; this promise has 01's words: one of 2^0 to 2^63. It stays a function: at its caller, which
// refuses an align below a page anyway, a test that lets 0 pass would be right.
#[tactic(auto, using(crate::proofs::Powers::power_by_ones))]
pub fn power_of_two(n: u64) -> bool
    ensures { result ≡ is_power_of_two n }
{
    n.is_power_of_two()
}

// The lowest multiple of align, a power of two, that is not below an address. The library's next_multiple_of divides: 11 ns for each
// area that the pass meets, measured in a loop over 256, where the mask takes 0.7 ns.
fn align_up(address: u64, align: u64) -> u64
    requires align_power { is_power_of_two align ≡ true }
    requires align_bound { address + align < 2 ^ 64 }
    ensures { result ≡ up_to align address }
{
    let past = address & (align - 1);
    if past == 0 {
        address
    } else {
        address + (align - past)
    }
}

// The lowest address with the room that is wanted, in the space and meeting no area.
pub fn lowest_free(areas: Areas<'_>, pages: usize, wanted: Wanted) -> Option<u64>
    requires tables_good { good_tables areas.words.now areas.count pages ≡ true }
    requires legal_search { LegalSearch wanted.size wanted.align }
    ensures { free_outcome result ≡ free_rule (rows areas.entry.words.now areas.entry.count) (wanted_in wanted (space_of pages)) }
{
    let space = PAGE * (pages as u64);
    // the last address with room for size before high and the end of the space
    let last = wanted.high.min(space).checked_sub(wanted.size)?;
    let from = wanted.hint.max(wanted.low);
    if last < from {
        return None;
    }
    let mut at = align_up(from, wanted.align);
    for slot in first_ending_past(areas, at)..areas.count {
        if last < at {
            return None;
        }
        let area = areas.at(slot);
        if at + wanted.size <= area.start {
            return Some(at);
        }
        // a large align may have stepped past areas that start after this one
        if at < area.end {
            at = align_up(area.end, wanted.align);
        }
    }
    if last < at {
        return None;
    }
    Some(at)
}
