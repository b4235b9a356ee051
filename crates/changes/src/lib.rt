// The work of map and unmap on the list, for good tables and arguments that have been tested: which slots a range cuts, and what
// takes their place.
#![tactic(auto)]

ghost use Rattle.std.specs.Prelude.{◌≡◌, not, ◌&&◌, ◌<◌, drop};
ghost use Rattle.area_list.specs.Layout.{rows};
ghost use Rattle.area_list.specs.Meet.{shares_any};
ghost use Rattle.changes.specs.Gap.{first_before, Cuts};

use area::Area;
use area_list::Areas;
use positions::{any_overlap, first_ending_past};

// The slots from low up to high that a range of addresses cuts, and what stays of the first and of the last area in them.
#[derive(Clone, Copy)]
pub struct Gap {
    pub low: usize,
    pub high: usize,
    pub left: Option<Area>,
    pub right: Option<Area>,
}

// The area at a slot, if there is one and it starts before an address.
fn starting_before(areas: Areas<'_>, slot: usize, address: u64) -> Option<Area>
    ensures { result ≡ first_before address (drop slot (rows areas.entry.words.now areas.entry.count)) }
{
    if areas.count <= slot {
        return None;
    }
    let area = areas.at(slot);
    if area.start < address {
        Some(area)
    } else {
        None
    }
}

// The slots that the range from low up to high cuts:
//
//         [   range   ]
// [ left  |  ] [ ] [  | right ]
pub fn find_gap(areas: Areas<'_>, low: u64, high: u64) -> Gap
    requires { low < high }
    ensures { Cuts (rows areas.entry.words.now areas.entry.count) low high result }
{
    let from = first_ending_past(areas, low);
    let upto = first_ending_past(areas, high);
    let left = starting_before(areas, from, low).map(|area| area.part(area.start, low));
    let right = starting_before(areas, upto, high).map(|area| area.part(high, area.end));
    let past = if right.is_some() { upto + 1 } else { upto };
    Gap {
        low: from,
        high: past,
        left,
        right,
    }
}

// Whether a map that does not replace meets an area.
pub fn blocked(areas: Areas<'_>, low: u64, high: u64, replace: bool) -> bool
    ensures { result ≡ (not replace && shares_any low high (rows areas.entry.words.now areas.entry.count)) }
{
    !replace && any_overlap(areas, low, high)
}
