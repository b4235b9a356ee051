// The work of protect on the list, for good tables and arguments that have been tested: how it splits areas and flags them.
// The range stays two numbers, low and high, as in the work of the other calls: most uses name one end of it alone, and a struct for both
// would be taken apart at each.
#![tactic(auto)]

ghost use Rattle.std.specs.Prelude.{◌≡◌, true, map, ◌+◌, ◌≤◌, ◌<◌, length, MatchOption};
ghost use Rattle.page_table.specs.Limits.{max_pages, max_flags};
ghost use Rattle.area_list.specs.Layout.{capacity_of, rows};
ghost use Rattle.area_list.specs.Good.{good_tables};
ghost use Rattle.area_list.specs.Position.{first_where};
ghost use Rattle.area_list.specs.Store.{store};
ghost use Rattle.effects.specs.Lists.{protect};
ghost use Rattle.effects.proofs.Protecting.{cuts_at, split_at, flagged};
ghost use Rattle.protection.specs.Range.{ProtectRange};

use area::Area;
use area_list::Areas;
use flags::FlagChange;
use positions::first_ending_past;
use slots::splice;

// A list whose tables are good with the most pages there may be: no two of its areas share an address.
#[derive(Clone, Copy)]
pub struct GoodAreas<'a> {
    pub list: Areas<'a>,
    pub ghost good: { good_tables list.words.now list.count max_pages ≡ true },
}

// The slot of the area that protect splits at an end of its range, if there is one: the end lies strictly inside and the flags
// change.
//
//        address
// [ area    |    ]
fn cut_slot(areas: GoodAreas<'_>, address: u64, change: FlagChange) -> Option<usize>
    ensures { MatchOption result
        (areas.entry.list.count
        ≡ first_where (cuts_at change.set change.clear address) (rows areas.entry.list.words.now areas.entry.list.count))
        (λ slot. (slot < areas.entry.list.count)
        × (slot ≡ first_where (cuts_at change.set change.clear address) (rows areas.entry.list.words.now areas.entry.list.count))) }
{
    let slot = first_ending_past(areas.list, address);
    if areas.list.count <= slot {
        return None;
    }
    let area = areas.list.at(slot);
    if address <= area.start {
        return None;
    }
    if change.of(area.flags) == area.flags {
        return None;
    }
    Some(slot)
}

// How many areas more the list gets from a split at one end of the range.
fn extra_at(areas: GoodAreas<'_>, address: u64, change: FlagChange) -> usize
    ensures { (length (split_at change.set change.clear address (rows areas.entry.list.words.now areas.entry.list.count))
        ≡ areas.entry.list.count + result)
        × (result ≤ 1) }
{
    match cut_slot(areas, address, change) {
        Some(_) => 1,
        None => 0,
    }
}

// How many areas more the list gets: one for each end of the range that splits an area.
pub fn extra_areas(areas: GoodAreas<'_>, low: u64, high: u64, change: FlagChange) -> usize
    requires { low < high }
    ensures { (length (protect low high change.set change.clear (rows areas.entry.list.words.now areas.entry.list.count))
        ≡ areas.entry.list.count + result)
        × (result ≤ 2) }
{
    let left = extra_at(areas, low, change);
    let right = extra_at(areas, high, change);
    left + right
}

// Splits the area of the list that protect splits at an end of its range, if there is one; the new number of areas.
//
//        address
// [ left    | right ]
//
// Here and below what GoodAreas says stays a `requires`. A struct of the `&mut [u64]`, the count and this fact was tried and is no
// plainer: each of the three then also ensures that its field is still the caller's slice (`table.new.words.ghost_name ≡ ..`), and
// split_at has to ask for an aligned address, since it must leave the tables good itself.
fn split_at(areas: &mut [u64], count: usize, address: u64, change: FlagChange) -> usize
    requires tables_good { good_tables areas.old count max_pages ≡ true }
    requires count_len_bound { length (split_at change.set change.clear address (rows areas.old count)) ≤ capacity_of (length areas.old) }
    ensures { (result ≡ length (split_at change.set change.clear address (rows areas.old count)))
        × (areas.new ≡ store (split_at change.set change.clear address (rows areas.old count)) areas.old count) }
{
    let list = Areas {
        words: areas,
        count,
    };
    let Some(slot) = cut_slot(GoodAreas { list }, address, change) else {
        return count;
    };
    let area = list.at(slot);
    let left = area.part(area.start, address);
    let right = area.part(address, area.end);
    splice(areas, count, slot, slot + 1, &[Some(left), Some(right)])
}

// An area of the split list as protect leaves it: one that lies in the range gets the new flags. Any other stays: it has no
// address in the range, or it was not split at the range's end because its flags do not change.
#[tactic(auto, unfolding(effects::proofs::Protecting::flagged))]
fn flagged_area(area: Area, low: u64, high: u64, change: FlagChange) -> Area
    ensures { result ≡ flagged low high change.set change.clear area }
{
    if low <= area.start && area.end <= high {
        Area {
            flags: change.of(area.flags),
            ..area
        }
    } else {
        area
    }
}

// Gives the areas of the split list that lie in the range the new flags: each takes its own slot again, so no tail moves. It goes by
// slot, since it writes the table that `wipes::Meeting` would borrow.
fn flag_inside(areas: &mut [u64], count: usize, low: u64, high: u64, change: FlagChange)
    requires tables_good { good_tables areas.old count max_pages ≡ true }
    requires set_legal { change.set ≤ max_flags }
    ensures { areas.new
        ≡ store (map (flagged low high change.set change.clear) (rows areas.old count)) areas.old count }
{
    let entry = Areas {
        words: areas,
        count,
    };
    for slot in first_ending_past(entry, low)..count {
        let list = Areas {
            words: areas,
            count,
        };
        let area = list.at(slot);
        if high <= area.start {
            break;
        }
        let new = flagged_area(area, low, high, change);
        splice(areas, count, slot, slot + 1, &[Some(new)]);
    }
}

// Splits the areas that protect splits at the ends of the range, and gives those that then lie in it the new flags; the
// new number of areas.
//
//         [     range     ]
// [ left  | new ]   [ new | right ]
pub fn protect_list(
    areas: &mut [u64],
    count: usize,
    low: u64,
    high: u64,
    change: FlagChange,
) -> usize
    requires tables_good { good_tables areas.old count max_pages ≡ true }
    requires protect_range { ProtectRange low high change.set change.clear }
    requires count_len_bound { length (protect low high change.set change.clear (rows areas.old count)) ≤ capacity_of (length areas.old) }
    ensures { (result ≡ length (protect low high change.set change.clear (rows areas.old count)))
        × (areas.new ≡ store (protect low high change.set change.clear (rows areas.old count)) areas.old count) }
{
    let more = split_at(areas, count, high, change);
    let all = split_at(areas, more, low, change);
    flag_inside(areas, all, low, high, change);
    all
}
