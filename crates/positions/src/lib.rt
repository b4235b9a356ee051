// Positions in the list of areas, found by binary search over the starts or the ends. Where to go on from is a number, count at the end, as
// the library's partition points are; which area holds an address is an Option.
#![tactic(auto)]

ghost use Rattle.std.specs.Prelude.{◌≡◌};
ghost use Rattle.std.specs.Simd.{first_chunks};
ghost use Rattle.lists.specs.Found.{found_below};
ghost use Rattle.area_list.specs.Layout.{words_per_area, rows};
ghost use Rattle.area_list.specs.Position.{first_where, ends_past, starts_from, contains};
ghost use Rattle.area_list.specs.Meet.{shares_any};

use area_list::{Areas, END, START, WORDS};

// The words of the areas, a row for each.
fn table<'a>(areas: Areas<'a>) -> &'a [[u64; WORDS]]
    ensures { result.now ≡ first_chunks words_per_area areas.entry.count areas.entry.words.now }
{
    &areas.words.as_chunks::<WORDS>().0[..areas.count]
}

// The first area that ends past an address, or count.
pub fn first_ending_past(areas: Areas<'_>, address: u64) -> usize
    ensures { result ≡ first_where (ends_past address) (rows areas.entry.words.now areas.entry.count) }
{
    table(areas).partition_point(|row| row[END] <= address)
}

// The first area that starts at or past an address, or count.
pub fn first_starting_from(areas: Areas<'_>, address: u64) -> usize
    ensures { result ≡ first_where (starts_from address) (rows areas.entry.words.now areas.entry.count) }
{
    // every area starts there or past it, so nothing is searched
    if address == 0 {
        return 0;
    }
    table(areas).partition_point(|row| row[START] < address)
}

// The area that holds an address.
pub fn first_holding(areas: Areas<'_>, address: u64) -> Option<usize>
    ensures { result ≡ found_below areas.entry.count (first_where (contains address) (rows areas.entry.words.now areas.entry.count)) }
{
    let slot = first_ending_past(areas, address);
    if slot < areas.count && areas.at(slot).start <= address {
        Some(slot)
    } else {
        None
    }
}

// Whether some area has an address of the range in it.
pub fn any_overlap(areas: Areas<'_>, low: u64, high: u64) -> bool
    ensures { result ≡ shares_any low high (rows areas.entry.words.now areas.entry.count) }
{
    if high <= low {
        return false;
    }
    let slot = first_ending_past(areas, low);
    slot < areas.count && areas.at(slot).start < high
}
