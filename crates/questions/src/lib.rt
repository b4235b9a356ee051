// The calls of the memory set that ask and change nothing, and what each answers; the code of the search for room is in free_area.
// Both tables and the count are lent to every call; each tests that the tables are good before anything else, and answers with
// document 01's numbers in 01's order. The three stay parameters: C lends them so, and 01 names the calls with them.
#![tactic(auto)]

ghost use Rattle.std.specs.Prelude.{◌≡◌, IfOk};
ghost use Rattle.area.specs.Answer.{number_of};
ghost use Rattle.questions.specs.Tests.{tables_answer, range_answer};
ghost use Rattle.questions.specs.Question.{len_outcome, len_rule, told_outcome, empty_rule, overlaps_rule, found_outcome, find_rule, entries_rule};

use area::{Area, Refusal};
use area_list::Areas;
use good_tables::good;
use page_table::PAGE;
use positions::{any_overlap, first_holding};

// What a call without arguments tests, and the list that may be read where the tables are good.
pub fn tables_answer<'a>(
    areas: &'a [u64],
    pages: &[u32],
    count: usize,
) -> Result<Areas<'a>, Refusal>
    ensures answer { number_of result ≡ tables_answer areas.now pages.now count }
    ensures list { IfOk result (λ list. (list.words.now ≡ areas.now) × (list.count ≡ count)) }
{
    if !good(areas, count, pages.len()) {
        return Err(Refusal::BadTables);
    }
    Ok(Areas {
        words: areas,
        count,
    })
}

// The number of areas.
pub fn len(areas: &[u64], pages: &[u32], count: usize) -> Result<usize, Refusal>
    ensures { len_outcome result ≡ len_rule areas.now pages.now count }
{
    tables_answer(areas, pages, count)?;
    Ok(count)
}

// Whether there is no area.
pub fn is_empty(areas: &[u64], pages: &[u32], count: usize) -> Result<bool, Refusal>
    ensures { told_outcome result ≡ empty_rule areas.now pages.now count }
{
    tables_answer(areas, pages, count)?;
    Ok(count == 0)
}

// What the tests that every call on a range makes first answer, and the list as tables_answer gives it.
pub fn range_answer<'a>(
    areas: &'a [u64],
    pages: &[u32],
    count: usize,
    start: u64,
    size: u64,
) -> Result<Areas<'a>, Refusal>
    ensures answer { number_of result ≡ range_answer areas.now pages.now count start size }
    ensures list { IfOk result (λ list. (list.words.now ≡ areas.now) × (list.count ≡ count)) }
{
    let list = tables_answer(areas, pages, count)?;
    if start % PAGE != 0 {
        return Err(Refusal::NotAligned);
    }
    if size % PAGE != 0 {
        return Err(Refusal::NotAligned);
    }
    let space = PAGE * (pages.len() as u64);
    if space < start {
        return Err(Refusal::InvalidParam);
    }
    if space - start < size {
        return Err(Refusal::InvalidParam);
    }
    Ok(list)
}

// Whether some address is in both the range and an area.
pub fn overlaps(
    areas: &[u64],
    pages: &[u32],
    count: usize,
    start: u64,
    size: u64,
) -> Result<bool, Refusal>
    ensures { told_outcome result ≡ overlaps_rule areas.now pages.now count start size }
{
    let list = range_answer(areas, pages, count, start, size)?;
    Ok(any_overlap(list, start, start + size))
}

// The area that holds an address.
pub fn find(areas: &[u64], pages: &[u32], count: usize, address: u64) -> Result<Area, Refusal>
    ensures { found_outcome result ≡ find_rule areas.now pages.now count address }
{
    let list = tables_answer(areas, pages, count)?;
    match first_holding(list, address) {
        Some(slot) => Ok(list.at(slot)),
        None => Err(Refusal::NotFound),
    }
}

// The entries of the pages of the area that holds an address, as a part of the table that is lent. Where find refuses, with
// find's number, the part is empty: 01 says so, and that this call hands back a part.
pub fn entries<'a>(areas: &[u64], pages: &'a [u32], count: usize, address: u64) -> &'a [u32]
    ensures { result.now ≡ entries_rule areas.now pages.now count address }
{
    match find(areas, pages, count, address) {
        Ok(area) => {
            let first = (area.start / PAGE) as usize;
            let end = (area.end / PAGE) as usize;
            &pages[first..end]
        }
        Err(_) => &pages[..0],
    }
}
