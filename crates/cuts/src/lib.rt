// An area's own operations: splitting it, and shrinking it from the left or the right. A refusal gives the area back unchanged.
#![tactic(auto)]

ghost use Rattle.std.specs.Prelude.{◌≡◌};
ghost use Rattle.area.specs.Answer.{number_of, reply};
ghost use Rattle.cuts.specs.Cut.{cut_answer, split_outcome, split_rule, shrunk_outcome, shrink_left_rule, shrink_right_rule};

use area::{Area, Refusal};
use page_table::{MAX_PAGES, PAGE};

// The space of the largest page table: no good tables hold an area past it.
const LARGEST_SPACE: u64 = PAGE * (MAX_PAGES as u64);

// Why an area was not cut, and that area, unchanged.
#[derive(Clone, Copy)]
pub struct Uncut {
    pub refusal: Refusal,
    pub area: Area,
}

// What a cut answers that has to lie strictly between low and high.
fn cut_answer(whole: Area, cut: u64, low: u64, high: u64) -> Result<(), Refusal>
    ensures { number_of result ≡ cut_answer whole cut low high }
{
    if !whole.good_in(LARGEST_SPACE) {
        return Err(Refusal::BadTables);
    }
    if cut % PAGE != 0 {
        return Err(Refusal::NotAligned);
    }
    if cut <= low {
        return Err(Refusal::InvalidParam);
    }
    if high <= cut {
        return Err(Refusal::InvalidParam);
    }
    Ok(())
}

// The area, if the cut lies strictly between low and high.
fn cuttable(whole: Area, cut: u64, low: u64, high: u64) -> Result<Area, Uncut>
    ensures { shrunk_outcome result ≡ reply (cut_answer whole cut low high) whole }
{
    match cut_answer(whole, cut, low, high) {
        Ok(()) => Ok(whole),
        Err(refusal) => Err(Uncut {
            refusal,
            area: whole,
        }),
    }
}

// Splits the area at an address strictly inside it.
//
//             at
// [ left      | right ]
pub fn split(whole: Area, at: u64) -> Result<(Area, Area), Uncut>
    ensures { split_outcome result ≡ split_rule whole at }
{
    let whole = cuttable(whole, at, whole.start, whole.end)?;
    let left = whole.part(whole.start, at);
    let right = whole.part(at, whole.end);
    Ok((left, right))
}

// The two shrinks differ in the end that moves. 01 names both, and one function would be given that end and branch on it.

// Shrinks the area to a smaller size from the left: its start moves.
//
// [      | area ]
pub fn shrink_left(whole: Area, new_size: u64) -> Result<Area, Uncut>
    ensures { shrunk_outcome result ≡ shrink_left_rule whole new_size }
{
    let whole = cuttable(whole, new_size, 0, whole.size())?;
    let start = whole.end - new_size;
    Ok(whole.part(start, whole.end))
}

// Shrinks the area to a smaller size from the right: its end moves.
//
// [ area |      ]
pub fn shrink_right(whole: Area, new_size: u64) -> Result<Area, Uncut>
    ensures { shrunk_outcome result ≡ shrink_right_rule whole new_size }
{
    let whole = cuttable(whole, new_size, 0, whole.size())?;
    let end = whole.start + new_size;
    Ok(whole.part(whole.start, end))
}
