// The call `find_free_area`. Both tables and the count are lent; the tables are tested before anything else, and the answers are
// document 01's numbers in the search's own order.
#![tactic(auto)]

ghost use Rattle.std.specs.Prelude.{◌≡◌, IfOk};
ghost use Rattle.area.specs.Answer.{number_of};
ghost use Rattle.questions.specs.Question.{search_answer, placed_outcome, free_area_rule};

use area::Refusal;
use area_list::Areas;
use page_table::PAGE;
use questions::tables_answer;
use search::{Wanted, lowest_free, power_of_two};

// What the tests of a search answer, and the list as tables_answer gives it. It alone tests InvalidParam before NotAligned.
fn search_answer<'a>(
    areas: &'a [u64],
    pages: &[u32],
    count: usize,
    wanted: Wanted,
) -> Result<Areas<'a>, Refusal>
    ensures answer { number_of result ≡ search_answer areas.now pages.now count wanted.size wanted.low wanted.high wanted.align }
    ensures list { IfOk result (λ list. (list.words.now ≡ areas.now) × (list.count ≡ count)) }
{
    let list = tables_answer(areas, pages, count)?;
    if !power_of_two(wanted.align) {
        return Err(Refusal::InvalidParam);
    }
    if wanted.align < PAGE {
        return Err(Refusal::InvalidParam);
    }
    if wanted.size == 0 {
        return Err(Refusal::InvalidParam);
    }
    if wanted.high < wanted.low {
        return Err(Refusal::InvalidParam);
    }
    if wanted.size % wanted.align != 0 {
        return Err(Refusal::NotAligned);
    }
    Ok(list)
}

// The lowest address that is a multiple of align, at least hint and limit_start, with address + size within limit_end and the
// space, meeting no area.
#[tactic(auto, using(questions::proofs::Questions::search_asks, questions::proofs::Questions::placed_refused), unfolding(questions::specs::Question::free_area_rule, questions::specs::Question::placed_by))]
pub fn find_free_area(
    areas: &[u64],
    pages: &[u32],
    count: usize,
    hint: u64,
    size: u64,
    limit_start: u64,
    limit_end: u64,
    align: u64,
) -> Result<u64, Refusal>
    ensures { placed_outcome result ≡ free_area_rule areas.now pages.now count hint size limit_start limit_end align }
{
    let wanted = Wanted {
        hint,
        size,
        low: limit_start,
        high: limit_end,
        align,
    };
    let list = search_answer(areas, pages, count, wanted)?;
    lowest_free(list, pages.len(), wanted).ok_or(Refusal::NotFound)
}
