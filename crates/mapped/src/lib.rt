// The number of pages under areas, counted along a walk.
#![tactic(auto)]

ghost use Rattle.std.specs.Prelude.{◌≡◌};
ghost use Rattle.mapped.specs.Mapped.{pages_of, mapped_outcome, mapped_rule};

use area::{Area, Refusal};
use page_table::PAGE;
use walk::Walk;

// The pages of an area.
#[tactic(auto, unfolding(crate::specs::Mapped::pages_of))]
fn pages_in(area: Area) -> usize
    ensures { result ≡ pages_of area }
{
    (area.end / PAGE).saturating_sub(area.start / PAGE) as usize
}

// The number of pages under areas.
pub fn mapped_pages(areas: &[u64], pages: &[u32], count: usize) -> Result<usize, Refusal>
    ensures { mapped_outcome result ≡ mapped_rule areas.now pages.now count }
{
    let walk = Walk::new(areas, pages, count);
    walk.answer()?;
    let mut sum = 0;
    for area in walk {
        sum += pages_in(area);
    }
    Ok(sum)
}
