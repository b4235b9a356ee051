// Every area in order, read where the caller's area table lies. A `Walk` holds that slice and a slot; each function over the struct
// is thin, since `len` tests the tables and `item_at`, on a plain slice and numbers, reads a slot.
#![tactic(auto)]

ghost use Rattle.std.specs.Prelude.{◌≡◌, ◌-◌};
ghost use Rattle.std.specs.Iterator.{at_most};
ghost use Rattle.walk.specs.Walking.{walk_outcome, walk_rule, count_of, Steps};

use area::{Area, Refusal};
use area_list::item_at;

// A walk: the caller's words as they lie, what len answered, and the slot that it is at. It goes through as many areas as len says; a
// refused one through none.
#[derive(Clone, Copy)]
pub struct Walk<'a> {
    pub areas: &'a [u64],
    pub len: Result<usize, Refusal>,
    pub slot: usize,
}

impl<'a> Walk<'a> {
    // A walk from the first area to the last. The tables are tested once, here.
    #[tactic(auto, using(crate::proofs::Yields::begun_is))]
    pub fn new(areas: &'a [u64], pages: &[u32], count: usize) -> Walk<'a>
        ensures { walk_outcome result ≡ walk_rule areas.entry pages.now count }
    {
        Walk {
            areas,
            len: questions::len(areas, pages, count),
            slot: 0,
        }
    }

    // What len answers for the same tables.
    pub fn answer(self) -> Result<usize, Refusal>
        ensures { result ≡ self.entry.len }
    {
        self.len
    }
}

impl<'a> Iterator for Walk<'a> {
    type Item = Area;

    // The next area, and the walk moves on; or none, and it stays where it is: so it ends once and for all.
    ghost next_gives = { Steps };

    ghost remaining = { λ w. at_most (count_of w - w.slot) };

    #[tactic(auto, using(area_list::proofs::Items::some_below))]
    fn next(&mut self) -> Option<Area> {
        let area = item_at(self.areas, self.len.unwrap_or(0), self.slot)?;
        self.slot += 1;
        Some(area)
    }
}
