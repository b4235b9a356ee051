// The areas that meet a range of addresses, and what a range unmaps, for good tables and a range that has been tested: the pages that
// lie in areas and in the range.
#![tactic(auto)]

ghost use Rattle.std.specs.Prelude.{◌≡◌, true, length};
ghost use Rattle.area_list.specs.Layout.{rows};
ghost use Rattle.area_list.specs.Good.{good_tables};
ghost use Rattle.effects.specs.Pages.{cut_pages};
ghost use Rattle.wipes.specs.Meeting.{meeting};

use area::Area;
use area_list::Areas;
use page_table::PAGE;
use page_writes::wipe;
use positions::first_ending_past;
use std::marker::Model;

// The areas that a range of addresses meets, in order: a walk over the lent table, seen as the list of those that are left.
//
//           low           high
// [    ]  [  |  ]  [    ]  |  [    ]
//          first    last
#[derive(Drop)]
pub struct Meeting<'a> {
    areas: Areas<'a>,
    slot: usize,
    high: u64,
}

impl<'a> Model for Meeting<'a> {
    ghost use Rattle.std.specs.Prelude.{List, drop};
    ghost use Rattle.area.specs.declared.Area.{Area};
    ghost use Rattle.area_list.specs.Layout.{rows};
    ghost use Rattle.wipes.specs.Meeting.{until};

    ghost Value = { List Area };

    ghost view = { λ m. until m.high (drop m.slot (rows m.areas.words.now m.areas.count)) };
}

impl<'a> Meeting<'a> {
    pub fn new(areas: Areas<'a>, low: u64, high: u64) -> Meeting<'a>
        ensures { result ≡ meeting low high (rows areas.entry.words.now areas.entry.count) }
    {
        Meeting {
            areas,
            slot: first_ending_past(areas, low),
            high,
        }
    }
}

impl Iterator for Meeting<'_> {
    type Item = Area;

    ghost use Rattle.std.specs.Iterator.{YieldsFirst, item_count};

    ghost next_gives = { YieldsFirst (λ rest. rest) };

    ghost remaining = { item_count (λ rest. rest) };

    fn next(&mut self) -> Option<Area> {
        if self.areas.count <= self.slot {
            return None;
        }
        let area = self.areas.at(self.slot);
        if self.high <= area.start {
            return None;
        }
        self.slot += 1;
        Some(area)
    }
}

// Makes the pages unmapped that lie in areas and in the range. That the tables are good ties the list to another table, which is written
// here, so it stays a clause and is in no type.
pub fn wipe_areas(areas: Areas<'_>, pages: &mut [u32], low: u64, high: u64)
    requires { good_tables areas.words.now areas.count (length pages.old) ≡ true }
    ensures { pages.new ≡ cut_pages low high (rows areas.entry.words.now areas.entry.count) pages.old }
{
    for area in Meeting::new(areas, low, high) {
        let first = (low.max(area.start) / PAGE) as usize;
        let end = (high.min(area.end) / PAGE) as usize;
        wipe(pages, first, end);
    }
}
