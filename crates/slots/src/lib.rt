// Moving slots: the one way in which the list of areas changes. The tail moves once, the new areas are written, and slots
// that are not used any more become 0.
#![tactic(auto)]

ghost use Rattle.std.specs.Prelude.{◌≡◌, ◌+◌, ◌-◌, ◌*◌, ◌≤◌, ◌<◌, length, take, drop, replicate};
ghost use Rattle.lists.specs.Over.{over};
ghost use Rattle.area_list.specs.Layout.{words_per_area, words_of, rows};
ghost use Rattle.area_list.specs.Position.{SortedRows};
ghost use Rattle.area_list.specs.Store.{flat, store, spliced};
ghost use Rattle.slots.specs.Splice.{parts_of, Gap};

use area::Area;
use area_list::{WORDS, word_of};

// An area's words go into a slot.
fn put(areas: &mut [u64], slot: usize, area: Area)
    requires { words_per_area * slot + words_per_area ≤ length areas.old }
    ensures { areas.new ≡ over areas.old (words_per_area * slot) (words_of area) }
{
    let at = WORDS * slot;
    areas[at] = area.start;
    areas[at + 1] = area.end;
    areas[at + 2] = area.flags as u64;
    areas[at + 3] = word_of(area.backend);
}

// How many of the parts are there. A loop, and no chain of filter and count: of the chain LLVM makes one loop in another, some 75
// instructions more in each map and unmap.
pub fn number(parts: &[Option<Area>]) -> usize
    ensures { (result ≡ length (parts_of parts.now)) × (result ≤ length parts.now) }
{
    let mut number = 0;
    for part in parts {
        number += usize::from(part.is_some());
    }
    number
}

// The parts that are there go into the slots from one on, one after the other.
fn put_parts(areas: &mut [u64], slot: usize, parts: &[Option<Area>])
    requires { words_per_area * (slot + length (parts_of parts.now)) ≤ length areas.old }
    ensures { areas.new ≡ over areas.old (words_per_area * slot) (flat (parts_of parts.now)) }
{
    let mut next = slot;
    // No `parts.iter().flatten()`: the proof search finds neither which areas it yields nor the room for one more.
    for part in parts {
        if let Some(area) = part {
            put(areas, next, *area);
            next += 1;
        }
    }
}

// Words move to any place; those that stay are not touched.
fn move_words(areas: &mut [u64], from: usize, to: usize, words: usize)
    requires words_in_bounds { from + words ≤ length areas.old }
    requires to_in_bounds { to + words ≤ length areas.old }
    ensures { areas.new ≡ over areas.old to (take words (drop from areas.old)) }
{
    if to != from {
        areas.copy_within(from..from + words, to);
    }
}

// Words from one place up to another become 0: none, if the other is not past it.
fn zero(areas: &mut [u64], from: usize, end: usize)
    requires { end ≤ length areas.old }
    ensures { areas.new ≡ over areas.old from (replicate (end - from) 0) }
{
    if from < end {
        areas[from..end].fill(0);
    }
}

// Slots low up to high of count give way to the parts that are there; the new number of areas.
pub fn splice(
    areas: &mut [u64],
    count: usize,
    low: usize,
    high: usize,
    parts: &[Option<Area>],
) -> usize
    requires sorted_rows { SortedRows areas.old count }
    requires gap { Gap (length areas.old) count low high (length (parts_of parts.now)) }
    ensures { (result ≡ low + length (parts_of parts.now) + (count - high))
        × (areas.new ≡ store (spliced (rows areas.old count) low high (parts_of parts.now)) areas.old count) }
{
    let next = low + number(parts);
    let tail = count - high;
    let after = next + tail;
    // The tail moves before the parts are written: more of them than slots that give way overwrite it.
    move_words(areas, WORDS * high, WORDS * next, WORDS * tail);
    put_parts(areas, low, parts);
    zero(areas, WORDS * after, WORDS * count);
    after
}
