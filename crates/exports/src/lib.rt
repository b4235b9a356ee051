// The calls of the memory set for Rust and C, on numbers and slices alone; the declarations are in include/. C has no `Result`, so each
// returns document 01's answer number and gives its other results through the `&mut` numbers, all of them 0 in a refusal.
//
// Each contract equates everything that a caller sees with the call's rule in the crates questions and rules, so no second outcome
// meets it (`one_reply`, proofs/Numbers.antt).
#![tactic(auto)]

ghost use Rattle.std.specs.Prelude.{◌≡◌, [], ◌∷◌};
ghost use Rattle.area.specs.Answer.{reply};
ghost use Rattle.questions.specs.Question.{len_rule, empty_rule, overlaps_rule, find_rule, free_area_rule};
ghost use Rattle.rules.specs.Change.{tables, unmap_rule, clear_rule, map_rule, protect_rule};
ghost use Rattle.exports.specs.Numbers.{in_numbers, yes_number, area_numbers, part_of, backend_from, is_yes};

use area::{Area, number_of};
use area_list::word_of;
use page_table::{Backend, PAGE};

// The number of areas.
#[unsafe(no_mangle)]
pub extern "C" fn memory_set_len(areas: &[u64], pages: &[u32], count: usize, len: &mut u64) -> u32
    ensures { reply result len.new ≡ len_rule areas.now pages.now count }
{
    let counted = questions::len(areas, pages, count);
    *len = counted.unwrap_or(0) as u64;
    number_of(&counted)
}

// Whether there is no area.
#[tactic(auto, using(crate::proofs::Numbers::yes_is))]
#[unsafe(no_mangle)]
pub extern "C" fn memory_set_is_empty(
    areas: &[u64],
    pages: &[u32],
    count: usize,
    yes: &mut u64,
) -> u32
    ensures { reply result yes.new ≡ in_numbers yes_number (empty_rule areas.now pages.now count) }
{
    let empty = questions::is_empty(areas, pages, count);
    *yes = u64::from(empty.unwrap_or(false));
    number_of(&empty)
}

// Whether some address is in both the range and an area.
#[tactic(auto, using(crate::proofs::Numbers::yes_is))]
#[unsafe(no_mangle)]
pub extern "C" fn memory_set_overlaps(
    areas: &[u64],
    pages: &[u32],
    count: usize,
    start: u64,
    size: u64,
    yes: &mut u64,
) -> u32
    ensures { reply result yes.new ≡ in_numbers yes_number (overlaps_rule areas.now pages.now count start size) }
{
    let overlap = questions::overlaps(areas, pages, count, start, size);
    *yes = u64::from(overlap.unwrap_or(false));
    number_of(&overlap)
}

// The area that holds an address, its backend as a word: 0 for lazy, 2^32 + delta for linear.
#[unsafe(no_mangle)]
pub extern "C" fn memory_set_find(
    areas: &[u64],
    pages: &[u32],
    count: usize,
    address: u64,
    start: &mut u64,
    end: &mut u64,
    flags: &mut u64,
    backend: &mut u64,
) -> u32
    ensures { reply result (start.new ∷ end.new ∷ flags.new ∷ backend.new ∷ [])
        ≡ in_numbers area_numbers (find_rule areas.now pages.now count address) }
{
    let found = questions::find(areas, pages, count, address);
    let area = found.unwrap_or(Area::nothing());
    *start = area.start;
    *end = area.end;
    *flags = area.flags as u64;
    *backend = word_of(area.backend);
    number_of(&found)
}

// Where the entries of the area that holds an address lie in the page table: from which page on, and how many. No slice can be
// returned to C.
#[unsafe(no_mangle)]
pub extern "C" fn memory_set_entries(
    areas: &[u64],
    pages: &[u32],
    count: usize,
    address: u64,
    first: &mut u64,
    number: &mut u64,
) -> u32
    ensures { reply result (first.new ∷ number.new ∷ [])
        ≡ in_numbers part_of (find_rule areas.now pages.now count address) }
{
    let holder = questions::find(areas, pages, count, address);
    let area = holder.unwrap_or(Area::nothing());
    let page = area.start / PAGE;
    let end = area.end / PAGE;
    *first = page;
    *number = end - page;
    number_of(&holder)
}

// The lowest free address for an area of a size, from a hint on and between two limits.
#[unsafe(no_mangle)]
pub extern "C" fn memory_set_find_free_area(
    areas: &[u64],
    pages: &[u32],
    count: usize,
    hint: u64,
    size: u64,
    limit_start: u64,
    limit_end: u64,
    align: u64,
    at: &mut u64,
) -> u32
    ensures { reply result at.new ≡ free_area_rule areas.now pages.now count hint size limit_start limit_end align }
{
    let placed = free_area::find_free_area(
        areas,
        pages,
        count,
        hint,
        size,
        limit_start,
        limit_end,
        align,
    );
    *at = placed.unwrap_or(0);
    number_of(&placed)
}

// A backend from two numbers, as C gives it; for the same reason replace is a number, and each answer.
#[tactic(auto, unfolding(crate::specs::Numbers::backend_from))]
fn backend_from(linear: u32, delta: u32) -> Backend
    ensures { result ≡ backend_from linear delta }
{
    if linear == 0 {
        Backend::Lazy
    } else {
        Backend::Linear(delta)
    }
}

// Adds a mapping: lazy where linear is 0, and replacing what is in its range unless replace is 0.
#[unsafe(no_mangle)]
pub extern "C" fn memory_set_map(
    areas: &mut [u64],
    pages: &mut [u32],
    count: &mut usize,
    start: u64,
    size: u64,
    flags: u32,
    linear: u32,
    delta: u32,
    replace: u32,
) -> u32
    ensures { reply result (tables areas.new pages.new count.new)
        ≡ map_rule areas.old pages.old count.old start size flags (backend_from linear delta) (is_yes replace) }
{
    let backend = backend_from(linear, delta);
    let mapped = map::map(
        areas,
        pages,
        *count,
        start,
        size,
        flags,
        backend,
        replace != 0,
    );
    *count = mapped.unwrap_or(*count);
    number_of(&mapped)
}

// Removes all mappings in a range.
#[unsafe(no_mangle)]
pub extern "C" fn memory_set_unmap(
    areas: &mut [u64],
    pages: &mut [u32],
    count: &mut usize,
    start: u64,
    size: u64,
) -> u32
    ensures { reply result (tables areas.new pages.new count.new)
        ≡ unmap_rule areas.old pages.old count.old start size }
{
    let unmapped = unmap::unmap(areas, pages, *count, start, size);
    *count = unmapped.unwrap_or(*count);
    number_of(&unmapped)
}

// Removes all areas.
#[unsafe(no_mangle)]
pub extern "C" fn memory_set_clear(areas: &mut [u64], pages: &mut [u32], count: &mut usize) -> u32
    ensures { reply result (tables areas.new pages.new count.new)
        ≡ clear_rule areas.old pages.old count.old }
{
    let cleared = unmap::clear(areas, pages, *count);
    *count = cleared.unwrap_or(*count);
    number_of(&cleared)
}

// Changes the flags of all mappings in a range: without the clear bits, then with the set bits.
#[unsafe(no_mangle)]
pub extern "C" fn memory_set_protect(
    areas: &mut [u64],
    pages: &mut [u32],
    count: &mut usize,
    start: u64,
    size: u64,
    set: u32,
    clear: u32,
) -> u32
    ensures { reply result (tables areas.new pages.new count.new)
        ≡ protect_rule areas.old pages.old count.old start size set clear }
{
    let flagged = protect::protect(areas, pages, *count, start, size, set, clear);
    *count = flagged.unwrap_or(*count);
    number_of(&flagged)
}
