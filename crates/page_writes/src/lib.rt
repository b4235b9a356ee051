// The three operations that change entries of the page table. Every function is total: a range may be empty, run backwards or go
// past the table, and only the pages that the table has are touched.
#![tactic(auto)]

ghost use Rattle.std.specs.Prelude.{◌≡◌, ℕ};
ghost use Rattle.lists.specs.Each.{within};
ghost use Rattle.page_writes.specs.Change.{Makes, writes, wipes, reflags};

use page_table::Backend;

// Writes to every page of the table from first up to end the entry that `entry` gives it.
fn fill<F: Fn(usize) -> u32>(pages: &mut [u32], first: usize, end: usize, entry: F)
    requires { F.IsAlwaysCallable entry }
    ensures { (change : ℕ → ℕ → ℕ) → Makes (F.post entry) end change → pages.new ≡ within change first end pages.old }
{
    for page in first..end.min(pages.len()) {
        pages[page] = entry(page);
    }
}

// Writes the entries of an area with this backend and these flags to the pages from first up to end.
#[tactic(auto, unfolding(crate::specs::Change::writes))]
pub fn write(pages: &mut [u32], first: usize, end: usize, flags: u32, backend: Backend)
    ensures { pages.new ≡ within (writes backend flags) first end pages.old }
{
    fill(pages, first, end, |page| backend.entry(flags, page));
}

// Makes the pages from first up to end unmapped.
#[tactic(auto, unfolding(crate::specs::Change::wipes))]
pub fn wipe(pages: &mut [u32], first: usize, end: usize)
    ensures { pages.new ≡ within wipes first end pages.old }
{
    fill(pages, first, end, |_| 0);
}

// Gives the pages from first up to end of an area with this backend new flags: their entries are written anew, so it is write. It
// stays a call of its own: 01 says apart what map and what protect do to entries, and README names both.
#[tactic(auto, unfolding(crate::specs::Change::reflags, crate::specs::Change::writes))]
pub fn reflag(pages: &mut [u32], first: usize, end: usize, flags: u32, backend: Backend)
    ensures { pages.new ≡ within (reflags backend flags) first end pages.old }
{
    write(pages, first, end, flags, backend);
}
