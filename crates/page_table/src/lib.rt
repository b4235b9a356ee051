// The lent page table, one u32 a page: what an entry is, and what a backend says of a page. The operations that change entries are
// in page_writes. Everything above those two works against their promises alone and never looks into an entry.
#![tactic(auto)]

ghost use Rattle.std.specs.Prelude.{◌≡◌};
ghost use Rattle.page_table.specs.Entry.{linear_frame, entry_of};
ghost use Rattle.page_table.specs.Frames.{frames_fit, backend_fits};

pub mod entry;

// Bytes in a page.
pub const PAGE: u64 = 4096;
// The most pages that a table may have.
pub const MAX_PAGES: usize = 65536;
// Linear frames stay below this: an entry has 24 bits for a frame.
pub const FRAMES: u32 = 0x100_0000;

// How an area's pages get their frames. It has the shape of an Option and stays an enum of its own: 01 names lazy and linear, and
// None and Some(delta) would be no plainer.
#[derive(Clone, Copy, Debug, PartialEq, Eq)]
pub enum Backend {
    // Frames arrive later; until then the frame bits are 0.
    Lazy,
    // The frame is the page's number plus this delta, wrapping at 2^32.
    Linear(u32),
}

// The frame that a linear backend gives a page. It is legal where it is below FRAMES.
#[tactic(auto, unfolding(crate::specs::Entry::linear_frame))]
pub fn linear_frame(page: usize, delta: u32) -> u32
    ensures { result ≡ linear_frame page delta }
{
    ((page % 0x1_0000_0000) as u32).wrapping_add(delta)
}

// Whether every page from first up to end has a legal linear frame. A loop and not `(first..end).all(..)`,
// which proves as well: LLVM makes vector code of the loop alone, and at 256 pages the chain was seven times slower.
#[tactic(auto, using(crate::proofs::Frames::page_by_page))]
pub fn frames_fit(first: usize, end: usize, delta: u32) -> bool
    ensures { result ≡ frames_fit first end delta }
{
    for page in first..end {
        if linear_frame(page, delta) >= FRAMES {
            return false;
        }
    }
    true
}

impl Backend {
    // Whether this backend has a legal frame for every page from first up to end.
    #[tactic(auto, unfolding(crate::specs::Frames::backend_fits))]
    pub fn fits(self, first: usize, end: usize) -> bool
        ensures { result ≡ backend_fits self first end }
    {
        match self {
            Backend::Lazy => true,
            Backend::Linear(delta) => frames_fit(first, end, delta),
        }
    }

    // The entry that an area with this backend and these flags gives a page.
    #[tactic(auto, unfolding(crate::specs::Entry::entry_of))]
    pub fn entry(self, flags: u32, page: usize) -> u32
        ensures { result ≡ entry_of self flags page }
    {
        match self {
            Backend::Lazy => entry::packed(flags, true, 0),
            Backend::Linear(delta) => entry::packed(flags, false, linear_frame(page, delta)),
        }
    }
}
