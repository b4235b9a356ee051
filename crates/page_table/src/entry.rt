// One entry of the page table, packed and taken apart by shifts and masks:
//
//     31             8 7 6   5      4    3   0
//    [     frame     | 0 0 | lazy | 1 | flags ]
//
// An unmapped page has entry 0, which no packed entry is. An entry stays a bare u32, with functions and no type of its own: the lent
// table that C passes is made of these words.
ghost use Rattle.std.specs.Prelude.{◌≡◌};
ghost use Rattle.page_table.specs.Entry.{packed_of, flags_of, is_mapped, is_lazy, frame_of};

pub const READ: u32 = 1;

pub const WRITE: u32 = 2;

pub const EXECUTE: u32 = 4;

pub const USER: u32 = 8;
// All flags together: the mask of bits 0 to 3, and the largest legal flags.
pub const FLAGS: u32 = READ | WRITE | EXECUTE | USER;

const MAPPED: u32 = 16;

const LAZY: u32 = 32;
// Bits 8 to 31 hold the frame.
const FRAME_SHIFT: u32 = 8;

// The entry of a mapped page. Flags above 15 and frames from 2^24 on lose what does not fit.
pub fn packed(flags: u32, lazy: bool, frame: u32) -> u32
    ensures { result ≡ packed_of flags lazy frame }
{
    let kind = if lazy { MAPPED | LAZY } else { MAPPED };
    (flags & FLAGS) | kind | (frame << FRAME_SHIFT)
}

#[tactic(auto, unfolding(crate::specs::Entry::flags_of))]
pub fn flags(entry: u32) -> u32
    ensures { result ≡ flags_of entry }
{
    entry & FLAGS
}

pub fn mapped(entry: u32) -> bool
    ensures { result ≡ is_mapped entry }
{
    entry & MAPPED != 0
}

pub fn lazy(entry: u32) -> bool
    ensures { result ≡ is_lazy entry }
{
    entry & LAZY != 0
}

#[tactic(auto, unfolding(crate::specs::Entry::frame_of))]
pub fn frame(entry: u32) -> u32
    ensures { result ≡ frame_of entry }
{
    entry >> FRAME_SHIFT
}
