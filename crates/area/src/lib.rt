// One area of a plug-in's space, by value: when it is good, and its parts. Nothing here touches a table; whoever takes pages off
// an area wipes their entries.
#![tactic(auto)]

ghost use Rattle.std.specs.Prelude.{◌≡◌, ◌-◌};
ghost use Rattle.area.specs.Answer.{number, number_of};
ghost use Rattle.area.specs.Area.{good_area, part, nothing};

use page_table::entry::FLAGS;
use page_table::{Backend, PAGE};

// Why a call is refused, by document 01's names and numbers. What a call answers is a `Result` with this error: 0 where it is `Ok`.
#[derive(Clone, Copy, Debug, PartialEq, Eq)]
pub enum Refusal {
    // 1: the tables lent, or the area given, are not good.
    BadTables,
    // 2: a start, size or cut that is no multiple of 4,096, or a size no multiple of the alignment asked for.
    NotAligned,
    // 3: a range past the space, a size or cut that means nothing, flags above 15.
    InvalidParam,
    // 4: map without replacing meets an area.
    AlreadyExists,
    // 5: a linear map with a frame at or above 2^24.
    BadState,
    // 6: the resulting list would exceed the capacity.
    NoRoom,
    // 7: an address in no area, or no free address.
    NotFound,
}

impl Refusal {
    // 01's table, line by line. A method, and no `From`: u32 has many readings, and here the name says which.
    pub fn number(self) -> u32
        ensures { result ≡ number self }
    {
        match self {
            Refusal::BadTables => 1,
            Refusal::NotAligned => 2,
            Refusal::InvalidParam => 3,
            Refusal::AlreadyExists => 4,
            Refusal::BadState => 5,
            Refusal::NoRoom => 6,
            Refusal::NotFound => 7,
        }
    }
}

// The number of an answer: 0 where the call was accepted.
pub fn number_of<T>(answer: &Result<T, Refusal>) -> u32
    ensures { result ≡ number_of answer.now }
{
    match answer {
        Ok(_) => 0,
        Err(refusal) => refusal.number(),
    }
}

// The addresses from start up to end, with the same flags and backend.
#[derive(Clone, Copy)]
pub struct Area {
    pub start: u64,
    pub end: u64,
    pub flags: u32,
    pub backend: Backend,
}

impl Area {
    // The all-zero area, which holds no address.
    pub fn nothing() -> Area
        ensures { result ≡ nothing }
    {
        Area {
            start: 0,
            end: 0,
            flags: 0,
            backend: Backend::Lazy,
        }
    }

    // Bytes in the area, 0 where its end is not past its start.
    pub fn size(self) -> u64
        ensures { result ≡ self.end - self.start }
    {
        self.end.saturating_sub(self.start)
    }

    // Whether good tables with this space could hold the area.
    pub fn good_in(self, space: u64) -> bool
        ensures { result ≡ good_area space self }
    {
        if self.end <= self.start {
            return false;
        }
        if space < self.end {
            return false;
        }
        if self.start % PAGE != 0 {
            return false;
        }
        if self.end % PAGE != 0 {
            return false;
        }
        if FLAGS < self.flags {
            return false;
        }
        self.backend
            .fits((self.start / PAGE) as usize, (self.end / PAGE) as usize)
    }

    // The addresses from start up to end with this area's flags and backend: the backend is kept as it is, so every page
    // keeps its frame.
    pub fn part(self, start: u64, end: u64) -> Area
        ensures { result ≡ part self start end }
    {
        Area { start, end, ..self }
    }
}
