// A request, from a record of 32 bytes:
//
//     0    1       2       3         4       8       16     24
//    [ op | flags | clear | backend | delta | start | size | limit ]
#![tactic(auto)]

ghost use Rattle.std.specs.Prelude.{◌≡◌, cond, eqb, length};
ghost use Rattle.requests.specs.Request.{record_size, fields_of, Blank, beside_range, backend_by};
ghost use Rattle.requests.specs.Request.{map_by, search_by, request_by, request_of};

use little_endian::read;
use page_table::Backend;

// Bytes in a record.
pub const RECORD: usize = 32;
// The largest exponent of a search's align.
const MAX_EXPONENT: u32 = 63;

// What a record asks for.
#[derive(Clone, Copy)]
pub enum Request {
    Map {
        start: u64,
        size: u64,
        flags: u32,
        backend: Backend,
        replace: bool,
    },
    Unmap {
        start: u64,
        size: u64,
    },
    Protect {
        start: u64,
        size: u64,
        set: u32,
        clear: u32,
    },
    Find(u64),
    Overlaps {
        start: u64,
        size: u64,
    },
    Search {
        hint: u64,
        size: u64,
        limit: u64,
        align: u64,
    },
    Clear,
    // Another op, backend or exponent, or a field that should be 0. No absent request: it is run and answered like the others.
    Bad,
}

// The fields of a record, as they lie. Some have a second use: flags is protect's set, clear is a search's exponent, and start
// an address or a hint.
#[derive(Clone, Copy)]
struct Fields {
    op: u32,
    flags: u32,
    clear: u32,
    backend: u32,
    delta: u32,
    start: u64,
    size: u64,
    limit: u64,
}

#[tactic(auto, unfolding(crate::specs::Request::fields_of))]
fn fields_of(bytes: &[u8]) -> Fields
    requires { length bytes.now ≡ record_size }
    ensures { result ≡ fields_of bytes.now }
{
    Fields {
        op: u32::from(bytes[0]),
        flags: u32::from(bytes[1]),
        clear: u32::from(bytes[2]),
        backend: u32::from(bytes[3]),
        delta: read(bytes, 4),
        start: read(bytes, 8),
        size: read(bytes, 16),
        limit: read(bytes, 24),
    }
}

// The request, unless a field that it does not use, or several of them together, is not 0.
fn unless(unused: u64, request: Request) -> Request
    ensures { result ≡ cond (eqb unused 0) request Request.Bad }
{
    if unused == 0 { request } else { Request::Bad }
}

impl Fields {
    // What a request with a start and a size, and no more, does not use: 0 where each field is.
    fn beside_range(self) -> u64
        ensures { Blank result (beside_range self) }
    {
        u64::from(self.flags | self.clear | self.backend | self.delta) | self.limit
    }

    // 0 is lazy, which has no delta, and 1 is linear.
    #[tactic(auto, unfolding(crate::specs::Request::backend_by, crate::specs::Request::all_zero))]
    fn backend(self) -> Option<Backend>
        ensures { result ≡ backend_by self }
    {
        match (self.backend, self.delta) {
            (0, 0) => Some(Backend::Lazy),
            (1, delta) => Some(Backend::Linear(delta)),
            _ => None,
        }
    }

    fn map(self, replace: bool) -> Request
        ensures { result ≡ map_by self replace }
    {
        match self.backend() {
            Some(backend) => unless(
                u64::from(self.clear) | self.limit,
                Request::Map {
                    start: self.start,
                    size: self.size,
                    flags: self.flags,
                    backend,
                    replace,
                },
            ),
            None => Request::Bad,
        }
    }

    #[tactic(auto, using(crate::proofs::Requests::search_too_far), unfolding(crate::specs::Request::search_by))]
    fn search(self) -> Request
        ensures { result ≡ search_by self }
    {
        if MAX_EXPONENT < self.clear {
            return Request::Bad;
        }
        unless(
            u64::from(self.flags | self.backend | self.delta),
            Request::Search {
                hint: self.start,
                size: self.size,
                limit: self.limit,
                align: 1 << self.clear,
            },
        )
    }

    #[tactic(auto, using(crate::proofs::Requests::unless_is), unfolding(crate::specs::Request::request_by, crate::specs::Request::chosen))]
    fn asked(self) -> Request
        ensures { result ≡ request_by self }
    {
        let start = self.start;
        let size = self.size;
        // here and in `backend` a kind is a number: the record's bytes are decoded
        match self.op {
            1 => self.map(false),
            2 => self.map(true),
            3 => unless(self.beside_range(), Request::Unmap { start, size }),
            4 => unless(
                u64::from(self.backend | self.delta) | self.limit,
                Request::Protect {
                    start,
                    size,
                    set: self.flags,
                    clear: self.clear,
                },
            ),
            5 => unless(size | self.beside_range(), Request::Find(start)),
            6 => unless(self.beside_range(), Request::Overlaps { start, size }),
            7 => self.search(),
            8 => unless(start | size | self.beside_range(), Request::Clear),
            _ => Request::Bad,
        }
    }
}

// What a record asks for. Bytes of another length ask for nothing.
#[tactic(auto, unfolding(crate::specs::Request::request_of))]
pub fn decode(bytes: &[u8]) -> Request
    ensures { result ≡ request_of bytes.now }
{
    if bytes.len() != RECORD {
        return Request::Bad;
    }
    fields_of(bytes).asked()
}
