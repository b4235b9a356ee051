// The lines of the answers, written into a buffer. Every line starts with its fixed word and ends with byte 10.
#![tactic(auto)]

ghost use Rattle.std.specs.Prelude.{◌≡◌, ◌+◌, ◌≤◌, ◌<◌, length, [], ◌∷◌, ◌++◌};
ghost use Rattle.lines.specs.Line.{digit, hex, longest_line, range_length, range_bytes, line_bytes, Put, Writes};

use area::{Refusal, number_of};

// The most bytes that a line has.
pub const LONGEST: usize = 41;
// Hex digits of an address, of flags, and of an answer's number, which is below 10.
const ADDRESS: usize = 16;

const FLAGS: usize = 1;

const NUMBER: usize = 1;

#[derive(Clone, Copy)]
pub enum Line {
    // A change was accepted.
    Ok,
    // The number of an answer. A refusal's is what a caller says by it, but any answer may be put.
    No(Result<(), Refusal>),
    // The area that was found, from start up to end.
    In(u64, u64),
    // The address that a search gave.
    At(u64),
    // The range meets an area.
    Over,
    // It meets none.
    Free,
    // A record that asks for nothing.
    Bad,
    // A last record that is not whole.
    Cut,
    // One area of the listing: start, end, flags.
    Area(u64, u64, u32),
}

// The byte of a hex digit. The library's `char::from_digit` gives an `Option<char>`, which would be unwrapped and cast: no plainer.
fn digit(value: u64) -> u8
    requires { value < 16 }
    ensures { result ≡ digit value }
{
    if value < 10 {
        b'0' + value as u8
    } else {
        b'a' + (value - 10) as u8
    }
}

// A buffer, and the place in it from which on nothing is written yet. A method moves the place past what it writes.
#[derive(Drop)]
pub struct Out<'a> {
    pub bytes: &'a mut [u8],
    pub at: usize,
}

impl Out<'_> {
    // The bytes of a text.
    fn put(&mut self, text: &[u8])
        requires { self.old.at + length text.now ≤ length self.old.bytes.now }
        ensures { Writes self.old text.now self.new }
    {
        let end = self.at + text.len();
        self.bytes[self.at..end].copy_from_slice(text);
        self.at = end;
    }

    // The last so many hex digits of a number, and the byte after them.
    fn hex(&mut self, digits: usize, value: u64, after: u8)
        requires { self.old.at + digits < length self.old.bytes.now }
        ensures put { Writes self.old (hex digits value ++ (after ∷ [])) self.new }
        ensures past { self.new.at ≡ self.old.at + digits + 1 }
    {
        let mut rest = value;
        for k in (0..digits).rev() {
            self.bytes[self.at + k] = digit(rest % 16);
            rest /= 16;
        }
        let end = self.at + digits;
        self.bytes[end] = after;
        self.at = end + 1;
    }

    // `S E`, and the byte after it.
    fn range(&mut self, start: u64, end: u64, after: u8)
        requires { self.old.at + range_length < length self.old.bytes.now }
        ensures put { Writes self.old (range_bytes start end ++ (after ∷ [])) self.new }
        ensures past { self.new.at ≡ self.old.at + range_length + 1 }
    {
        self.hex(ADDRESS, start, b' ');
        self.hex(ADDRESS, end, after);
    }

    // The bytes of a line.
    #[tactic(auto, unfolding(crate::specs::Line::line_bytes))]
    fn line(&mut self, line: Line)
        requires { self.old.at + longest_line ≤ length self.old.bytes.now }
        ensures { Writes self.old (line_bytes line) self.new }
    {
        match line {
            Line::Ok => self.put(b"ok\n"),
            Line::No(answer) => {
                self.put(b"no ");
                self.hex(NUMBER, u64::from(number_of(&answer)), b'\n');
            }
            Line::In(start, end) => {
                self.put(b"in ");
                self.range(start, end, b'\n');
            }
            Line::At(address) => {
                self.put(b"at ");
                self.hex(ADDRESS, address, b'\n');
            }
            Line::Over => self.put(b"over\n"),
            Line::Free => self.put(b"free\n"),
            Line::Bad => self.put(b"bad\n"),
            Line::Cut => self.put(b"cut\n"),
            Line::Area(start, end, flags) => {
                self.put(b"area ");
                self.range(start, end, b' ');
                self.hex(FLAGS, u64::from(flags), b'\n');
            }
        }
    }
}

// One line, and the place after it. A public function keeps its parameters: buffer and place stay two here.
pub fn put_line(out: &mut [u8], at: usize, line: Line) -> usize
    requires { at + longest_line ≤ length out.old }
    ensures { Put out.old at (line_bytes line) out.new result }
{
    let mut out = Out { bytes: out, at };
    out.line(line);
    out.at
}
