// Numbers in bytes, the lowest byte first.
#![tactic(auto)]

ghost use Rattle.std.specs.Prelude.{◌≡◌, ℕ, ◌+◌, ◌≤◌, length};
ghost use Rattle.little_endian.specs.Number.{number_at, bytes_of};

// A number that lies in SIZE bytes, the lowest first.
pub trait LittleEndian: Copy {
    // The number itself.
    ghost number: { Self → ℕ };

    ghost SIZE: { ℕ };

    const SIZE: usize;

    // The number in as many bytes as it has.
    fn from_bytes(b: &[u8]) -> Self
        requires { length b.now ≡ SIZE }
        ensures { number result ≡ number_at b.now 0 SIZE };

    // Writes the number into as many bytes as it has.
    fn put(self, out: &mut [u8])
        requires { length out.old ≡ SIZE }
        ensures { out.new ≡ bytes_of SIZE (number self) };

    // The number is all of the value, so the bytes say which value it is.
    ghost all: { (x y : Self) → number x ≡ number y → x ≡ y };
}

impl LittleEndian for u32 {
    ghost number = { λ n. n };

    ghost SIZE = { 4 };

    ghost all = { λ x y e. e };

    const SIZE: usize = 4;

    fn from_bytes(b: &[u8]) -> u32 {
        u32::from_le_bytes([b[0], b[1], b[2], b[3]])
    }

    fn put(self, out: &mut [u8]) {
        out.copy_from_slice(&u32::to_le_bytes(self));
    }
}

impl LittleEndian for u64 {
    ghost number = { λ n. n };

    ghost SIZE = { 8 };

    ghost all = { λ x y e. e };

    const SIZE: usize = 8;

    fn from_bytes(b: &[u8]) -> u64 {
        u64::from_le_bytes([b[0], b[1], b[2], b[3], b[4], b[5], b[6], b[7]])
    }

    fn put(self, out: &mut [u8]) {
        out.copy_from_slice(&u64::to_le_bytes(self));
    }
}

// The number that lies at a place.
pub fn read<T: LittleEndian>(bytes: &[u8], at: usize) -> T
    requires { at + T.SIZE ≤ length bytes.now }
    ensures { T.number result ≡ number_at bytes.now at T.SIZE }
{
    T::from_bytes(&bytes[at..at + T::SIZE])
}
