// Big-endian numbers of one to eight bytes at a place of a slice. `read` is total: a byte past the end reads as 0; `near` asks for a
// place inside.
#![tactic(auto)]

ghost use Rattle.std.specs.Prelude.{◌≡◌, ◌+◌, ◌*◌, ◌/◌, ◌%◌, ◌<◌, ◌≤◌, ℕ, List, length};
ghost use Rattle.numbers.specs.Numbers.{byte, be2, be3, be4, be8, has, signed, is_place};
ghost use Rattle.std.proofs.Common.{lit≤};
ghost use Rattle.numbers.specs.Reads.{Reads, reads1, reads2, reads3, reads4, reads8};

// Numbers that are read from bytes, the first the highest.
pub trait BigEndian: Sized {
    // How many bytes a number has.
    const WIDTH: usize;

    ghost WIDTH: { ℕ };

    // The number that stands at a place of a list, and the number that a value is.
    ghost number: { List ℕ → ℕ → ℕ };

    ghost value: { Self → ℕ };

    // The number at a place inside the slice.
    fn near(s: &[u8], at: usize) -> Self
        requires { at + WIDTH ≤ length s.now }
        ensures { value result ≡ number s.now at };

    // The number at a place.
    final fn read(s: &[u8], at: usize) -> Self
        ensures { value result ≡ number s.now at }
    {
        if Self::WIDTH <= s.len() && at <= s.len() - Self::WIDTH {
            return Self::near(s, at);
        }
        let rest = s.get(at..).unwrap_or(&[]);
        padded(rest)
    }

    // A number has no more bytes than a `u64`, and is read from these bytes alone.
    ghost narrow: { WIDTH ≤ 8 };

    ghost reads: { Reads WIDTH number };
}

// The byte at a place, 0 past the end.
fn byte_or_zero(bytes: &[u8], i: usize) -> u8
    ensures { result ≡ byte bytes.now i }
{
    bytes.get(i).copied().unwrap_or(0)
}

// The number that some bytes begin, the others 0. Byte by byte: `copy_from_slice` calls `memcpy`, and the library calls nothing.
#[cold]
fn padded<N: BigEndian>(bytes: &[u8]) -> N
    requires { length bytes.now ≤ N.WIDTH }
    ensures { N.value result ≡ N.number bytes.now 0 }
{
    let all = [
        byte_or_zero(bytes, 0),
        byte_or_zero(bytes, 1),
        byte_or_zero(bytes, 2),
        byte_or_zero(bytes, 3),
        byte_or_zero(bytes, 4),
        byte_or_zero(bytes, 5),
        byte_or_zero(bytes, 6),
        byte_or_zero(bytes, 7),
    ];
    N::near(&all, 0)
}

impl BigEndian for u8 {
    const WIDTH: usize = 1;

    ghost WIDTH = { 1 };

    ghost number = { byte };

    ghost value = { λ x. x };

    fn near(s: &[u8], at: usize) -> u8 {
        s[at]
    }

    ghost narrow = { lit≤ tt };

    ghost reads = { reads1 };
}

#[tactic(auto, unfolding(crate::specs::Numbers::be2))]
impl BigEndian for u16 {
    const WIDTH: usize = 2;

    ghost WIDTH = { 2 };

    ghost number = { be2 };

    ghost value = { λ x. x };

    fn near(s: &[u8], at: usize) -> u16 {
        u16::from_be_bytes([s[at], s[at + 1]])
    }

    ghost narrow = { lit≤ tt };

    ghost reads = { reads2 };
}

// A number of three bytes.
#[derive(Clone, Copy)]
pub struct U24 {
    pub value: u32,
    ghost in_range: { value < 16777216 },
}

#[tactic(auto, unfolding(crate::specs::Numbers::be3))]
impl BigEndian for U24 {
    const WIDTH: usize = 3;

    ghost WIDTH = { 3 };

    ghost number = { be3 };

    ghost value = { λ x. x.value };

    fn near(s: &[u8], at: usize) -> U24 {
        U24 {
            value: u32::from_be_bytes([0, s[at], s[at + 1], s[at + 2]]),
        }
    }

    ghost narrow = { lit≤ tt };

    ghost reads = { reads3 };
}

#[tactic(auto, unfolding(crate::specs::Numbers::be4))]
impl BigEndian for u32 {
    const WIDTH: usize = 4;

    ghost WIDTH = { 4 };

    ghost number = { be4 };

    ghost value = { λ x. x };

    fn near(s: &[u8], at: usize) -> u32 {
        u32::from_be_bytes([s[at], s[at + 1], s[at + 2], s[at + 3]])
    }

    ghost narrow = { lit≤ tt };

    ghost reads = { reads4 };
}

#[tactic(auto, unfolding(crate::specs::Numbers::be8))]
impl BigEndian for u64 {
    const WIDTH: usize = 8;

    ghost WIDTH = { 8 };

    ghost number = { be8 };

    ghost value = { λ x. x };

    fn near(s: &[u8], at: usize) -> u64 {
        u32::near(s, at) as u64 * 4294967296 + u32::near(s, at + 4) as u64
    }

    ghost narrow = { lit≤ tt };

    ghost reads = { reads8 };
}

// Whether a flag, a power of two, is set. By a quotient and not by `&`: the clause speaks of every w above 0.
#[tactic(auto, unfolding(crate::specs::Numbers::has))]
pub fn has(flags: u32, w: u32) -> bool
    requires { 0 < w }
    ensures { result ≡ has flags w }
{
    flags / w % 2 == 1
}

// Four bytes' number as a signed number of 32 bits.
#[tactic(auto, using(crate::proofs::Signs::is_signed))]
pub fn signed(x: u32) -> i32
    ensures { result ≡ signed x }
{
    x.cast_signed()
}

// Whether a signed number is the place e.
#[tactic(auto, unfolding(crate::specs::Numbers::is_place))]
pub fn is_place(o: i32, e: u64) -> bool
    ensures { result ≡ is_place o e }
{
    u64::try_from(o) == Ok(e)
}
