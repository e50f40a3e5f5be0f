// The bodies of boxes that stand in a slice: which form a body has, and the numbers in it. The size is tested once; every number read then stands
// inside the box.
// A slice and a box in it stay two parameters, with `Stands` in each contract: in one struct, whose invariant that is, every clause would name them by
// `b.entry.bytes.now` and `b.entry.spot`, and every caller, who has the places from `counts`, would build the struct for one call.
#![tactic(auto)]

ghost use Rattle.std.specs.Prelude.{◌≡◌, ◌+◌, ◌<◌, ◌≤◌};
ghost use Rattle.numbers.specs.Numbers.{be8};
ghost use Rattle.rules.specs.Boxes.{head_of};
ghost use Rattle.rules.specs.Fields.{box_flags, field, plain, at_least, has_form};
ghost use Rattle.boxes.specs.Stands.{Stands};
ghost use Rattle.fields.specs.Versions.{SaysVersion};

use numbers::{BigEndian, U24};
use rules::{Refusal, Spot};

// The versions that a body of one of two sizes may have.
#[derive(Clone, Copy)]
pub enum Version {
    Zero,
    One,
}

// The version of a box that has one size for version 0 and another for version 1. `None` where it has neither with its size.
pub fn versioned(s: &[u8], b: Spot, zero: usize, one: usize) -> Option<Version>
    requires { Stands s.now b × (12 ≤ zero) × (12 ≤ one) }
    ensures { SaysVersion result s.now b zero one }
{
    let payload = b.size - b.head;
    let body = b.at + b.head;
    if payload == zero - 8 && s[body] == 0 {
        return Some(Version::Zero);
    }
    if payload == one - 8 && s[body] == 1 {
        return Some(Version::One);
    }
    None
}

// Whether a box has version 0 and a size.
#[tactic(auto, using(crate::proofs::Forms::plain_is, crate::proofs::Forms::plain_not))]
pub fn is_plain(s: &[u8], b: Spot, size: usize) -> bool
    requires { Stands s.now b × (12 ≤ size) }
    ensures { result ≡ has_form (plain size) s.now b.at }
{
    b.size - b.head == size - 8 && s[b.at + b.head] == 0
}

// Whether a box has at least a size.
#[tactic(auto, using(crate::proofs::Forms::least_is))]
pub fn is_at_least(s: &[u8], b: Spot, size: usize) -> bool
    requires { Stands s.now b × (8 ≤ size) }
    ensures { result ≡ has_form (at_least size) s.now b.at }
{
    size - 8 <= b.size - b.head
}

// The four-byte number k bytes behind the header. It and `double` are not one generic reader: that would say `be4` of a place, and each caller's proof
// would lead this to `field`, in whose words the rules are written.
#[tactic(auto, unfolding(rules::specs::Fields::field))]
pub fn word(s: &[u8], b: Spot, k: usize) -> u32
    requires { Stands s.now b × (b.head + k + 4 ≤ b.size) }
    ensures { result ≡ field s.now b.at k }
{
    u32::near(s, b.at + b.head + k)
}

// The eight-byte number k bytes behind the header.
pub fn double(s: &[u8], b: Spot, k: usize) -> u64
    requires { Stands s.now b × (b.head + k + 8 ≤ b.size) }
    ensures { result ≡ be8 s.now (b.at + head_of s.now b.at + k) }
{
    u64::near(s, b.at + b.head + k)
}

// The flags of a full box.
#[tactic(auto, unfolding(rules::specs::Fields::box_flags))]
pub fn flags(s: &[u8], b: Spot) -> u32
    requires { Stands s.now b × (b.head + 4 ≤ b.size) }
    ensures value { result ≡ box_flags s.now b.at }
    ensures upper_bound { result < 16777216 }
{
    U24::near(s, b.at + b.head + 1).value
}

// A body that has another form than its own: a rule breaks at the box.
pub fn misformed(number: u64, b: Spot) -> Refusal
    ensures { result ≡ record { number = number; track = 0; place = b.at } }
{
    Refusal::new(number, 0, b.at as u64)
}
