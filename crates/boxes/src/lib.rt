// Boxes in bytes: one header, and the containers.
#![tactic(auto)]

pub mod kinds;

ghost use Rattle.std.specs.Prelude.{◌≡◌, ◌+◌, ◌-◌, ◌≤◌, length};
ghost use Rattle.std.specs.Iterator.{at_most};
ghost use Rattle.rules.specs.Boxes.{look, sized, inside};
ghost use Rattle.boxes.specs.Bounds.{LookBounds};
ghost use Rattle.boxes.specs.Siblings.{IsNextSibling};

use kinds::{DINF, EDTS, MDIA, MINF, MOOF, MOOV, MVEX, STBL, TRAF, TRAK};
use numbers::BigEndian;
use rules::{Look, Path, Spot};

// A header of some bytes that says a size, at a place of a slice of a length. The size is compared with the bytes that are left:
// its sum with the place may not fit.
#[tactic(auto, unfolding(rules::specs::Boxes::sized))]
fn sized(length: usize, at: usize, head: usize, size: usize, kind: u32) -> Look
    requires { at ≤ length }
    ensures { result ≡ sized (length - at) head size kind }
{
    if size < head {
        return Look::Small;
    }
    if length - at < size {
        return Look::Beyond;
    }
    Look::Good { head, size, kind }
}

// The header at a place that has room for a short one. Most sizes are 8 or more, and one test tells that they are neither too small nor long.
#[tactic(auto, using(crate::proofs::Headers::no_long, crate::proofs::Headers::long, crate::proofs::Headers::short, crate::proofs::Headers::too_small))]
fn read_header(s: &[u8], at: usize) -> Look
    requires { at + 8 ≤ length s.now }
    ensures { result ≡ look s.now at }
{
    let short = u32::near(s, at);
    let kind = u32::near(s, at + 4);
    if 8 <= short {
        return sized(s.len(), at, 8, short as usize, kind);
    }
    if short != 1 {
        return Look::Small;
    }
    if s.len() - at < 16 {
        return Look::Short;
    }
    let size = u64::near(s, at + 8);
    sized(s.len(), at, 16, size as usize, kind)
}

// What stands at a place of a run of boxes. The last place with room for a header is the same all along the run, and is computed once.
#[tactic(auto, using(rules::proofs::Forest::look_nothing, crate::proofs::Headers::told, crate::proofs::Headers::no_header))]
pub fn look(s: &[u8], at: usize) -> Look
    ensures value { result ≡ look s.now at }
    ensures look_bounds { LookBounds result (length s.now) at }
{
    if 8 <= s.len() && at <= s.len() - 8 {
        return read_header(s, at);
    }
    if at < s.len() {
        return Look::Short;
    }
    Look::Nothing
}

// A box of a run of siblings: where it stands, and its type.
#[derive(Clone, Copy)]
pub struct Sibling {
    pub spot: Spot,
    pub kind: u32,
}

// The sibling boxes of a slice from a place on, up to its end or a broken header.
#[derive(Clone, Copy)]
pub struct SiblingBoxes<'a> {
    pub bytes: &'a [u8],
    pub at: usize,
}

// The sibling boxes of a slice from a place on.
pub fn along(bytes: &[u8], at: usize) -> SiblingBoxes<'_>
    ensures { (result.bytes.now ≡ bytes.now) × (result.at ≡ at) }
{
    SiblingBoxes { bytes, at }
}

impl<'a> Iterator for SiblingBoxes<'a> {
    type Item = Sibling;

    ghost remaining = { λ s. at_most (length s.bytes.now - s.at) };

    ghost next_gives = { λ s r t. (t.bytes.now ≡ s.bytes.now) × IsNextSibling r s.bytes.now s.at t.at };

    fn next(&mut self) -> Option<Sibling> {
        let at = self.at;
        let Look::Good { head, size, kind } = look(self.bytes, at) else {
            return None;
        };
        self.at = at + size;
        Some(Sibling {
            spot: Spot { at, head, size },
            kind,
        })
    }
}

// What a box type is on a path: a type that no rule names is passed over.
#[tactic(auto, unfolding(rules::specs::Boxes::inside))]
pub fn inside(path: Path, kind: u32) -> Option<Path>
    ensures { result ≡ inside path kind }
{
    match path {
        Path::Top => match kind {
            MOOV => Some(Path::Moov),
            MOOF => Some(Path::Moof),
            _ => None,
        },
        Path::Moov => match kind {
            TRAK => Some(Path::Trak),
            MVEX => Some(Path::Flat),
            _ => None,
        },
        Path::Moof => match kind {
            TRAF => Some(Path::Flat),
            _ => None,
        },
        Path::Trak => match kind {
            EDTS => Some(Path::Flat),
            MDIA => Some(Path::Mdia),
            _ => None,
        },
        Path::Mdia => match kind {
            MINF => Some(Path::Minf),
            _ => None,
        },
        Path::Minf => match kind {
            DINF => Some(Path::Flat),
            STBL => Some(Path::Flat),
            _ => None,
        },
        Path::Flat => None,
    }
}
