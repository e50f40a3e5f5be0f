// Rule 15: the bodies of a chunk's boxes before its runs, each by a reader of its own, which answers nothing where a body has another form.
// `StandsAt` stands in each contract: no plainer in one struct, as lib.rt says.
ghost use Rattle.rules.specs.Chunk.{mfhd_in, tfhd_in, tfdt_in};
ghost use Rattle.boxes.specs.Stands.{StandsAt};
ghost use Rattle.chunk.specs.Bodies.{SaysMfhd, SaysTfhd, SaysTfdt};

use crate::layout;
use fields::Version;
use rules::{Defaults, Spot};

// What a `tfhd` says: its flags, its track ID and the defaults with its own.
#[derive(Clone, Copy)]
pub struct Tfhd {
    pub flags: u32,
    pub id: u32,
    pub own: Defaults,
}

// Where the boxes of a chunk stand in its `moof`, of the runs the first.
#[derive(Clone, Copy)]
pub struct InMoof {
    pub mfhd: Spot,
    pub traf: Spot,
    pub tfhd: Spot,
    pub tfdt: Spot,
    pub run: Spot,
}

// What the bodies before the runs say: the flags and the track ID of `tfhd`, the start, and the defaults with the chunk's own.
#[derive(Clone, Copy)]
pub struct BodyValues {
    pub flags: u32,
    pub id: u32,
    pub start: u64,
    pub own: Defaults,
}

// The `mfhd`: 16, version 0; it says nothing that a rule asks for. An `Option` of nothing and no bool: document 01 has every box reader taken apart by
// `let .. else`.
#[tactic(auto, using(runs::proofs::Formed::body_right, runs::proofs::Formed::body_wrong))]
pub fn read_mfhd(m: &[u8], b: Spot) -> Option<()>
    requires { StandsAt m.now (mfhd_in m.now) b }
    ensures { SaysMfhd result m.now }
{
    if fields::is_plain(m, b, 16) {
        Some(())
    } else {
        None
    }
}

// The `tfhd`: version 0, sized by its flags; with the `trex` defaults.
#[tactic(auto, using(runs::proofs::Formed::body_right, runs::proofs::Formed::body_wrong, crate::proofs::Formed::tfhd_low, crate::proofs::Formed::tfhd_short, crate::proofs::Formed::plain_size))]
pub fn read_tfhd(m: &[u8], b: Spot, d: Defaults) -> Option<Tfhd>
    requires { StandsAt m.now (tfhd_in m.now) b }
    ensures { SaysTfhd result m.now d }
{
    if b.size - b.head < 8 {
        return None;
    }
    let flags = fields::flags(m, b);
    if !fields::is_plain(m, b, layout::tfhd_size(flags)) {
        return None;
    }
    Some(Tfhd {
        flags,
        id: fields::word(m, b, 4),
        own: layout::defaults(m, b, flags, d),
    })
}

// The `tfdt`: 16 (version 0) or 20 (version 1); it says the chunk's start.
pub fn read_tfdt(m: &[u8], b: Spot) -> Option<u64>
    requires { StandsAt m.now (tfdt_in m.now) b }
    ensures { SaysTfdt result m.now }
{
    match fields::versioned(m, b, 16, 20)? {
        Version::Zero => Some(fields::word(m, b, 4) as u64),
        Version::One => Some(fields::double(m, b, 4)),
    }
}
