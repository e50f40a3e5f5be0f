// Where the fields of a `tfhd` stand, by its flags. Bytes, place and `StandsAt` stay apart, as lib.rt says.
ghost use Rattle.std.specs.Prelude.{◌≡◌, ◌+◌};
ghost use Rattle.numbers.specs.Numbers.{when};
ghost use Rattle.rules.specs.Fields.{box_flags, field};
ghost use Rattle.rules.specs.Chunk.{tfhd_size, tfhd_in, defaults_in};
ghost use Rattle.boxes.specs.Stands.{Stands, StandsAt};
ghost use Rattle.chunk.specs.Layout.{FieldInside, DefaultsStand};

use rules::{Defaults, Spot};
use runs::layout::bytes_for;

// The size of `tfhd` by its flags.
#[tactic(auto, unfolding(rules::specs::Chunk::tfhd_size))]
pub fn tfhd_size(flags: u32) -> usize
    ensures { result ≡ tfhd_size flags }
{
    8 + default_offsets(flags).flags + bytes_for(4, flags, 0x20)
}

// How far behind the header of a `tfhd` with these flags each default stands, where it is there.
#[derive(Clone, Copy)]
pub struct Offsets {
    pub duration: usize,
    pub size: usize,
    pub flags: usize,
}

// Where the defaults of a `tfhd` stand.
pub fn default_offsets(flags: u32) -> Offsets
    ensures { DefaultsStand result flags }
{
    let duration = 8 + bytes_for(8, flags, 0x1) + bytes_for(4, flags, 0x2);
    let size = duration + bytes_for(4, flags, 0x8);
    Offsets {
        duration,
        size,
        flags: size + bytes_for(4, flags, 0x10),
    }
}

// The field k bytes behind a box's header where a flag is set, else the default.
fn own(m: &[u8], b: Spot, k: usize, set: bool, default: u32) -> u32
    requires { Stands m.now b × FieldInside set b k }
    ensures { result ≡ when set (field m.now b.at k) default }
{
    if set { fields::word(m, b, k) } else { default }
}

// The defaults of the `tfhd`, which is sized by these flags, else those of `trex`.
#[tactic(auto, using(crate::proofs::Formed::reach_duration, crate::proofs::Formed::reach_size, crate::proofs::Formed::reach_flags), unfolding(rules::specs::Chunk::defaults_in))]
pub fn defaults(m: &[u8], b: Spot, flags: u32, d: Defaults) -> Defaults
    requires stands_at { StandsAt m.now (tfhd_in m.now) b }
    requires flags_value { (flags ≡ box_flags m.now b.at) × (b.size + 8 ≡ b.head + tfhd_size flags) }
    ensures { result ≡ defaults_in m.now d }
{
    let at = default_offsets(flags);
    Defaults {
        duration: own(m, b, at.duration, numbers::has(flags, 0x8), d.duration),
        size: own(m, b, at.size, numbers::has(flags, 0x10), d.size),
        flags: own(m, b, at.flags, numbers::has(flags, 0x20), d.flags),
    }
}
