// A second look at a chunk, by the bytes of its `moof`, whatever they hold: its start, and whether its first sample is a sync sample.
// Its readers stay beside those of the first look: these ask that the bytes are there, and read without a test; a second look is asked of any bytes.
// `StandsAt` and the limit stand in each contract: no plainer in one struct, as lib.rt says.
ghost use Rattle.std.specs.Prelude.{◌≡◌, ◌≤◌, length};
ghost use Rattle.rules.specs.Limits.{byte_limit};
ghost use Rattle.rules.specs.Counts.{child};
ghost use Rattle.rules.specs.Chunk.{traf_in, tfhd_in, start_of, defaults_in, sync_in};
ghost use Rattle.boxes.specs.Stands.{Stands, WholeBox, StandsAt};

use crate::layout::default_offsets;
use boxes::kinds::{TFDT, TFHD, TRAF};
use numbers::{BigEndian, U24};
use rules::{Defaults, Spot};

// The first box of a type in the container that stands there, or the container itself where there is none.
fn first_child(m: &[u8], x: Spot, w: u32) -> Spot
    requires { Stands m.now x }
    ensures { StandsAt m.now (child m.now x.at w) result }
{
    let end = x.at + x.size;
    match boxes::along(&m[..end], x.at + x.head).find(|b| b.kind == w) {
        Some(b) => b.spot,
        None => x,
    }
}

// The `traf` of the chunk whose `moof` has the bytes m, with the length of its header.
#[tactic(auto, unfolding(rules::specs::Chunk::traf_in))]
pub fn traf_in(m: &[u8], moof: usize) -> Spot
    requires { WholeBox m.now moof }
    ensures { StandsAt m.now (traf_in m.now) result }
{
    let whole = Spot {
        at: 0,
        head: moof,
        size: m.len(),
    };
    first_child(m, whole, TRAF)
}

// The start of a chunk: its `tfdt`.
pub fn start_in(m: &[u8], traf: Spot) -> u64
    requires { StandsAt m.now (traf_in m.now) traf × (length m.now ≤ byte_limit) }
    ensures { result ≡ start_of m.now }
{
    let tfdt = first_child(m, traf, TFDT);
    let body = tfdt.at + tfdt.head;
    if u8::read(m, body) == 1 {
        u64::read(m, body + 4)
    } else {
        u32::read(m, body + 4) as u64
    }
}

// The default flags: those of the `tfhd`, else those of `trex`.
#[tactic(auto, using(crate::proofs::Formed::flags_own, crate::proofs::Formed::flags_default))]
fn flags_in(m: &[u8], tfhd: Spot, d: Defaults) -> u32
    requires { StandsAt m.now (tfhd_in m.now) tfhd × (length m.now ≤ byte_limit) }
    ensures { result ≡ (defaults_in m.now d).flags }
{
    let body = tfhd.at + tfhd.head;
    let flags = U24::read(m, body + 1).value;
    if numbers::has(flags, 0x20) {
        return u32::read(m, body + default_offsets(flags).flags);
    }
    d.flags
}

// Whether the first sample of a chunk is a sync sample.
#[tactic(auto, using(crate::proofs::First::traf_runs, crate::proofs::Formed::sync_by_flags), unfolding(rules::specs::Chunk::tfhd_in))]
pub fn sync_in(m: &[u8], traf: Spot, d: Defaults) -> bool
    requires { StandsAt m.now (traf_in m.now) traf × (length m.now ≤ byte_limit) }
    ensures { result ≡ sync_in m.now d }
{
    let tfhd = first_child(m, traf, TFHD);
    let own = Defaults {
        duration: d.duration,
        size: d.size,
        flags: flags_in(m, tfhd, d),
    };
    let end = traf.at + traf.size;
    runs::again::first_sync(m, &m[..end], traf.at + traf.head, own)
}
