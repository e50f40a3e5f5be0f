// Rule 8 in `moov`: one reader a body, which answers what later rules need of it, or nothing where the body has another form.
// `Stands` and `LocatedIn` stand in each contract beside the bytes. With the bytes and a ghost field in `Located` it is no plainer: every clause would read
// `s.entry.m.now`, and every call of `fields` would take it apart again.
ghost use Rattle.std.specs.Prelude.{◌≡◌, ◌+◌, ◌≤◌};
ghost use Rattle.rules.specs.Fields.{either, at_least, field, timed};
ghost use Rattle.boxes.specs.Stands.{Stands};
ghost use Rattle.header.specs.Places.{LocatedIn};
ghost use Rattle.header.specs.Bodies.{SaysMvhd, SaysBody, SaysTrex, HeadsIn, BodiesAs};

use crate::containers::Located;
use fields::{Version, misformed};
use rules::{Defaults, Refusal, Spot};

// What `trex` tells: its track ID and its defaults.
#[derive(Clone, Copy)]
pub struct Trex {
    pub id: u32,
    pub defaults: Defaults,
}

// What `tkhd`, `mdhd`, `hdlr` and `stsd` tell.
#[derive(Clone, Copy)]
pub struct Heads {
    pub id: u32,
    pub timescale: u32,
    pub handler: u32,
    pub stsd: u32,
}

// What all bodies tell, of a sample table its count.
#[derive(Clone, Copy)]
pub struct Values {
    pub heads: Heads,
    pub stts: u32,
    pub stsc: u32,
    pub stsz: u32,
    pub stco: u32,
    pub trex: Trex,
}

// `mvhd`: 108 bytes in version 0, 120 in version 1.
#[tactic(auto, using(crate::proofs::Read::mvhd_says))]
fn read_mvhd(m: &[u8], b: Spot) -> Option<Version>
    requires { Stands m.now b }
    ensures { SaysMvhd result m.now b.at }
{
    fields::versioned(m, b, 108, 120)
}

// `tkhd` or `mdhd`, of one size in version 0 and another in version 1: the number behind its two times.
fn read_timed(m: &[u8], b: Spot, zero: usize, one: usize) -> Option<u32>
    requires { Stands m.now b × (24 ≤ zero) × (32 ≤ one) }
    ensures { SaysBody result (either zero one) (timed m.now b.at) m.now b.at }
{
    match fields::versioned(m, b, zero, one)? {
        Version::Zero => Some(fields::word(m, b, 12)),
        Version::One => Some(fields::word(m, b, 20)),
    }
}

// `hdlr` or a sample table, of at least a size: the number k bytes behind its header.
#[tactic(auto, using(crate::proofs::Read::good_body, crate::proofs::Read::bad))]
fn read_least(m: &[u8], b: Spot, least: usize, k: usize) -> Option<u32>
    requires { Stands m.now b × (12 + k ≤ least) }
    ensures { SaysBody result (at_least least) (field m.now b.at k) m.now b.at }
{
    if fields::is_at_least(m, b, least) {
        Some(fields::word(m, b, k))
    } else {
        None
    }
}

// `trex`: 32 bytes, version 0.
#[tactic(auto, using(crate::proofs::Read::bad, crate::proofs::Read::plain_fits))]
fn read_trex(m: &[u8], b: Spot) -> Option<Trex>
    requires { Stands m.now b }
    ensures { SaysTrex result m.now b.at }
{
    if !fields::is_plain(m, b, 32) {
        return None;
    }
    Some(Trex {
        id: fields::word(m, b, 4),
        defaults: Defaults {
            duration: fields::word(m, b, 12),
            size: fields::word(m, b, 16),
            flags: fields::word(m, b, 20),
        },
    })
}

// Rule 8 from `stts` on, after what was read before.
#[tactic(auto, using(crate::proofs::Eight::past, crate::proofs::Eight::stop, crate::proofs::Eight::past_heads), unfolding(rules::specs::Header::rule8))]
fn read_tables(m: &[u8], s: Located, heads: Heads) -> Result<Values, Refusal>
    requires { LocatedIn m.now s × HeadsIn m.now s heads }
    ensures { BodiesAs result m.now s }
{
    let Some(stts) = read_least(m, s.minf.stts, 16, 4) else {
        return Err(misformed(8, s.minf.stts));
    };
    let Some(stsc) = read_least(m, s.minf.stsc, 16, 4) else {
        return Err(misformed(8, s.minf.stsc));
    };
    let Some(stco) = read_least(m, s.minf.stco, 16, 4) else {
        return Err(misformed(8, s.minf.stco));
    };
    let Some(stsz) = read_least(m, s.minf.stsz, 20, 8) else {
        return Err(misformed(8, s.minf.stsz));
    };
    let Some(trex) = read_trex(m, s.trex) else {
        return Err(misformed(8, s.trex));
    };
    Ok(Values {
        heads,
        stts,
        stsc,
        stsz,
        stco,
        trex,
    })
}

// Rule 8 of the bodies in `moov`, in the paper's order.
#[tactic(auto, using(crate::proofs::Eight::past, crate::proofs::Eight::stop), unfolding(rules::specs::Header::rule8))]
pub fn read_bodies(m: &[u8], s: Located) -> Result<Values, Refusal>
    requires { LocatedIn m.now s }
    ensures { BodiesAs result m.now s }
{
    let Some(_) = read_mvhd(m, s.mvhd) else {
        return Err(misformed(8, s.mvhd));
    };
    let Some(id) = read_timed(m, s.trak.tkhd, 92, 104) else {
        return Err(misformed(8, s.trak.tkhd));
    };
    let Some(timescale) = read_timed(m, s.trak.mdhd, 32, 44) else {
        return Err(misformed(8, s.trak.mdhd));
    };
    let Some(handler) = read_least(m, s.trak.hdlr, 32, 8) else {
        return Err(misformed(8, s.trak.hdlr));
    };
    let Some(stsd) = read_least(m, s.minf.stsd, 16, 4) else {
        return Err(misformed(8, s.minf.stsd));
    };
    let heads = Heads {
        id,
        timescale,
        handler,
        stsd,
    };
    read_tables(m, s, heads)
}
