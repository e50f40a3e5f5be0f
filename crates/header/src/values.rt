// Rules 10 to 13: timescale, track IDs, handler and media header, empty tables; over what the bodies tell.
// `LocatedIn` stands in the contract: no plainer in one struct with the bytes, as bodies.rt says.
ghost use Rattle.std.specs.Prelude.{◌≡◌};
ghost use Rattle.rules.specs.Header.{pairs, rules_of_values};
ghost use Rattle.header.specs.Places.{places_by, LocatedIn};
ghost use Rattle.header.specs.Bodies.{ValuesIn};

use crate::bodies::Values;
use crate::containers::Located;
use crate::letters::spells;
use numbers::BigEndian;
use rules::{Rule, must};

// Whether the handler and the media header's type pair.
#[tactic(auto, unfolding(numbers::specs::Numbers::be4, rules::specs::Header::pairs))]
fn pairs(handler: u32, kind: u32) -> bool
    ensures { result ≡ pairs handler kind }
{
    if spells(handler, b"vide") {
        spells(kind, b"vmhd")
    } else if spells(handler, b"soun") {
        spells(kind, b"smhd")
    } else {
        spells(handler, b"subt") && spells(kind, b"sthd")
    }
}

// Rules 10 to 13, in this order.
pub fn rules_of_values(m: &[u8], s: Located, v: Values) -> Rule
    requires { LocatedIn m.now s × ValuesIn m.now s v }
    ensures { result ≡ rules_of_values m.now (places_by s) }
{
    let h = v.heads;
    let kind = u32::near(m, s.minf.media.at + 4);
    must(h.timescale != 0, 10, s.trak.mdhd.at as u64)
        .and(must(h.id != 0, 11, s.trak.tkhd.at as u64))
        .and(must(v.trex.id == h.id, 11, s.trex.at as u64))
        .and(must(pairs(h.handler, kind), 12, s.trak.hdlr.at as u64))
        .and(must(h.stsd == 1, 13, s.minf.stsd.at as u64))
        .and(must(v.stts == 0, 13, s.minf.stts.at as u64))
        .and(must(v.stsc == 0, 13, s.minf.stsc.at as u64))
        .and(must(v.stsz == 0, 13, s.minf.stsz.at as u64))
        .and(must(v.stco == 0, 13, s.minf.stco.at as u64))
}
