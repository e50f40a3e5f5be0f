// Rules 7 to 13: the header, over what `ftyp` tells and the bytes of `moov`, whole. Every place is one in those bytes.
// `WholeBox` and `LocatedIn` stand in the contracts beside the bytes: no plainer in one struct with them, as bodies.rt says.
#![tactic(auto)]

ghost use Rattle.std.specs.Prelude.{◌≡◌, length};
ghost use Rattle.rules.specs.Header.{rule7};
ghost use Rattle.boxes.specs.Stands.{WholeBox};
ghost use Rattle.header.specs.Places.{LocatedIn};
ghost use Rattle.header.specs.Answers.{HeadsAs, HeadsUpTo};
ghost use Rattle.header.specs.declared.HeaderFault.TheVariants.{OfMoov};

use bodies::read_bodies;
use containers::{Located, locate_boxes};
use rules::{Header, Refusal};
use values::rules_of_values;

mod bodies;
mod containers;
pub mod ftyp;
mod letters;
mod values;

// What a good header tells: its values, and where `mdhd` and `hdlr` stand in `moov`.
#[derive(Clone, Copy)]
pub struct HeaderFacts {
    pub header: Header,
    pub mdhd: usize,
    pub hdlr: usize,
}

// What is wrong with a header: rule 8 breaks at the body of `ftyp`, rule 9 at its brands, or a rule at a place of `moov`.
#[derive(Clone, Copy)]
pub enum HeaderFault {
    FtypBody,
    NoBrand,
    OfMoov(Refusal),
}

// A rule that breaks in `moov`.
impl From<Refusal> for HeaderFault {
    ghost from_gives = { λ e r. r ≡ OfMoov e };

    fn from(e: Refusal) -> HeaderFault {
        HeaderFault::OfMoov(e)
    }
}

// Rules 8 to 13, where rule 7 holds and `ftyp` has a good body.
fn check_bodies(branded: bool, m: &[u8], s: Located) -> Result<HeaderFacts, HeaderFault>
    requires { LocatedIn m.now s × (rule7 m.now ≡ Ok tt) }
    ensures heads_as { HeadsAs result (Some branded) m.now }
    ensures heads_up_to { HeadsUpTo result (length m.now) }
{
    let v = read_bodies(m, s)?;
    if !branded {
        return Err(HeaderFault::NoBrand);
    }
    rules_of_values(m, s, v)?;
    let header = Header {
        timescale: v.heads.timescale,
        id: v.heads.id,
        handler: v.heads.handler,
        defaults: v.trex.defaults,
    };
    Ok(HeaderFacts {
        header,
        mdhd: s.trak.mdhd.at,
        hdlr: s.trak.hdlr.at,
    })
}

// Rules 7 to 13 over what `ftyp` tells and the bytes of `moov`, whose header has some bytes.
pub fn check_header(f: Option<bool>, m: &[u8], head: usize) -> Result<HeaderFacts, HeaderFault>
    requires { WholeBox m.now head }
    ensures heads_as { HeadsAs result f m.now }
    ensures heads_up_to { HeadsUpTo result (length m.now) }
{
    let s = locate_boxes(m, head);
    s.rule?;
    let Some(branded) = f else {
        return Err(HeaderFault::FtypBody);
    };
    check_bodies(branded, m, s)
}
