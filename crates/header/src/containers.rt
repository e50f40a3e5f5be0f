// Rule 7, container by container: the counts of its boxes, and where the first of each stands in `moov`.
// `StandsAt` and `LocatedIn` stand in each contract: no plainer in one struct with the bytes, as bodies.rt says.
ghost use Rattle.rules.specs.Header.{trak_in, minf_in};
ghost use Rattle.boxes.specs.Stands.{WholeBox, StandsAt};
ghost use Rattle.header.specs.Places.{TrakIn, MinfIn, LocatedIn};

use boxes::kinds;
use counts::{count_boxes, counts_if};
use rules::{Entry, Rule, Spot};

// The counts in `trak`, its `edts` and its `mdia`, and where their boxes stand.
#[derive(Clone, Copy)]
pub struct InTrak {
    pub trak: Rule,
    pub edts: Rule,
    pub mdia: Rule,
    pub tkhd: Spot,
    pub mdhd: Spot,
    pub hdlr: Spot,
    pub minf: Spot,
}

// The counts in `minf`, its `dinf` and its `stbl`, and where their boxes stand.
#[derive(Clone, Copy)]
pub struct InMinf {
    pub minf: Rule,
    pub dinf: Rule,
    pub stbl: Rule,
    pub media: Spot,
    pub stsd: Spot,
    pub stts: Spot,
    pub stsc: Spot,
    pub stsz: Spot,
    pub stco: Spot,
}

// What rule 7 says, and where the header's boxes stand in `moov`.
#[derive(Clone, Copy)]
pub struct Located {
    pub rule: Rule,
    pub mvhd: Spot,
    pub trak: InTrak,
    pub minf: InMinf,
    pub trex: Spot,
}

// `trak`: one `tkhd`, at most one `edts` with one `elst`, one `mdia` with one `mdhd`, one `hdlr`, at most one `elng`, one `minf`.
fn in_trak(m: &[u8], x: Spot) -> InTrak
    requires { StandsAt m.now (trak_in m.now) x }
    ensures { TrakIn m.now result }
{
    let none = Entry::Nothing;
    let tkhd = Entry::One(kinds::TKHD);
    let edts = Entry::AtMostOne(kinds::EDTS);
    let mdia = Entry::One(kinds::MDIA);
    let k = count_boxes(7, m, x, tkhd, edts, mdia);
    let trak = k.rule;
    let tkhd = k.a.first;
    let edts = k.b;
    let y = k.c.first;
    let mdhd = Entry::One(kinds::MDHD);
    let hdlr = Entry::One(kinds::HDLR);
    let elng = Entry::AtMostOne(kinds::ELNG);
    let minf = Entry::One(kinds::MINF);
    let k = count_boxes(7, m, y, mdhd, hdlr, elng);
    let front = k.rule;
    let mdhd = k.a.first;
    let hdlr = k.b.first;
    let k = count_boxes(7, m, y, minf, none, none);
    let last = k.rule;
    let minf = k.a.first;
    InTrak {
        trak,
        edts: counts_if(7, m, edts, Entry::One(kinds::ELST)),
        mdia: front.and(last),
        tkhd,
        mdhd,
        hdlr,
        minf,
    }
}

// `minf`: one in all of `vmhd`, `smhd`, `sthd`; one `dinf` with one `dref`; one `stbl` with one each of its five tables.
fn in_minf(m: &[u8], x: Spot) -> InMinf
    requires { StandsAt m.now (minf_in m.now) x }
    ensures { MinfIn m.now result }
{
    let none = Entry::Nothing;
    let media = Entry::OneInAll(kinds::VMHD, kinds::SMHD, kinds::STHD);
    let dinf = Entry::One(kinds::DINF);
    let stbl = Entry::One(kinds::STBL);
    let k = count_boxes(7, m, x, media, dinf, stbl);
    let minf = k.rule;
    let media = k.a.first;
    let dinf = k.b.first;
    let y = k.c.first;
    let dref = Entry::One(kinds::DREF);
    let k = count_boxes(7, m, dinf, dref, none, none);
    let dinf = k.rule;
    let stsd = Entry::One(kinds::STSD);
    let stts = Entry::One(kinds::STTS);
    let stsc = Entry::One(kinds::STSC);
    let stsz = Entry::One(kinds::STSZ);
    let stco = Entry::One(kinds::STCO);
    let k = count_boxes(7, m, y, stsd, stts, stsc);
    let front = k.rule;
    let stsd = k.a.first;
    let stts = k.b.first;
    let stsc = k.c.first;
    let k = count_boxes(7, m, y, stsz, stco, none);
    let last = k.rule;
    let stsz = k.a.first;
    let stco = k.b.first;
    InMinf {
        minf,
        dinf,
        stbl: front.and(last),
        media,
        stsd,
        stts,
        stsc,
        stsz,
        stco,
    }
}

// Rule 7: `moov` with one `mvhd`, `trak` and `mvex`, then what is in `trak`, then `mvex` with one `trex`.
pub fn locate_boxes(m: &[u8], head: usize) -> Located
    requires { WholeBox m.now head }
    ensures { LocatedIn m.now result }
{
    let none = Entry::Nothing;
    let size = m.len();
    let x = Spot { at: 0, head, size };
    let mvhd = Entry::One(kinds::MVHD);
    let trak = Entry::One(kinds::TRAK);
    let mvex = Entry::One(kinds::MVEX);
    let k = count_boxes(7, m, x, mvhd, trak, mvex);
    let moov = k.rule;
    let mvhd = k.a.first;
    let trak = k.b.first;
    let y = k.c.first;
    let t = in_trak(m, trak);
    let i = in_minf(m, t.minf);
    let trex = Entry::One(kinds::TREX);
    let k = count_boxes(7, m, y, trex, none, none);
    let mvex = k.rule;
    let trex = k.a.first;
    let in_trak = t.trak.and(t.edts).and(t.mdia);
    let in_minf = i.minf.and(i.dinf).and(i.stbl);
    Located {
        rule: moov.and(in_trak).and(in_minf).and(mvex),
        mvhd,
        trak: t,
        minf: i,
        trex,
    }
}
