// The types of the written rules, most of them shared with the code, and how the code puts rules together. The rules themselves are definitions: see specs/.
#![tactic(auto)]

ghost use Rattle.std.specs.Prelude.{◌≡◌};
ghost use Rattle.rules.specs.Rules.{must, of_track};
ghost use Rattle.rules.specs.Pieces.{refused_as};

// Where a run of boxes stands: at the top, in a container that holds containers, or in any other.
#[derive(Clone, Copy)]
pub enum Path {
    Top,
    Moov,
    Moof,
    Trak,
    Mdia,
    Minf,
    Flat,
}

// What stands at a place of a slice: nothing, a broken header, or a box.
// An enum of its own: a Result of an Option with an error enum has the same five cases (`Boxes.on_look`) one level deeper, no plainer to take apart.
#[derive(Clone, Copy)]
pub enum Look {
    Nothing,
    Short,
    Small,
    Beyond,
    Good { head: usize, size: usize, kind: u32 },
}

// Where a box stands in a slice: its place, its header's length and its whole size.
#[derive(Clone, Copy)]
pub struct Spot {
    pub at: usize,
    pub head: usize,
    pub size: usize,
}

// Where a run of boxes is broken: the number of the rule and the place.
// The number is no enum: `pieces::state::phase_of` makes one of whatever number the lent memory holds, and `FinishesFrom` says the answer of each.
#[derive(Clone, Copy)]
pub struct Misframed {
    pub number: u64,
    pub place: usize,
}

// How a run of boxes is framed: whole, with the number of boxes so far, or broken at a place.
pub type Framing = Result<usize, Misframed>;

// The boxes of a kind in a run: none, one with its place, or more with the first two places.
// An enum of its own: three outcomes, each with its own places, which `Counts.on_seen` tells apart; an Option in an Option is no plainer.
#[derive(Clone, Copy)]
pub enum Seen {
    Never,
    Once(usize),
    Twice(usize, usize),
}

// What a container wants of its boxes: nothing more, one of a type, at most one, one or more, or one in all of three types.
#[derive(Clone, Copy)]
pub enum Entry {
    Nothing,
    One(u32),
    AtMostOne(u32),
    OneOrMore(u32),
    OneInAll(u32, u32, u32),
}

// A stage of rule 6: what the top level has read so far.
#[derive(Clone, Copy)]
pub enum Stage {
    Start,
    Typed,
    Headed,
    Halved,
    Paired,
}

// What stands at a place of a bundle: nothing, no good record, or a record with its track's length.
// An enum of its own: as a Result of an Option its callers in set would take two layers apart for the one case they want, no plainer.
#[derive(Clone, Copy)]
pub enum Mark {
    Nothing,
    Wrong,
    Track(usize),
}

// A rule that breaks: its number, its track and its place. The number is one of the paper's table, or whatever the memory of the form that takes pieces
// holds: that is lent, and its caller may have written any number there.
// No enum: `pieces::state::judged_from` makes a refusal of any of the 2^64 numbers, and `FinishesFrom` says the answer over any memory.
#[derive(Clone, Copy)]
pub struct Refusal {
    pub number: u64,
    pub track: u64,
    pub place: u64,
}

// What a rule, or a list of rules in their order, says: that all hold, or the first that breaks.
pub type Rule = Result<(), Refusal>;

// The places of the header's boxes, counted in the bytes of `moov`.
#[derive(Clone, Copy)]
pub struct Places {
    pub mvhd: usize,
    pub tkhd: usize,
    pub mdhd: usize,
    pub hdlr: usize,
    pub media: usize,
    pub stsd: usize,
    pub stts: usize,
    pub stsc: usize,
    pub stsz: usize,
    pub stco: usize,
    pub trex: usize,
}

// A default for each sample value.
#[derive(Clone, Copy)]
pub struct Defaults {
    pub duration: u32,
    pub size: u32,
    pub flags: u32,
}

// What the header tells the chunks and the set.
#[derive(Clone, Copy)]
pub struct Header {
    pub timescale: u32,
    pub id: u32,
    pub handler: u32,
    pub defaults: Defaults,
}

// What is known of a track: what its header tells, where `mdhd` and `hdlr` stand in it, the number of its fragments, whether the first sample of
// each chunk is sync, so that each begins one, the first start and the last end, which a track with no chunk so far has not.
#[derive(Clone, Copy)]
pub struct TrackFacts {
    pub header: Header,
    pub mdhd: u64,
    pub hdlr: u64,
    pub fragments: u64,
    pub plain: bool,
    pub start: Option<u64>,
    pub end: Option<u64>,
}

// What the rules of a track come to: all hold, with what is known of it, or the first that breaks.
pub type Judged = Result<TrackFacts, Refusal>;

// A stage of rule 6 with what the boxes up to it brought: nothing yet; what `ftyp` tells; the header's rules; a `moof` that waits for its
// `mdat`; a chunk's rules.
#[derive(Clone, Copy)]
pub enum Reached {
    Start,
    Typed(Option<bool>),
    Headed(Judged),
    Halved(Judged, Spot),
    Paired(Judged),
}

// What a track has come to after some of its boxes: a stage that they reached, or the place where the order breaks.
pub type Course = Result<Reached, usize>;

// What a job answers.
#[derive(Clone, Copy)]
pub struct Verdict {
    pub number: u64,
    pub track: u64,
    pub place: u64,
    pub count: u64,
    pub timescale: u64,
}

// What the form that takes pieces answers: a verdict, and the first and the last boundary.
#[derive(Clone, Copy)]
pub struct Answer {
    pub verdict: Verdict,
    pub first: u64,
    pub last: u64,
}

impl Refusal {
    // By its number, its track and its place.
    pub fn new(number: u64, track: u64, place: u64) -> Refusal
        ensures { result ≡ record { number = number; track = track; place = place } }
    {
        Refusal {
            number,
            track,
            place,
        }
    }
}

// A test that must hold, with the number and the place of its refusal. Its callers write the number as the paper's table has it: a name for each is no plainer.
#[tactic(auto, unfolding(crate::specs::Rules::must))]
pub fn must(ok: bool, number: u64, place: u64) -> Rule
    ensures { result ≡ must ok number place }
{
    if ok {
        Ok(())
    } else {
        Err(Refusal {
            number,
            track: 0,
            place,
        })
    }
}

// A track's rule, or what its rules come to, as track k of a set.
#[tactic(auto, unfolding(crate::specs::Rules::of_track))]
pub fn of_track<T>(k: u64, judged: Result<T, Refusal>) -> Result<T, Refusal>
    ensures { result ≡ of_track k judged }
{
    judged.map_err(|e| Refusal { track: k, ..e })
}

// A broken framing, as the refusal of a track.
impl From<Misframed> for Refusal {
    ghost from_gives = { λ m r. r ≡ record { number = m.number; track = 0; place = m.place } };

    fn from(m: Misframed) -> Refusal {
        Refusal::new(m.number, 0, m.place as u64)
    }
}

// A refusal, as what a job answers: no count, no timescale.
impl From<Refusal> for Verdict {
    ghost from_gives = { λ e v. v ≡ record { number = e.number; track = e.track; place = e.place; count = 0; timescale = 0 } };

    fn from(e: Refusal) -> Verdict {
        Verdict {
            number: e.number,
            track: e.track,
            place: e.place,
            count: 0,
            timescale: 0,
        }
    }
}

// A refusal, as what the form that takes pieces answers: no boundaries.
impl From<Refusal> for Answer {
    ghost from_gives = { λ e a. a ≡ refused_as e.number e.track e.place };

    fn from(e: Refusal) -> Answer {
        Answer {
            verdict: e.into(),
            first: 0,
            last: 0,
        }
    }
}
