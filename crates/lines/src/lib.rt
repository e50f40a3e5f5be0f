// What the programs print, as lines in a lent buffer.
#![tactic(auto)]

ghost use Rattle.std.specs.Prelude.{◌≡◌, ◌∷◌, [], ◌++◌, ◌+◌, ◌*◌, ◌≤◌, length, take};
ghost use Rattle.lines.specs.Lines.{decimal, field_of, line_end, spaced, case_line};
ghost use Rattle.lines.specs.Lines.{accepted_line, refused_line, tick_line, tick_lines, over_line, verdict_lines, set_lines, answer_lines};
ghost use Rattle.lines.specs.Puts.{Line};
ghost use Rattle.lines.specs.Texts.{Puts};

use rules::{Answer, Verdict};

// The room for an answer's lines: one of at most 128 bytes, and two of at most 21.
pub const ANSWER_ROOM: usize = 170;

// A text at the start of a lent buffer: so many of its bytes. Behind them the buffer is as it was.
// Not by Display and `write!`: these promise bytes at Ok alone, and never that a writer that takes all gets Ok; `set_lines` and the others may not fail.
#[derive(Drop)]
struct Text<'a> {
    buffer: &'a mut [u8],
    len: usize,
}

impl<'a> Text<'a> {
    // No bytes yet.
    fn new(buffer: &'a mut [u8]) -> Text<'a>
        ensures same { result.buffer.ghost_name ≡ buffer.entry.ghost_name }
        ensures now { result.buffer.now ≡ buffer.old }
        ensures empty { result.len ≡ 0 }
    {
        Text { buffer, len: 0 }
    }

    // Puts bytes behind it.
    #[tactic(auto, using(crate::proofs::Texts::copied))]
    fn put(&mut self, bytes: &[u8]) -> &mut Self
        requires { self.old.len + length bytes.now ≤ length self.old.buffer.now }
        ensures same { result.ghost_name ≡ self.entry.ghost_name }
        ensures puts { Puts self.old bytes.now result.now }
    {
        let next = self.len + bytes.len();
        self.buffer[self.len..next].copy_from_slice(bytes);
        self.len = next;
        self
    }

    // Puts a number's decimal digits behind it.
    #[tactic(auto, using(crate::proofs::Digits::written))]
    fn number(&mut self, n: u64) -> &mut Self
        requires { self.old.len + 20 ≤ length self.old.buffer.now }
        ensures same { result.ghost_name ≡ self.entry.ghost_name }
        ensures puts { Puts self.old (decimal n) result.now }
        ensures upper_bound { result.now.len ≤ self.old.len + 20 }
    {
        self.put(itoa::Buffer::new().format(n).as_bytes())
    }

    // Puts a text and a number behind it.
    fn field(&mut self, text: &[u8], n: u64) -> &mut Self
        requires { self.old.len + length text.now + 20 ≤ length self.old.buffer.now }
        ensures same { result.ghost_name ≡ self.entry.ghost_name }
        ensures puts { Puts self.old (field_of text.now n) result.now }
        ensures upper_bound { result.now.len ≤ self.old.len + length text.now + 20 }
    {
        self.put(text).number(n)
    }

    // Ends its line.
    fn line_end(&mut self) -> &mut Self
        requires { self.old.len + 1 ≤ length self.old.buffer.now }
        ensures same { result.ghost_name ≡ self.entry.ghost_name }
        ensures puts { Puts self.old line_end result.now }
    {
        self.put(b"\n")
    }

    // Puts the line of a refused set behind it.
    fn refused(&mut self, v: Verdict) -> &mut Self
        requires { self.old.len + 128 ≤ length self.old.buffer.now }
        ensures same { result.ghost_name ≡ self.entry.ghost_name }
        ensures puts { Puts self.old (refused_line v.number v.track v.place) result.now }
        ensures upper_bound { result.now.len ≤ self.old.len + 128 }
    {
        self.field(b"refused ", v.number)
            .field(b" track ", v.track)
            .field(b" at ", v.place)
            .line_end()
    }

    // Puts the line of an accepted set behind it.
    fn accepted(&mut self, tracks: u64, v: Verdict) -> &mut Self
        requires { self.old.len + 128 ≤ length self.old.buffer.now }
        ensures same { result.ghost_name ≡ self.entry.ghost_name }
        ensures puts { Puts self.old (accepted_line tracks v.count v.timescale) result.now }
        ensures upper_bound { result.now.len ≤ self.old.len + 128 }
    {
        self.field(b"accepted tracks ", tracks)
            .field(b" fragments ", v.count)
            .field(b" timescale ", v.timescale)
            .line_end()
    }

    // Puts numbers behind it, one a line.
    fn ticks(&mut self, ticks: &[u64]) -> &mut Self
        requires { self.old.len + 21 * length ticks.now ≤ length self.old.buffer.now }
        ensures same { result.ghost_name ≡ self.entry.ghost_name }
        ensures puts { Puts self.old (tick_lines ticks.now) result.now }
        ensures upper_bound { result.now.len ≤ self.old.len + 21 * length ticks.now }
    {
        for &tick in ticks {
            self.number(tick).line_end();
        }
        self
    }

    // Puts the five numbers of a verdict behind it, a space before each.
    fn verdict(&mut self, v: Verdict) -> &mut Self
        requires { self.old.len + 105 ≤ length self.old.buffer.now }
        ensures same { result.ghost_name ≡ self.entry.ghost_name }
        ensures puts { Puts self.old (spaced v) result.now }
        ensures upper_bound { result.now.len ≤ self.old.len + 105 }
    {
        self.field(b" ", v.number)
            .field(b" ", v.track)
            .field(b" ", v.place)
            .field(b" ", v.count)
            .field(b" ", v.timescale)
    }
}

// The lines of a verdict on so many tracks, with the boundaries given, at the start of the buffer; answers their length.
fn verdict_lines(tracks: u64, v: Verdict, ticks: &[u64], out: &mut [u8]) -> usize
    requires { 128 + 21 * length ticks.now ≤ length out.old }
    ensures { Line (verdict_lines tracks v ticks.now) out.old result out.new }
{
    let mut text = Text::new(out);
    if v.number == 0 {
        text.accepted(tracks, v).ticks(ticks);
    } else {
        text.refused(v);
    }
    text.len
}

// The lines of the set job's outcome, at the start of the buffer; answers their length.
// It answers a length, as do the others, and no slice, which is no plainer: only a clause on the end of the loan could say what stands behind the lines.
pub fn set_lines(tracks: u64, v: Verdict, t: &[u64], out: &mut [u8]) -> usize
    requires { 128 + 21 * length t.now ≤ length out.old }
    ensures { Line (set_lines tracks (record { verdict = v; table = t.now })) out.old result out.new }
{
    let ticks = t.get(..=v.count as usize).unwrap_or(t);
    verdict_lines(tracks, v, ticks, out)
}

// The lines of the answer of the form that takes pieces, at the start of the buffer; answers their length.
pub fn answer_lines(a: Answer, out: &mut [u8]) -> usize
    requires { 170 ≤ length out.old }
    ensures { Line (answer_lines a) out.old result out.new }
{
    verdict_lines(1, a.verdict, &[a.first, a.last], out)
}

// The line of an input over a limit, at the start of the buffer; answers its length.
pub fn over_line(limit: u64, out: &mut [u8]) -> usize
    requires { 128 ≤ length out.old }
    ensures { Line (over_line limit) out.old result out.new }
{
    let mut text = Text::new(out);
    text.field(b"input over ", limit).put(b" bytes").line_end();
    text.len
}

// The line of a test case, at the start of the buffer; answers its length.
pub fn case_line(job: u64, v: Verdict, sum: u64, out: &mut [u8]) -> usize
    requires { 160 ≤ length out.old }
    ensures { Line (case_line job v sum) out.old result out.new }
{
    let mut text = Text::new(out);
    text.number(job).verdict(v).field(b" ", sum).line_end();
    text.len
}
