// What the program `intake` prints for the bytes of its input.
#![tactic(auto)]

ghost use Rattle.lines.specs.Puts.{Line};
ghost use Rattle.printed.specs.Printed.{printed};

// The bytes that the program holds; longer input is not looked at.
pub const INPUT_LIMIT: usize = 65536;

// The table is long enough for 65,536 bytes: an accepted chunk takes at least 92 bytes (a `moof` of 84 and the header of an
// empty `mdat`), and a fragment has a chunk. Beside a record's front of 6 bytes and the least `ftyp` and `moov`, of 472, there
// is room for at most 707 fragments, which have 708 boundaries.
const TABLE_ROOM: usize = 1024;

// A line of at most 128 bytes, and at most 21 for each number of the table, fit.
pub const TEXT_ROOM: usize = 32768;

// What the program prints for its input, at the start of the buffer; answers its length.
pub fn answer(input: &[u8], out: &mut [u8; TEXT_ROOM]) -> usize
    ensures { Line (printed input.now) out.old result out.new }
{
    if INPUT_LIMIT < input.len() {
        return lines::over_line(INPUT_LIMIT as u64, out);
    }
    let mut table = [0u64; TABLE_ROOM];
    let v = set::set_job(input, &mut table);
    lines::set_lines(bundle::count_tracks(input), v, &table, out)
}
