// The samples of a run: their durations and sizes in all. From 8 rows on no number is turned around by itself: the first eight bytes of the rows are added up
// as they stand, the second, fourth, sixth and eighth of them also by themselves, in 16 bits each, and what the bytes of each place come to is put in order
// once for up to 256 rows. A column of numbers that stand side by side is taken as two.
// `FewRows` stands in six contracts: no plainer in a struct of rows and step, which would be made for one call, and one of them has the step as `STEP`.
ghost use Rattle.std.specs.Prelude.{◌≡◌, ◌+◌, ◌*◌, ◌/◌, ◌%◌, ◌≤◌, length};
ghost use Rattle.rules.specs.Limits.{sample_limit};
ghost use Rattle.rules.specs.Chunk.{duration_of, bytes_of};
ghost use Rattle.runs.specs.Trun.{FilledRun};
ghost use Rattle.runs.specs.Samples.{every_four, Summed, SumsRows, FewRows};
ghost use Rattle.runs.specs.Rows.{every_other, lanes, from_columns};

use crate::layout;
use crate::trun::Trun;
use numbers::BigEndian;
use rules::Defaults;

// Durations and sizes in all.
#[derive(Clone, Copy)]
pub struct Sums {
    pub ticks: u64,
    pub bytes: u64,
}

// So few rows that what the bytes of one place come to fits 16 bits.
const BLOCK: usize = 256;

// The eight bytes at a place, the first the lowest: one load.
#[tactic(auto, unfolding(crate::specs::Rows::every_other))]
fn row(rows: &[u8], p: usize) -> u64
    requires { p + 8 ≤ length rows.now }
    ensures { result ≡ every_other rows.now p + every_other rows.now (p + 1) * 256 }
{
    u64::from_le_bytes([
        rows[p],
        rows[p + 1],
        rows[p + 2],
        rows[p + 3],
        rows[p + 4],
        rows[p + 5],
        rows[p + 6],
        rows[p + 7],
    ])
}

// Every other byte of a number, from the lowest on, where it stands.
#[tactic(auto, unfolding(crate::specs::Rows::lanes))]
fn lanes(x: u64) -> u64
    ensures { result ≡ lanes x }
{
    x % 256
        + x / 65536 % 256 * 65536
        + x / 4294967296 % 256 * 4294967296
        + x / 281474976710656 % 256 * 281474976710656
}

// Four-byte numbers in all, by what their first and third bytes come to, and their second and fourth, in 16 bits each.
#[tactic(auto, unfolding(crate::specs::Rows::from_columns))]
fn from_columns(even: u64, odd: u64) -> u64
    ensures { result ≡ from_columns even odd }
{
    even % 65536 * 16777216 + odd % 65536 * 65536 + even / 65536 % 65536 * 256 + odd / 65536 % 65536
}

// The two sums of the rows of a block. The index stays: over `chunks_exact` LLVM takes rows of 12 and 16 bytes one by one, in 1.3 to 2.6 times the time.
fn block<const STEP: usize>(rows: &[u8]) -> Sums
    requires { (8 ≤ STEP) × (length rows.now / STEP ≤ 256) }
    ensures { SumsRows rows.now STEP result }
{
    let mut all: u64 = 0; // the rows' numbers in all, in 64 bits
    let mut odd: u64 = 0; // their second, fourth, sixth and eighth bytes in all, in 16 bits each
    for i in 0..rows.len() / STEP {
        let x = row(rows, STEP * i);
        all = all.wrapping_add(x);
        odd += lanes(x / 256);
    }
    // the other bytes in all: that fits 64 bits, so nothing is lost
    let even = all.wrapping_sub(odd % 72057594037927936 * 256);
    Sums {
        ticks: from_columns(even, odd),
        bytes: from_columns(even / 4294967296, odd / 4294967296),
    }
}

// The two sums of rows, number by number.
fn few_rows(rows: &[u8], step: usize) -> Sums
    requires { FewRows 8 step rows.now }
    ensures { SumsRows rows.now step result }
{
    let mut ticks: u64 = 0;
    let mut bytes: u64 = 0;
    for row in rows.chunks_exact(step) {
        ticks += u32::near(row, 0) as u64;
        bytes += u32::near(row, 4) as u64;
    }
    Sums { ticks, bytes }
}

// The two sums of rows, block by block.
fn many_rows<const STEP: usize>(rows: &[u8]) -> Sums
    requires { FewRows 8 STEP rows.now × (STEP ≤ 16) }
    ensures { SumsRows rows.now STEP result }
{
    let mut ticks: u64 = 0;
    let mut bytes: u64 = 0;
    for part in rows.chunks(BLOCK * STEP) {
        let sums = block::<STEP>(part);
        ticks += sums.ticks;
        bytes += sums.bytes;
    }
    Sums { ticks, bytes }
}

// The two sums of rows, with the steps that a run can have written out: a loop with such a step takes several rows at once. By itself: put into `sum_rows` it
// has each short run save registers for it.
#[inline(never)]
fn many_by_step(rows: &[u8], step: usize) -> Sums
    requires { FewRows 8 step rows.now }
    ensures { SumsRows rows.now step result }
{
    match step {
        8 => many_rows::<8>(rows),
        12 => many_rows::<12>(rows),
        16 => many_rows::<16>(rows),
        _ => few_rows(rows, step), // no run has another step
    }
}

// The two sums of rows that begin with two numbers.
fn sum_rows(rows: &[u8], step: usize) -> Sums
    requires { FewRows 8 step rows.now }
    ensures { SumsRows rows.now step result }
{
    if rows.len() / 8 < step {
        return few_rows(rows, step);
    }
    many_by_step(rows, step)
}

// The sum of the first number of each row, number by number.
fn few_numbers(rows: &[u8], step: usize) -> u64
    requires { FewRows 4 step rows.now }
    ensures { Summed (every_four rows.now 0 step) (length rows.now / step) result }
{
    let mut sum: u64 = 0;
    for row in rows.chunks_exact(step) {
        sum += u32::near(row, 0) as u64;
    }
    sum
}

// The sum of the first number of each row.
fn sum_column(rows: &[u8], step: usize) -> u64
    requires { FewRows 4 step rows.now }
    ensures { Summed (every_four rows.now 0 step) (length rows.now / step) result }
{
    if 8 <= step {
        return sum_rows(rows, step).ticks;
    }
    if step != 4 { // no run has such a step
        return few_numbers(rows, step);
    }
    // rows of two numbers, and one more
    let n = rows.len() / 4;
    let b = sum_rows(rows, 8);
    let last = if n % 2 == 1 {
        u32::near(rows, 4 * (n - 1))
    } else {
        0
    };
    b.ticks + b.bytes + last as u64
}

// A value that n samples share, n times.
#[tactic(auto, using(std::proofs::Common::arith, crate::proofs::Sums::summed_const))]
fn times(n: u32, x: u32) -> u64
    requires { n ≤ sample_limit }
    ensures { Summed (λ i. x) n result }
{
    n as u64 * x as u64
}

// The durations and the sizes of a run's samples.
pub fn sums_of(m: &[u8], run: Trun, d: Defaults) -> Sums
    requires { FilledRun m.now run.spot run.flags run.count × (run.count ≤ sample_limit) }
    ensures ticks { Summed (duration_of m.now d run.spot.at) run.count result.ticks }
    ensures bytes { Summed (bytes_of m.now d run.spot.at) run.count result.bytes }
{
    let from = run.spot.at + run.spot.head + layout::run_head(run.flags);
    let end = run.spot.at + run.spot.size;
    let rows = &m[from..end];
    let step = layout::stride(run.flags);
    match (
        numbers::has(run.flags, 0x100),
        numbers::has(run.flags, 0x200),
    ) {
        (true, true) => sum_rows(rows, step),
        (true, false) => Sums {
            ticks: sum_column(rows, step),
            bytes: times(run.count, d.size),
        },
        (false, true) => Sums {
            ticks: times(run.count, d.duration),
            bytes: sum_column(rows, step),
        },
        (false, false) => Sums {
            ticks: times(run.count, d.duration),
            bytes: times(run.count, d.size),
        },
    }
}
