// The quick way: a piece that ends in the middle of what the state is in the middle of, with no state decoded but its phase.
ghost use Rattle.pieces.specs.Form.{QuickFrom, QuickAside};
ghost use Rattle.pieces.specs.Steps.{GoesOn, CountsAside};

use crate::state::{NUMBERS, Phase};
use crate::{GATHER_LIMIT, HEAD, sound, state, step};
use framing::BYTE_LIMIT;

// The phase's first value behind a piece that ends in the middle of a box that passes by, of a gathered box, or of the first 8 bytes of a header: its
// bytes are counted or kept. Where it ends elsewhere nothing changes.
fn go_on(
    phase: Phase,
    head: &mut [u8; HEAD],
    kept: &mut [u8; GATHER_LIMIT],
    piece: &[u8],
) -> Option<usize>
    ensures goes { GoesOn result phase head.old kept.old piece.now head.new kept.new }
    ensures aside { CountsAside result phase head.old kept.old piece.now head.new kept.new }
{
    let n = piece.len();
    match phase {
        Phase::Skip { left, .. } if n < left => Some(left - n),
        Phase::Keep(held) if sound::open_box(kept, held) && n < sound::size_of(kept) - held => {
            step::copy_in(kept, held, piece);
            Some(held + n)
        }
        Phase::Head(held) if held < 8 && n < 8 - held => {
            step::copy_in(head, held, piece);
            Some(held + n)
        }
        _ => None,
    }
}

// A piece that ends in the middle of what the state is in the middle of: its bytes are kept or counted, and nothing else changes. Answers whether
// it does; where not, nothing changes.
pub fn quick(
    numbers: &mut [u64; NUMBERS],
    head: &mut [u8; HEAD],
    kept: &mut [u8; GATHER_LIMIT],
    piece: &[u8],
) -> bool
    ensures feeds { QuickFrom result numbers.old head.old kept.old piece.now
        numbers.new head.new kept.new }
    ensures aside { QuickAside result numbers.old head.old kept.old piece.now
        numbers.new head.new kept.new }
{
    let total = numbers[3] as usize;
    if BYTE_LIMIT < total || BYTE_LIMIT - total < piece.len() {
        return false;
    }
    let phase = state::phase_of(numbers[0], numbers[1], numbers[2]);
    let Some(first) = go_on(phase, head, kept, piece) else {
        return false;
    };
    state::move_on(numbers, first as u64, (total + piece.len()) as u64);
    true
}
