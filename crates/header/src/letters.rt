// Four letters: types, brands and handlers beside fixed byte strings.
ghost use Rattle.std.specs.Prelude.{◌≡◌, eqb};
ghost use Rattle.numbers.specs.Numbers.{be4};

use numbers::BigEndian;

// Whether a type, a brand or a handler has these four letters.
pub fn spells(kind: u32, letters: &[u8; 4]) -> bool
    ensures { result ≡ eqb kind (be4 letters.now 0) }
{
    kind == u32::near(letters, 0)
}
