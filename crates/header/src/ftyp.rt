// What `ftyp` tells: rule 8 of its body, and rule 9's compatible brands.
ghost use Rattle.std.specs.Prelude.{◌≡◌};
ghost use Rattle.rules.specs.Header.{is_brand, ftyp_in};
ghost use Rattle.boxes.specs.Stands.{WholeBox};

use crate::letters::spells;
use numbers::BigEndian;

// Whether a brand is `cmfc` or `cmf2`.
#[tactic(auto, unfolding(numbers::specs::Numbers::be4))]
fn is_brand(brand: u32) -> bool
    ensures { result ≡ is_brand brand }
{
    spells(brand, b"cmfc") || spells(brand, b"cmf2")
}

// What the bytes of `ftyp` tell, whose header has some bytes; its brands follow the major brand and the minor version.
#[tactic(auto, using(crate::proofs::Compatible::compatible))]
pub fn read_ftyp(f: &[u8], head: usize) -> Option<bool>
    requires { WholeBox f.now head }
    ensures { result ≡ ftyp_in f.now }
{
    let payload = f.len() - head;
    if payload < 8 || (payload - 8) % 4 != 0 {
        return None;
    }
    for brand in f[head + 8..].chunks_exact(4) {
        if is_brand(u32::near(brand, 0)) {
            return Some(true);
        }
    }
    Some(false)
}
