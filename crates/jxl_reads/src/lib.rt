// Reading bits at a position of a lent slice: the position goes in and comes back by value. The rules are in `jxl_bit_rules`.
#![tactic(auto)]

ghost use Rattle.std.specs.Prelude.{◌≡◌};
ghost use Rattle.jxl_bit_rules.specs.Readers as F;
ghost use Rattle.jxl_bit_rules.specs.Told.{told};

use jxl_begin::Place;
use jxl_bit_rules::Read;

// The next `n` bits, up to 32, with missing bits as 0. Nothing is consumed.
#[tactic(auto, using(jxl_bit_rules::proofs::Parts::begun), unfolding(jxl_bit_rules::specs::Readers::peek))]
pub fn peek_bits(s: &[u8], at: usize, n: usize) -> Read<u32>
    ensures { told result ≡ F.peek n s.now at }
{
    let place = Place::new(s, at, 32 < n)?;
    Ok((place.look(n), place.at))
}

// The next `n` bits, up to 32.
#[tactic(auto, using(jxl_bit_rules::proofs::Parts::begun), unfolding(jxl_bit_rules::specs::Readers::read))]
pub fn read_bits(s: &[u8], at: usize, n: usize) -> Read<u32>
    ensures { told result ≡ F.read n s.now at }
{
    let place = Place::new(s, at, 32 < n)?;
    let (x, next) = place.read(n)?;
    Ok((x, next.at))
}

// `Bool`: 1 bit.
#[tactic(auto, unfolding(jxl_bit_rules::specs::Readers::bool))]
pub fn read_bool(s: &[u8], at: usize) -> Read<bool>
    ensures { told result ≡ F.bool s.now at }
{
    let (x, p) = read_bits(s, at, 1)?;
    Ok((x == 1, p))
}
