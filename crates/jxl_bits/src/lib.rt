// Bits by position: reading them and moving over them, which `jxl_reads` and `jxl_moves` do and this hands on, and the bits up to a byte.
// The rules are in `jxl_bit_rules`.
#![tactic(auto)]

ghost use Rattle.std.specs.Prelude.{◌≡◌};
ghost use Rattle.jxl_bit_rules.specs.Readers as F;
ghost use Rattle.jxl_bit_rules.specs.Told.{told_moved};

use jxl_begin::Place;
pub use jxl_begin::begin;
pub use jxl_bit_rules::{FieldRefusal, Moved, Read, Refused};
pub use jxl_moves::{consume_bits, skip_bits};
pub use jxl_reads::{peek_bits, read_bits, read_bool};

// `ZeroPadToByte`: the bits up to the next byte boundary, which must be 0.
#[tactic(auto, unfolding(jxl_bit_rules::specs::Readers::pad))]
pub fn zero_pad_to_byte(s: &[u8], at: usize) -> Moved
    ensures { told_moved result ≡ F.pad s.now at }
{
    let place = Place::new(s, at, false)?;
    let (x, next) = place.read((8 - place.at % 8) % 8)?;
    if x == 0 {
        Ok(next.at)
    } else {
        Err(Refused {
            refusal: FieldRefusal::NonZeroPadding,
            at: next.at,
        })
    }
}

// The count of bits read: the position as it stands.
pub fn num_read_bits(position: usize) -> usize
    ensures { result ≡ position }
{
    position
}
