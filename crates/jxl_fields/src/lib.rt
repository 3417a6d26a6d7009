// The fields made of bits: Enum and F16; and U32 and U64, which `jxl_u32` and `jxl_u64` read and this hands on. The rules are in
// `jxl_field_rules`.
#![tactic(auto)]

ghost use Rattle.std.specs.Prelude.{◌≡◌};
ghost use Rattle.jxl_begin.specs.Places.{here};
ghost use Rattle.jxl_bit_rules.specs.Told.{told};
ghost use Rattle.jxl_field_rules.specs.Fields as F;

use jxl_begin::Place;
use jxl_bit_rules::{FieldRefusal, Read, Refused};
pub use jxl_field_rules::U32Specifier;
use jxl_half::widen;
pub use jxl_u32::read_u32;
pub use jxl_u64::read_u64;

// The value of an `Enum`: `select` of 0, 1, 2 + 4 bits, 18 + 6 bits, with no choices passed through memory.
#[tactic(auto, using(jxl_bit_rules::proofs::Parts::given), unfolding(jxl_field_rules::specs::Fields::select))]
fn enum_value(place: Place) -> Read<u32>
    ensures { told result ≡ here (F.select F.four) place.entry }
{
    let (k, next) = place.read(2)?;
    let width = if k < 2 { 0 } else { 2 * (k as usize) };
    let offset = if k < 3 { k } else { 18 };
    let (x, then) = next.read(width)?;
    Ok((x + offset, then.at))
}

// `Enum`: a value that the caller's list must hold.
#[tactic(auto, unfolding(jxl_field_rules::specs::Fields::enum_of, jxl_field_rules::specs::Fields::u32, jxl_field_rules::specs::Fields::any_wide))]
pub fn read_enum(s: &[u8], at: usize, list: &[u32]) -> Read<u32>
    ensures { told result ≡ F.enum_of list.now s.now at }
{
    let place = Place::new(s, at, false)?;
    let (v, next) = enum_value(place)?;
    if list.contains(&v) {
        Ok((v, next))
    } else {
        Err(Refused {
            refusal: FieldRefusal::InvalidEnum(v),
            at: next,
        })
    }
}

// `F16`, as an f32.
#[tactic(auto, using(jxl_bit_rules::proofs::Parts::given), unfolding(jxl_field_rules::specs::Fields::f16))]
pub fn read_f16_as_f32(s: &[u8], at: usize) -> Read<f32>
    ensures result_value { told result ≡ F.f16 s.now at }
    ensures exactly_given { F.ExactlyGiven s.now at (told result) }
{
    let place = Place::new(s, at, false)?;
    let (v, next) = place.read(16)?;
    match widen(v as u16) {
        Some(x) => Ok((x, next.at)),
        None => Err(Refused {
            refusal: FieldRefusal::InvalidFloat,
            at: next.at,
        }),
    }
}
