// `U32`. The rules are in `jxl_field_rules`.
#![tactic(auto)]

ghost use Rattle.std.specs.Prelude.{◌≡◌, false};
ghost use Rattle.jxl_begin.specs.Places.{here};
ghost use Rattle.jxl_bit_rules.specs.Told.{told};
ghost use Rattle.jxl_field_rules.specs.Fields as F;
ghost use Rattle.jxl_field_rules.specs.Inside.{width_of, offset_of, any_over, select_of};

use jxl_begin::Place;
use jxl_bit_rules::Read;
use jxl_field_rules::U32Specifier;

// A choice is read as an offset and a width, a constant as an offset with no bits: so which kind it is takes no jump.
fn width_of(d: U32Specifier) -> usize
    ensures { result ≡ width_of d }
{
    match d {
        U32Specifier::Constant(_) => 0,
        U32Specifier::BitsOffset(_, n) => n,
    }
}

fn offset_of(d: U32Specifier) -> u32
    ensures { result ≡ offset_of d }
{
    match d {
        U32Specifier::Constant(c) => c,
        U32Specifier::BitsOffset(offset, _) => offset,
    }
}

// The selector, and the choice that it names. Two arrays and not one of pairs: `select_of` of jxl_field_rules takes the two lists.
#[tactic(auto, using(jxl_bit_rules::proofs::Parts::given, jxl_field_rules::proofs::Choices::narrow), unfolding(jxl_field_rules::specs::Inside::select_of))]
fn select(place: Place, widths: [usize; 4], offsets: [u32; 4]) -> Read<u32>
    requires { any_over widths ≡ false }
    ensures { told result ≡ here (select_of widths offsets) place.entry }
{
    let (k, next) = place.read(2)?;
    let i = k as usize;
    let (x, then) = next.read(widths[i])?;
    let offset = offsets[i];
    Ok((x.wrapping_add(offset), then.at))
}

// `U32`: one of four choices.
pub fn read_u32(s: &[u8], at: usize, d: [U32Specifier; 4]) -> Read<u32>
    ensures { told result ≡ F.u32 d s.now at }
{
    let [a, b, c, e] = d;
    let widths = [width_of(a), width_of(b), width_of(c), width_of(e)];
    let offsets = [offset_of(a), offset_of(b), offset_of(c), offset_of(e)];
    let wide = (32 < widths[0]) | (32 < widths[1]) | (32 < widths[2]) | (32 < widths[3]);
    let place = Place::new(s, at, wide)?;
    select(place, widths, offsets)
}
