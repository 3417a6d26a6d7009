// `U64`. The rules are in `jxl_field_rules`.
#![tactic(auto)]

ghost use Rattle.std.specs.Prelude.{◌≡◌, ◌^◌, ◌<◌, drop};
ghost use Rattle.jxl_begin.specs.Places.{here};
ghost use Rattle.jxl_bit_rules.specs.Told.{told};
ghost use Rattle.jxl_field_rules.specs.Fields as F;

use jxl_begin::Place;
use jxl_bit_rules::Read;

// The seventh time: 4 bits at 60, and no further flag.
#[tactic(auto, using(jxl_bit_rules::proofs::Parts::given, jxl_field_rules::proofs::ChunkLaws::placed), unfolding(jxl_field_rules::specs::Fields::chunks))]
fn last_chunk(place: Place, value: u64) -> Read<u64>
    requires { value < 2 ^ 60 }
    ensures { told result ≡ here (F.chunks (drop 6 F.places) value) place.entry }
{
    let (flag, after) = place.read(1)?;
    if flag != 1 {
        return Ok((value, after.at));
    }
    let (x, next) = after.read(4)?;
    Ok((value | u64::from(x) << 60, next.at))
}

// While a 1 bit follows, 8 bits at 12, 20, 28, 36, 44, 52 in turn.
fn chunks(start: Place, first: u64) -> Read<u64>
    requires { first < 2 ^ 12 }
    ensures { told result ≡ here (F.chunks F.places first) start.entry }
{
    let mut value = first;
    let mut place = start;
    for i in 0..6u64 {
        let (flag, after) = place.read(1)?;
        if flag != 1 {
            return Ok((value, after.at));
        }
        let (x, next) = after.read(8)?;
        value |= u64::from(x) << (12 + 8 * i);
        place = next;
    }
    last_chunk(place, value)
}

// What follows the selector of a `U64`. Under 3 it is one read, of no bits for 0: a width and an offset chosen cost less than a jump.
#[tactic(auto, using(jxl_bit_rules::proofs::Parts::given, jxl_field_rules::proofs::ChunkLaws::by_chunks))]
fn by_selector(place: Place, selector: u32) -> Read<u64>
    ensures { told result ≡ here (F.u64_by selector) place.entry }
{
    if 2 < selector {
        let (first, next) = place.read(12)?;
        return chunks(next, u64::from(first));
    }
    let width = if selector == 2 {
        8
    } else {
        4 * (selector as usize)
    };
    let offset = if selector == 2 {
        17
    } else {
        u64::from(selector)
    };
    let (x, next) = place.read(width)?;
    Ok((offset + u64::from(x), next.at))
}

// `U64`: at most 73 bits.
#[tactic(auto, unfolding(jxl_field_rules::specs::Fields::u64))]
pub fn read_u64(s: &[u8], at: usize) -> Read<u64>
    ensures { told result ≡ F.u64 s.now at }
{
    let place = Place::new(s, at, false)?;
    let (selector, next) = place.read(2)?;
    by_selector(next, selector)
}
