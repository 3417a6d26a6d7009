// Fields read one behind the other, for the bench to call and time. Each driver reads `count` fields of its kind, and answers the
// sum of their values; it stops where one is refused.
#![tactic(auto)]

use jxl_bitstream::{Read, U32Specifier};

// The numbers of the transfer functions.
const TRANSFER: [u32; 7] = [1, 2, 8, 13, 16, 17, 18];
// The numbers of the colour spaces.
const COLOUR: [u32; 4] = [0, 1, 2, 3];

// Reads `count` fields, each where the one before it ended, and adds up what they hold.
fn sum_fields<T, S, R: FnMut(usize) -> Read<T>, A: Fn(S, T) -> S>(
    count: u64,
    zero: S,
    mut read: R,
    add: A,
) -> S
    requires { R.IsAlwaysCallable read × A.IsAlwaysCallable add }
{
    let mut at = 0;
    let mut sum = zero;
    for _ in 0..count {
        let Ok((x, next)) = read(at) else {
            return sum;
        };
        sum = add(sum, x);
        at = next;
    }
    sum
}

// A sum with one value more.
fn add<T: Into<u64>>(sum: u64, x: T) -> u64 {
    sum.wrapping_add(x.into())
}

// The width behind `width`, from 1 to `most` and from 1 again.
fn wider(width: usize, most: usize) -> usize {
    if width < most { width + 1 } else { 1 }
}

// `read_bits` of 1 to 32 bits in turn. The three drivers over widths stay apart: behind one closure over the width, what `sum_fields` requires
// of its reader was not proved.
#[unsafe(no_mangle)]
pub extern "C" fn bench_read_bits(s: &[u8], count: u64) -> u64 {
    let mut width = 0;
    let read = |at| {
        width = wider(width, 32);
        jxl_bitstream::read_bits(s, at, width)
    };
    sum_fields(count, 0, read, add)
}

// A field of `width` bits, peeked at and then consumed.
fn peek_and_consume(s: &[u8], at: usize, width: usize) -> Read<u32> {
    let (x, here) = jxl_bitstream::peek_bits(s, at, width)?;
    let next = jxl_bitstream::consume_bits(s, here, width)?;
    Ok((x, next))
}

// `peek_bits`, then `consume_bits`, of 1 to 32 bits in turn.
#[unsafe(no_mangle)]
pub extern "C" fn bench_peek(s: &[u8], count: u64) -> u64 {
    let mut width = 0;
    let read = |at| {
        width = wider(width, 32);
        peek_and_consume(s, at, width)
    };
    sum_fields(count, 0, read, add)
}

// Skips `width` bits: the place behind them, as a value too.
fn skip_to(s: &[u8], at: usize, width: usize) -> Read<u64> {
    let next = jxl_bitstream::skip_bits(s, at, width)?;
    Ok((next as u64, next))
}

// `skip_bits` of 1 to 128 bits in turn: the sum of the places.
#[unsafe(no_mangle)]
pub extern "C" fn bench_skip(s: &[u8], count: u64) -> u64 {
    let mut width = 0;
    let read = |at| {
        width = wider(width, 128);
        skip_to(s, at, width)
    };
    sum_fields(count, 0, read, add)
}

// `read_bool`.
#[unsafe(no_mangle)]
pub extern "C" fn bench_bool(s: &[u8], count: u64) -> u64 {
    sum_fields(count, 0, |at| jxl_bitstream::read_bool(s, at), add)
}

// `read_u32` of 1, 2 bits, 3 + 4 bits, 19 + 8 bits.
#[unsafe(no_mangle)]
pub extern "C" fn bench_u32(s: &[u8], count: u64) -> u64 {
    let choices = [
        U32Specifier::Constant(1),
        U32Specifier::BitsOffset(0, 2),
        U32Specifier::BitsOffset(3, 4),
        U32Specifier::BitsOffset(19, 8),
    ];
    sum_fields(count, 0, |at| jxl_bitstream::read_u32(s, at, choices), add)
}

// `read_u64`.
#[unsafe(no_mangle)]
pub extern "C" fn bench_u64(s: &[u8], count: u64) -> u64 {
    sum_fields(count, 0, |at| jxl_bitstream::read_u64(s, at), add)
}

// `read_enum` of the transfer functions.
#[unsafe(no_mangle)]
pub extern "C" fn bench_enum(s: &[u8], count: u64) -> u64 {
    let list = TRANSFER;
    sum_fields(count, 0, |at| jxl_bitstream::read_enum(s, at, &list), add)
}

// `read_f16_as_f32`: the sum of the numbers.
#[unsafe(no_mangle)]
pub extern "C" fn bench_f16(s: &[u8], count: u64) -> f32 {
    sum_fields(
        count,
        0.0,
        |at| jxl_bitstream::read_f16_as_f32(s, at),
        |sum, x| sum + x,
    )
}

// A size as an image header has it: a flag, a height, a ratio of 3 bits, a width. The sum of the four.
fn size_header(s: &[u8], at: usize) -> Read<u64> {
    let choices = [
        U32Specifier::BitsOffset(1, 9),
        U32Specifier::BitsOffset(1, 13),
        U32Specifier::BitsOffset(1, 18),
        U32Specifier::BitsOffset(1, 30),
    ];
    let (small, at) = jxl_bitstream::read_bool(s, at)?;
    let (height, at) = jxl_bitstream::read_u32(s, at, choices)?;
    let (ratio, at) = jxl_bitstream::read_bits(s, at, 3)?;
    let (width, at) = jxl_bitstream::read_u32(s, at, choices)?;
    Ok((add(add(add(u64::from(small), height), ratio), width), at))
}

// What may follow: an orientation of 3 bits, a depth, a colour space, a brightness, extensions. The sum of all but the
// brightness, which counts 1 where it is above 255.
fn metadata(s: &[u8], at: usize) -> Read<u64> {
    let list = COLOUR;
    let depths = [
        U32Specifier::Constant(8),
        U32Specifier::Constant(10),
        U32Specifier::Constant(12),
        U32Specifier::BitsOffset(1, 6),
    ];
    let (orientation, at) = jxl_bitstream::read_bits(s, at, 3)?;
    let (depth, at) = jxl_bitstream::read_u32(s, at, depths)?;
    let (colour, at) = jxl_bitstream::read_enum(s, at, &list)?;
    let (nits, at) = jxl_bitstream::read_f16_as_f32(s, at)?;
    let (extensions, at) = jxl_bitstream::read_u64(s, at)?;
    let small = add(add(u64::from(orientation), depth), colour);
    Ok((add(add(small, 255.0 < nits), extensions), at))
}

// A header of a size and of what may follow: the sum of both.
fn header(s: &[u8], at: usize) -> Read<u64> {
    let (size, at) = size_header(s, at)?;
    let (rest, at) = metadata(s, at)?;
    Ok((add(size, rest), at))
}

// Headers of a size and of what may follow.
#[unsafe(no_mangle)]
pub extern "C" fn bench_header(s: &[u8], count: u64) -> u64 {
    sum_fields(count, 0, |at| header(s, at), add)
}
