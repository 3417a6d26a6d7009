// Field calls and their answers as lines of text, one call a line, in the language of the stored list of the Rust's answers.
#![tactic(auto)]

ghost use Rattle.std.specs.Prelude.{◌≡◌, ◌<◌, ◌≤◌, length};
ghost use Rattle.replay_text.specs.Held.{held};

use jxl_bitstream::{FieldRefusal, Moved, Read, Refused, U32Specifier};
use replay_text::{Bytes, digit_of, leading_number, skip};
use std::fmt;
use std::fmt::Write;

// The bytes of a buffer that a line makes, at most.
pub const BUFFER_MOST: usize = 32;
// The bytes of an answer's text, at most: no text is longer.
pub const ANSWER_MOST: usize = 64;
// The numbers of an enum's list, at most.
const LIST_MOST: usize = 16;

// The buffer that a line made, and the position that the calls on it have come to.
#[derive(Clone, Copy)]
pub struct Buffer {
    pub bytes: Bytes<BUFFER_MOST>,
    pub at: usize,
}

// Lent bytes, as many as there are, and the position that the calls on them have come to.
#[derive(Clone, Copy)]
pub struct LentBuffer<'b> {
    pub bytes: &'b [u8],
    pub at: usize,
}

// What an answer tells besides the position: a number, an f32's bits, nothing, or a checksum, which stands alone.
#[derive(Clone, Copy)]
enum Value {
    Number(u64),
    Bits(u32),
    Nothing,
    Sum(u32),
}

// A refusal, by its name in the list.
#[derive(Clone, Copy)]
struct Name(FieldRefusal);

impl fmt::Display for Name {
    fn fmt<W: fmt::Write>(&self, f: &mut fmt::Formatter<W>) -> fmt::Result {
        match self.0 {
            FieldRefusal::UnexpectedEof => f.write_str("eof"),
            FieldRefusal::NonZeroPadding => f.write_str("pad"),
            FieldRefusal::InvalidFloat => f.write_str("float"),
            FieldRefusal::InvalidEnum(v) => write!(f, "enum {v}"),
            FieldRefusal::Width => f.write_str("width"),
            FieldRefusal::TooLong => f.write_str("long"),
        }
    }
}

// An answer as the list tells it.
fn answer_text(answer: Read<Value>) -> Bytes<ANSWER_MOST> {
    let mut text = Bytes::new();
    let _ = match answer {
        Ok((Value::Number(v), at)) => write!(text, "{v} {at}"),
        Ok((Value::Bits(v), at)) => write!(text, "{v:08x} {at}"),
        Ok((Value::Nothing, at)) => write!(text, "{at}"),
        Ok((Value::Sum(v), _)) => write!(text, "{v:08x}"),
        Err(Refused { refusal, at }) => {
            let name = Name(refusal);
            write!(text, "{name} {at}")
        }
    };
    text
}

// The position that an answer leaves.
fn place_behind(answer: Read<Value>) -> usize {
    match answer {
        Ok((_, at)) => at,
        Err(refused) => refused.at,
    }
}

// The f32's bits, or the refusal. An F16 that is given is a number.
#[tactic(auto, using(jxl_half::proofs::Halves::has_number))]
fn f16_bits(s: &[u8], at: usize) -> Read<u32> {
    let (x, next) = jxl_bitstream::read_f16_as_f32(s, at)?;
    Ok((x.to_bits(), next))
}

// A checksum with one number more, below the largest prime below 2^32.
fn mixed(sum: u32, x: u32) -> u32 {
    ((u64::from(sum) * 31 + u64::from(x)) % 4_294_967_291) as u32
}

// The checksum of the 1,024 codes with these six highest bits: of each the f32's bits, or all ones where it is refused.
fn checksum(top: u16) -> u32
    requires { top < 64 }
{
    let mut sum = 0;
    for low in 0..1024 {
        let code = top * 1024 + low;
        let x = match f16_bits(&code.to_le_bytes(), 0) {
            Ok((bits, _)) => bits,
            Err(_) => u32::MAX,
        };
        sum = mixed(sum, x);
    }
    sum
}

// A choice, `c` and a constant, or an offset, a `+` and a width; and what stands behind it and a space.
fn choice(text: &[u8]) -> (U32Specifier, &[u8]) {
    if let Some(constant) = text.strip_prefix(b"c") {
        let (c, behind) = leading_number(constant, 10);
        let c = (c % 0x1_0000_0000) as u32;
        return (U32Specifier::Constant(c), skip(behind, 1));
    }
    let (offset, behind) = leading_number(text, 10);
    let (width, behind) = leading_number(skip(behind, 1), 10);
    let offset = (offset % 0x1_0000_0000) as u32;
    (
        U32Specifier::BitsOffset(offset, width as usize),
        skip(behind, 1),
    )
}

fn call_u32(s: &[u8], at: usize, words: &[u8]) -> Read<u32> {
    let (a, behind) = choice(words);
    let (b, behind) = choice(behind);
    let (c, behind) = choice(behind);
    let (d, _) = choice(behind);
    jxl_bitstream::read_u32(s, at, [a, b, c, d])
}

// The numbers of a list with commas, at the front of an array, and how many they are; `-` is the empty list. Split by hand, by what stands
// behind each number: a byte that is no comma ends the list.
fn numbers(words: &[u8]) -> ([u32; LIST_MOST], usize)
    ensures { result.1 ≤ 16 }
{
    let mut list = [0; LIST_MOST];
    if words.starts_with(b"-") {
        return (list, 0);
    }
    let mut rest = words;
    for (i, place) in list.iter_mut().enumerate() {
        let (x, behind) = leading_number(rest, 10);
        *place = (x % 0x1_0000_0000) as u32;
        let Some(next) = behind.strip_prefix(b",") else {
            return (list, i + 1);
        };
        rest = next;
    }
    (list, LIST_MOST)
}

fn call_enum(s: &[u8], at: usize, words: &[u8]) -> Read<u32> {
    let (list, count) = numbers(words);
    jxl_bitstream::read_enum(s, at, &list[..count])
}

fn number<T: Into<u64>>(answer: Read<T>) -> Read<Value> {
    let (v, at) = answer?;
    Ok((Value::Number(v.into()), at))
}

fn place(answer: Moved) -> Read<Value> {
    Ok((Value::Nothing, answer?))
}

fn f32_bits(answer: Read<u32>) -> Read<Value> {
    let (bits, at) = answer?;
    Ok((Value::Bits(bits), at))
}

// The call of a line, by its letter. One that is not named here asks for a checksum. A match and no table: calls differ in what they take.
fn call(s: &[u8], at: usize, line: &[u8]) -> Read<Value> {
    let words = skip(line, 2);
    let n = leading_number(words, 10).0 as usize;
    match line.first().copied().unwrap_or(0) {
        b'k' => number(jxl_bitstream::peek_bits(s, at, n)),
        b'r' => number(jxl_bitstream::read_bits(s, at, n)),
        b'c' => place(jxl_bitstream::consume_bits(s, at, n)),
        b's' => place(jxl_bitstream::skip_bits(s, at, n)),
        b'z' => place(jxl_bitstream::zero_pad_to_byte(s, at)),
        b'w' => number(call_u32(s, at, words)),
        b'e' => number(call_enum(s, at, words)),
        b'q' => number(jxl_bitstream::read_u64(s, at)),
        b'b' => number(jxl_bitstream::read_bool(s, at)),
        b'f' => f32_bits(f16_bits(s, at)),
        _ => Ok((Value::Sum(checksum((n % 64) as u16)), at)),
    }
}

// What a hexadecimal digit counts; any other byte counts 0.
fn nibble(b: u8) -> u8
    ensures { result < 16 }
{
    digit_of(b).unwrap_or(0)
}

// The byte that two digits tell; a digit that is missing counts 0.
fn hex_byte(pair: &[u8]) -> u8 {
    match pair {
        [high, low] => nibble(*high) * 16 + nibble(*low),
        [high] => nibble(*high) * 16,
        _ => 0,
    }
}

impl Buffer {
    // The buffer with no bytes.
    pub fn empty() -> Buffer
        ensures { (length (held result.bytes) ≡ 0) × (result.at ≡ 0) }
    {
        Buffer {
            bytes: Bytes::new(),
            at: 0,
        }
    }

    // The buffer that a line makes: two hexadecimal digits a byte, from the third place on.
    pub fn from_line(line: &[u8]) -> Buffer
        ensures { (length (held result.bytes) ≤ 32) × (result.at ≡ 0) }
    {
        let mut bytes = Bytes::new();
        let pairs = skip(line, 2).chunks(2);
        for pair in pairs.take_while(|pair| pair.first().is_some_and(|high| b'0' <= *high)) {
            bytes.push(&[hex_byte(pair)]);
        }
        Buffer { bytes, at: 0 }
    }

    // Runs the call of a line, and answers the answer's text.
    pub fn call(&mut self, line: &[u8]) -> Bytes<ANSWER_MOST>
        ensures { held self.new.bytes ≡ held self.old.bytes }
    {
        let answer = call(self.bytes.as_bytes(), self.at, line);
        self.at = place_behind(answer);
        answer_text(answer)
    }
}

impl LentBuffer<'_> {
    // Runs the call of a line, and answers the answer's text.
    pub fn call(&mut self, line: &[u8]) -> Bytes<ANSWER_MOST>
        ensures { self.new.bytes.now ≡ self.old.bytes.now }
    {
        let answer = call(self.bytes, self.at, line);
        self.at = place_behind(answer);
        answer_text(answer)
    }
}

#[cfg(test)]
mod tests {
    use super::*;

    // the first two lines of the stored list
    #[test]
    fn a_call_answers_as_the_rust(rt: HostRuntime) {
        let mut buffer = Buffer::from_line(b"n 32");
        let answer = buffer.call(b"w c1 0+2 3+4 19+8 = 15 6");
        assert_eq!(rt; answer.as_bytes(), b"15 6".as_slice());
    }

    // more bytes than a line makes
    #[test]
    fn a_call_reads_what_is_lent(rt: HostRuntime) {
        let mut bytes = [0; 100];
        bytes[99] = 0x5a;
        let mut lent = LentBuffer {
            bytes: &bytes,
            at: 792,
        };
        let answer = lent.call(b"r 8");
        assert_eq!(rt; answer.as_bytes(), b"90 800".as_slice());
        assert_eq!(rt; lent.at, 800);
    }
}
