// The fields through a struct that holds the slice and the bit position. Each call is the call by position, thinly.
#![tactic(auto)]

ghost use Rattle.std.specs.Prelude.{◌≡◌};
ghost use Rattle.jxl_bit_rules.specs.Readers as R;
ghost use Rattle.jxl_bit_rules.specs.Told.{told, told_moved};
ghost use Rattle.jxl_field_rules.specs.Fields as F;
ghost use Rattle.jxl_results.specs.Results.{result_at};
ghost use Rattle.jxl_reader.specs.Through.{Made, Through};

use jxl_bit_rules::{Moved, Read};
use jxl_fields::U32Specifier;
use jxl_results::{BitstreamResult, split, split_move};

// A slice, and a bit position in it.
#[derive(Clone, Copy)]
pub struct Bitstream<'a> {
    bytes: &'a [u8],
    at: usize,
}

impl<'a> Bitstream<'a> {
    // A reader of the slice, at its first bit.
    pub fn new(bytes: &'a [u8]) -> Self
        ensures { Made bytes.entry result }
    {
        Bitstream { bytes, at: 0 }
    }

    // The count of bits read: the position as it stands.
    pub fn num_read_bits(&self) -> usize
        ensures { result ≡ self.now.at }
    {
        self.at
    }

    // Keeps the position of an answer, and hands its result on.
    fn keep<T>(&mut self, answer: Read<T>) -> BitstreamResult<T>
        ensures same { self.new.bytes ≡ self.old.bytes }
        ensures result_value { result_at result self.new.at ≡ told answer }
    {
        let (result, at) = split(answer);
        self.at = at;
        result
    }

    // The same of a move, whose answer has no value.
    fn keep_move(&mut self, answer: Moved) -> BitstreamResult<()>
        ensures same { self.new.bytes ≡ self.old.bytes }
        ensures result_value { result_at result self.new.at ≡ told_moved answer }
    {
        let (result, at) = split_move(answer);
        self.at = at;
        result
    }

    // The next `n` bits, up to 32, with missing bits as 0. Nothing is consumed.
    pub fn peek_bits(&mut self, n: usize) -> BitstreamResult<u32>
        ensures { Through (R.peek n) self.old self.new result }
    {
        self.keep(jxl_bits::peek_bits(self.bytes, self.at, n))
    }

    // Moves on by `n`, up to 32; where fewer bits are left it stays.
    pub fn consume_bits(&mut self, n: usize) -> BitstreamResult<()>
        ensures { Through (R.consume n) self.old self.new result }
    {
        self.keep_move(jxl_bits::consume_bits(self.bytes, self.at, n))
    }

    // The next `n` bits, up to 32.
    pub fn read_bits(&mut self, n: usize) -> BitstreamResult<u32>
        ensures { Through (R.read n) self.old self.new result }
    {
        self.keep(jxl_bits::read_bits(self.bytes, self.at, n))
    }

    // Moves on by `n`; where fewer bits are left it goes to the end.
    pub fn skip_bits(&mut self, n: usize) -> BitstreamResult<()>
        ensures { Through (R.skip n) self.old self.new result }
    {
        self.keep_move(jxl_bits::skip_bits(self.bytes, self.at, n))
    }

    // `ZeroPadToByte`.
    pub fn zero_pad_to_byte(&mut self) -> BitstreamResult<()>
        ensures { Through R.pad self.old self.new result }
    {
        self.keep_move(jxl_bits::zero_pad_to_byte(self.bytes, self.at))
    }

    // `U32`: one of four choices.
    pub fn read_u32(&mut self, d: [U32Specifier; 4]) -> BitstreamResult<u32>
        ensures { Through (F.u32 d) self.old self.new result }
    {
        self.keep(jxl_fields::read_u32(self.bytes, self.at, d))
    }

    // `U64`: at most 73 bits.
    pub fn read_u64(&mut self) -> BitstreamResult<u64>
        ensures { Through F.u64 self.old self.new result }
    {
        self.keep(jxl_fields::read_u64(self.bytes, self.at))
    }

    // `Bool`: 1 bit.
    pub fn read_bool(&mut self) -> BitstreamResult<bool>
        ensures { Through R.bool self.old self.new result }
    {
        self.keep(jxl_bits::read_bool(self.bytes, self.at))
    }

    // `F16`, as an f32.
    pub fn read_f16_as_f32(&mut self) -> BitstreamResult<f32>
        ensures { Through F.f16 self.old self.new result }
    {
        self.keep(jxl_fields::read_f16_as_f32(self.bytes, self.at))
    }

    // `Enum`: a value that the caller's list must hold.
    pub fn read_enum(&mut self, list: &[u32]) -> BitstreamResult<u32>
        ensures { Through (F.enum_of list.now) self.old self.new result }
    {
        self.keep(jxl_fields::read_enum(self.bytes, self.at, list))
    }
}
