// Fields read through `Bitstream`. The README has this program's text.
#![tactic(auto)]

ghost use Rattle.std.specs.Prelude.{◌≡◌};
ghost use Rattle.jxl_bit_rules.specs.Told.{told};
ghost use Rattle.jxl_field_rules.specs.Fields as F;
ghost use Rattle.example_fields.specs.InTurn.{InTurn, after_flag};

use jxl_bitstream::{Bitstream, BitstreamResult, Read, Refused, U32Specifier};

#[derive(Clone, Copy)]
struct Fields {
    start: BitstreamResult<()>,
    flag: BitstreamResult<bool>,
    value: BitstreamResult<u32>,
    bits: usize,
}

// A flag and then a U32, from bit `at` on.
fn flag_and_u32(bytes: &[u8], at: usize, d: [U32Specifier; 4]) -> Fields
    ensures { InTurn bytes.now at d result }
{
    let mut b = Bitstream::new(bytes);
    let start = b.skip_bits(at);
    let flag = b.read_bool();
    let value = b.read_u32(d);
    let bits = b.num_read_bits();
    Fields {
        start,
        flag,
        value,
        bits,
    }
}

// The U32 with its position: the reader is behind it, refused or not.
fn u32_behind_flag(bytes: &[u8], at: usize, d: [U32Specifier; 4]) -> Read<u32>
    ensures { told result ≡ F.u32 d bytes.now (after_flag bytes.now at) }
{
    let Fields { value, bits, .. } = flag_and_u32(bytes, at, d);
    match value {
        Ok(v) => Ok((v, bits)),
        Err(refusal) => Err(Refused { refusal, at: bits }),
    }
}

// A line of what was read. Where it cannot be written, the program goes on.
fn tell(rt: &impl Print, answer: Read<u32>) {
    let _ = match answer {
        Ok((v, bits)) => println!(rt; "{v}, up to bit {bits}"),
        Err(refused) => println!(rt; "refused at bit {}", refused.at),
    };
}

fn main(rt: HostRuntime) {
    // 1, 2 bits, 3 + 4 bits, 19 + 8 bits
    let d = [
        U32Specifier::Constant(1),
        U32Specifier::BitsOffset(0, 2),
        U32Specifier::BitsOffset(3, 4),
        U32Specifier::BitsOffset(19, 8),
    ];
    tell(&rt, u32_behind_flag(b"e", 0, d));
    tell(&rt, u32_behind_flag(b"e", 4, d));
}
