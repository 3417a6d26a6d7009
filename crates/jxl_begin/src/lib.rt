// What comes before every reading of bits and every move over them, and the place where it then stands. The rules are in `jxl_bit_rules`.
#![tactic(auto)]

ghost use Rattle.std.specs.Prelude.{◌≡◌, ◌-◌, ◌^◌, ◌≤◌, min, length};
ghost use Rattle.jxl_bit_rules.specs.Bits.{bits, end};
ghost use Rattle.jxl_bit_rules.specs.Readers as F;
ghost use Rattle.jxl_bit_rules.specs.Told.{told_moved};

use jxl_bit_rules::{FieldRefusal, Moved, Refused};

// What comes before every reading: 8, 7, then the position moved to the end.
#[tactic(auto, unfolding(jxl_bit_rules::specs::Readers::begin))]
pub fn begin(s: &[u8], at: usize, wide: bool) -> Moved
    ensures { told_moved result ≡ F.begin wide s.now at }
{
    if 0x1fff_ffff_ffff_ffff < s.len() {
        return Err(Refused {
            refusal: FieldRefusal::TooLong,
            at,
        });
    }
    if wide {
        return Err(Refused {
            refusal: FieldRefusal::Width,
            at,
        });
    }
    Ok(at.min(8 * s.len()))
}

// The `n` bits at `at`, those beyond the end as 0.
fn look(s: &[u8], at: usize, n: usize) -> u32
    requires { n ≤ 32 }
    ensures { result ≡ bits s.now at n }
{
    let w = jxl_window::window(s, at) >> (at % 8);
    (w & ((1u64 << n) - 1)) as u32
}

// A bit position that `begin` lets through, in its slice: a reading may go on from here.
#[derive(Clone, Copy)]
pub struct Place<'a> {
    pub bytes: &'a [u8],
    pub at: usize,
    ghost short: { length bytes.now ≤ 2 ^ 61 - 1 },
    ghost within: { at ≤ end bytes.now },
}

impl<'a> Place<'a> {
    ghost use Rattle.jxl_begin.specs.Places.{here, BeginsAt, GoesOn};

    // What `begin` does, and the place that it leaves.
    #[tactic(auto, using(jxl_bit_rules::proofs::Parts::begun))]
    pub fn new(bytes: &'a [u8], at: usize, wide: bool) -> Result<Self, Refused>
        ensures { BeginsAt bytes.entry (F.begin wide bytes.now at) result }
    {
        let at = begin(bytes, at, wide)?;
        Ok(Place { bytes, at })
    }

    // The `n` bits from here, 32 at most, those beyond the end as 0.
    pub fn look(self, n: usize) -> u32
        ensures { result ≡ bits self.entry.bytes.now self.entry.at (min n 32) }
    {
        look(self.bytes, self.at, n.min(32))
    }

    // A part of `n` bits, 32 at most, and the place after it.
    #[tactic(auto, unfolding(jxl_bit_rules::specs::Readers::part))]
    pub fn read(self, n: usize) -> Result<(u32, Self), Refused>
        ensures { GoesOn self.entry.bytes (here (F.part (min n 32)) self.entry) result }
    {
        let most = n.min(32);
        if most <= 8 * self.bytes.len() - self.at {
            let next = Place {
                bytes: self.bytes,
                at: self.at + most,
            };
            Ok((look(self.bytes, self.at, most), next))
        } else {
            Err(Refused {
                refusal: FieldRefusal::UnexpectedEof,
                at: self.at,
            })
        }
    }
}
