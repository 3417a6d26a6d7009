// Moving over bits at a position of a lent slice: the position goes in and comes back by value. The rules are in `jxl_bit_rules`.
#![tactic(auto)]

ghost use Rattle.std.specs.Prelude.{◌≡◌};
ghost use Rattle.jxl_bit_rules.specs.Readers as F;
ghost use Rattle.jxl_bit_rules.specs.Told.{told_moved};
ghost use Rattle.jxl_begin.specs.Places.{here};

use jxl_begin::Place;
use jxl_bit_rules::{FieldRefusal, Moved, Refused};

// On by `n` if that many bits are left; else a refusal that leaves the reader at `stop`.
fn step(place: Place, n: usize, stop: usize) -> Moved
    ensures { told_moved result ≡ here (F.move n stop) place.entry }
{
    if n <= 8 * place.bytes.len() - place.at {
        Ok(place.at + n)
    } else {
        Err(Refused {
            refusal: FieldRefusal::UnexpectedEof,
            at: stop,
        })
    }
}

// Moves on by `n`, up to 32; where fewer bits are left it stays.
#[tactic(auto, unfolding(jxl_bit_rules::specs::Readers::consume))]
pub fn consume_bits(s: &[u8], at: usize, n: usize) -> Moved
    ensures { told_moved result ≡ F.consume n s.now at }
{
    let place = Place::new(s, at, 32 < n)?;
    step(place, n, place.at)
}

// Moves on by `n`; where fewer bits are left it goes to the end.
#[tactic(auto, unfolding(jxl_bit_rules::specs::Readers::skip))]
pub fn skip_bits(s: &[u8], at: usize, n: usize) -> Moved
    ensures { told_moved result ≡ F.skip n s.now at }
{
    let place = Place::new(s, at, false)?;
    let end = 8 * s.len();
    step(place, n, end)
}
