// A part of lent bytes, which every crate here takes in the same way.
#![tactic(auto)]

ghost use Rattle.std.specs.Prelude.{◌≡◌};
ghost use Rattle.jxl_slices.specs.Part.{between};

// The bytes from `from` up to `upto`; an empty part if they lie outside.
pub fn part(s: &[u8], from: usize, upto: usize) -> &[u8]
    ensures { result.now ≡ between s.now from upto }
{
    s.get(from..upto).unwrap_or(&[])
}
