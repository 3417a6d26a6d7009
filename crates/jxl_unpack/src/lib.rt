// `UnpackSigned`, as in the Rust's lib.rs.
#![tactic(auto)]

ghost use Rattle.std.specs.Prelude.{◌≡◌};
ghost use Rattle.jxl_unpack.specs.UnpackSigned.{unpacked};

// `UnpackSigned` of a `u32`. The Rust flips the bits unsigned and reinterprets the result; here the flip, 0 or -1, is taken on the signed
// type, as `flipped` of the theorem `Unpacks` has it.
pub fn unpack_signed(x: u32) -> i32
    ensures { result ≡ unpacked x }
{
    let bit = x & 1;
    let base = x >> 1;
    let flip = 0 - (bit as i32);
    (base as i32) ^ flip
}

// `UnpackSigned` of a `u64`. Two functions and no generic: a trait with the shift and the signed type of each width would hold these two
// bodies as its impls. They share one law over the width, `Unpacks`.
pub fn unpack_signed_u64(x: u64) -> i64
    ensures { result ≡ unpacked x }
{
    let bit = x & 1;
    let base = x >> 1;
    let flip = 0 - (bit as i64);
    (base as i64) ^ flip
}
