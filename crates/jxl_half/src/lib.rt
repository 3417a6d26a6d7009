// An F16 code as the f32 that is the same number. The rule is in `specs/Half.antt`.
#![tactic(auto)]

ghost use Rattle.std.specs.Prelude.{◌≡◌, ◌+◌, ◌*◌, ◌^◌, ◌<◌};
ghost use Rattle.std.specs.Float.{binary32};
ghost use Rattle.std.specs.Float.Ieee.{of_bits};
ghost use Rattle.jxl_half.specs.Half.{magnitude};
ghost use Rattle.jxl_half.specs.Widen.{ExactlyWidened, told, widened};

// An F16 whose exponent is 0: zero, or `m` units of 2^-24.
fn subnormal(sign: u32, m: u32) -> f32
    requires { (sign < 2) × (m < 1024) }
    ensures { result ≡ of_bits binary32 (sign * 2 ^ 31 + magnitude 0 m) }
{
    if m == 0 {
        f32::from_bits(sign * 0x8000_0000)
    } else {
        let val = (1.0 / 16384.0) * (m as f32 / 1024.0);
        if sign == 0 { val } else { -val }
    }
}

// The f32 that is the same number as an F16 code; exponent 31 is no number, and that is None.
#[tactic(auto, using(crate::proofs::Halves::refused_code))]
pub fn widen(code: u16) -> Option<f32>
    ensures result_value { told result ≡ widened code }
    ensures exactly_widened { ExactlyWidened code (told result) }
{
    let v = u32::from(code);
    let sign = v / 32768;
    let exponent = v / 1024 % 32;
    let mantissa = v % 1024;
    if exponent == 31 {
        None
    } else if exponent == 0 {
        Some(subnormal(sign, mantissa))
    } else {
        Some(f32::from_bits(sign * 0x8000_0000 + (exponent + 112) * 0x80_0000 + mantissa * 0x2000))
    }
}
