// The signatures of JPEG XL files, and the function that tells which of them an input starts with.
#![tactic(auto)]

ghost use Rattle.std.specs.Prelude.{◌≡◌};
ghost use Rattle.jxl_signatures.specs.Bytes.{starts};
ghost use Rattle.jxl_signatures.specs.Signature.{signature_of};

// JPEG XL bare codestream signature, `ff 0a`.
pub const CODESTREAM_SIG: [u8; 2] = [0xff, 0x0a];

// JPEG XL container format signature, `00 00 00 0c 4a 58 4c 20 0d 0a 87 0a`.
pub const CONTAINER_SIG: [u8; 12] = [
    0x00, 0x00, 0x00, 0x0c, 0x4a, 0x58, 0x4c, 0x20, 0x0d, 0x0a, 0x87, 0x0a,
];

// What the first bytes of an input are.
#[derive(Clone, Copy, Debug, PartialEq, Eq)]
pub enum Signature {
    Bare,
    Container,
    TooShort,
    Neither,
}

// Whether every byte of `prefix` stands at its place in `s`. By hand and not by the library's `starts_with`: that is called and not taken
// into a step, which made the first step of a file take up to half as long again.
fn starts_with(s: &[u8], prefix: &[u8]) -> bool
    ensures { result ≡ starts prefix.now s.now }
{
    if s.len() < prefix.len() {
        return false;
    }
    for i in 0..prefix.len() {
        if s[i] != prefix[i] {
            return false;
        }
    }
    true
}

// Which signature `s` starts with.
#[tactic(auto, unfolding(crate::specs::Signature::signature_of))]
pub fn which_signature(s: &[u8]) -> Signature
    ensures { result ≡ signature_of s.now }
{
    if starts_with(s, &CODESTREAM_SIG) {
        Signature::Bare
    } else if starts_with(s, &CONTAINER_SIG) {
        Signature::Container
    } else if starts_with(&CODESTREAM_SIG, s) || starts_with(&CONTAINER_SIG, s) {
        Signature::TooShort
    } else {
        Signature::Neither
    }
}
