// What the fields made of bits are, and the theorems of them: definitions and proofs, and the type of a choice.
// No code: `jxl_fields` has it.
#![tactic(auto)]

#[derive(Clone, Copy, Debug, PartialEq, Eq)]
pub enum U32Specifier {
    Constant(u32),
    BitsOffset(u32, usize),
}
