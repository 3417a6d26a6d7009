// What bits at a position are, what each call on them answers, and the theorems of both: definitions and proofs, and the types of the
// answers. No code: `jxl_bits` has it.
#![tactic(auto)]

#[derive(Clone, Copy, Debug, PartialEq, Eq)]
pub enum FieldRefusal {
    UnexpectedEof,
    NonZeroPadding,
    InvalidFloat,
    InvalidEnum(u32),
    Width,
    TooLong,
}

// A refusal, and the position that it leaves the reader at.
#[derive(Clone, Copy, Debug, PartialEq, Eq)]
pub struct Refused {
    pub refusal: FieldRefusal,
    pub at: usize,
}

// A value, and the position after it.
pub type Read<T> = Result<(T, usize), Refused>;

// The position after a move.
pub type Moved = Result<usize, Refused>;
