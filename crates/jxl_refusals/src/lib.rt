// Why a parser takes no more: which rule of the container broke; or that it was ended.
#![tactic(auto)]

ghost use Rattle.std.specs.Prelude.{◌≡◌};
ghost use Rattle.jxl_refusals.specs.Refusals.{number_of, why};

// The rule that broke. The number of each, and the values that it tells, are `why` of specs/Refusals.antt.
#[derive(Clone, Copy, Debug, PartialEq, Eq)]
pub enum BoxRefusal {
    // A box size of 2 to 7.
    ShortSize,
    // An extended box size under 16.
    ExtendedSize,
    // A `jxlc` behind a `jxlc`.
    SecondJxlc,
    // A `jxlc` behind a `jxlp`.
    JxlcAfterJxlp,
    // A `jxlp` whose payload has no room for its index.
    JxlpTooSmall,
    // A `jxlp` behind a `jxlc`.
    JxlpAfterJxlc,
    // A `jxlp` behind the one marked as the last.
    JxlpAfterLast,
    // Another `jxlp` index than the next one: the one found has 31 bits, the one expected is at most 2^31. In this order and with these
    // widths they share no byte of a record with a field of another width, which would make every step slower.
    WrongIndex { found: u32, expected: u64 },
    // A `brob` whose payload has no room for its inner type.
    BrobTooSmall,
    // A record that no file leads to.
    ImpossibleRecord,
    // A reserved type inside a `brob`.
    ValidationFailed,
    // Bytes beyond the limit of a file, where more is wanted.
    StreamLimit,
    // The file was ended where something is missing.
    CutShort,
    // The file was ended, and nothing is missing. Not a refusal of the file: a parser that was ended stays so as a refused one does, and
    // answers every feed Closed.
    Closed,
}

impl BoxRefusal {
    // The refusal's number. A method and no From: README and `OneNumber` promise it by this name, and `u32::from` would not say what it tells.
    pub fn number(self) -> u32
        ensures { result ≡ number_of (why self) }
    {
        match self {
            BoxRefusal::ShortSize => 10,
            BoxRefusal::ExtendedSize => 11,
            BoxRefusal::SecondJxlc => 12,
            BoxRefusal::JxlcAfterJxlp => 13,
            BoxRefusal::JxlpTooSmall => 14,
            BoxRefusal::JxlpAfterJxlc => 15,
            BoxRefusal::JxlpAfterLast => 16,
            BoxRefusal::WrongIndex { .. } => 17,
            BoxRefusal::BrobTooSmall => 18,
            BoxRefusal::ImpossibleRecord => 19,
            BoxRefusal::ValidationFailed => 2,
            BoxRefusal::StreamLimit => 20,
            BoxRefusal::CutShort => 21,
            BoxRefusal::Closed => 22,
        }
    }
}
