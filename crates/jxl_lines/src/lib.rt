// The lines of the listing, as values. Their bytes stand in specs/Lines.antt; theorems on them in specs/Theorems.antt.
#![tactic(auto)]

ghost use Rattle.std.specs.Prelude.{◌≡◌};
ghost use Rattle.jxl_refusals.specs.Refusals.{why};
ghost use Rattle.jxl_lines.specs.Lines.{printed};

use jxl_events::ParseEvent;
use jxl_refusals::BoxRefusal;

// Why a listing ends, or a turn of one, as it is printed: more is wanted, which only a turn says; a refusal by its number in document 01; the
// limit of a file; its end, with nothing missing or with something; or that the parser had been ended before.
#[derive(Clone, Copy, Debug, PartialEq, Eq)]
pub enum StopWord {
    Want,
    Refused1,
    Refused2,
    Limit,
    Done,
    CutShort,
    Closed,
}

impl StopWord {
    // What is printed of a refusal, and of Closed, which is none. Not a From: docs/PROMISES.md promises it by this name (`OneRefused`).
    pub fn refused(refusal: BoxRefusal) -> StopWord
        ensures { result ≡ printed (why refusal) }
    {
        match refusal {
            BoxRefusal::ValidationFailed => StopWord::Refused2,
            BoxRefusal::StreamLimit => StopWord::Limit,
            BoxRefusal::CutShort => StopWord::CutShort,
            BoxRefusal::Closed => StopWord::Closed,
            BoxRefusal::ShortSize
            | BoxRefusal::ExtendedSize
            | BoxRefusal::SecondJxlc
            | BoxRefusal::JxlcAfterJxlp
            | BoxRefusal::JxlpTooSmall
            | BoxRefusal::JxlpAfterJxlc
            | BoxRefusal::JxlpAfterLast
            | BoxRefusal::WrongIndex { .. }
            | BoxRefusal::BrobTooSmall
            | BoxRefusal::ImpossibleRecord => StopWord::Refused1,
        }
    }
}

// One record of the listing: a joined event with its place in the file, or the stop with the bytes consumed.
#[derive(Clone, Copy, Debug, PartialEq, Eq)]
pub enum Line {
    Shown(ParseEvent),
    Stopped { stop: StopWord, consumed: usize },
}

// A line did not fit: how many bytes it has.
#[derive(Clone, Copy, Debug, PartialEq, Eq)]
pub struct NoRoom {
    pub needed: usize,
}

// Where the next line goes; or that the line did not fit.
pub type Put = Result<usize, NoRoom>;
