// What a step leaves, with its count: a refusal with its total and its place, by the record behind it. jxl_container's step puts it
// together.
#![tactic(auto)]

ghost use Rattle.std.specs.Prelude.{◌≡◌};
ghost use Rattle.jxl_grammar.specs.Step as Boxes;
ghost use Rattle.jxl_totals.specs.Naming.{numbered};
ghost use Rattle.jxl_totals.specs.Step as Spec;
ghost use Rattle.jxl_counts.specs.Told.{told};

use jxl_events::FileEvent;
use jxl_marks::{is_closed, refusal_of};
use jxl_refusals::BoxRefusal;
use jxl_totals::{ContainerParser, FileRefusal};

// A step's answer. Not a Result: to want more is neither. Not a struct with an answer beside, as EndResult: one pattern names what a caller
// needs of a case, the record, the bytes consumed and the event, where that form takes a pattern inside another and a second type. The
// record and the bytes consumed come first in every case, so that the compiler copies no padding.
#[derive(Clone, Copy, Debug, PartialEq, Eq)]
pub enum StepResult {
    Shown {
        next: ContainerParser,
        consumed: usize,
        event: FileEvent,
    },
    Want {
        next: ContainerParser,
        consumed: usize,
    },
    Refused {
        next: ContainerParser,
        consumed: usize,
        refusal: FileRefusal,
    },
    // The parser was ended; no refusal of the file.
    Closed {
        next: ContainerParser,
        consumed: usize,
    },
}

// A refusal, by the record that it leaves; or Closed, of a parser that was ended. The test has a value: with a branch that returns a step on
// small boxes took a seventh more instructions.
pub fn refused(rule: BoxRefusal, next: ContainerParser, consumed: usize) -> StepResult
    ensures { told result ≡ numbered (Spec.refusing rule next consumed) }
{
    if is_closed(rule) {
        StepResult::Closed { next, consumed }
    } else {
        StepResult::Refused {
            next,
            consumed,
            refusal: refusal_of(rule, next),
        }
    }
}

// More is wanted, with this record, although bytes lie beyond the limit.
pub fn limited(next: ContainerParser, consumed: usize) -> StepResult
    ensures { told result ≡ numbered (Spec.refusing BoxRefusal.StreamLimit (Spec.counted (Boxes.refused BoxRefusal.StreamLimit next.boxes) next.total next.header) consumed) }
{
    refused(
        BoxRefusal::StreamLimit,
        next.stopped(BoxRefusal::StreamLimit),
        consumed,
    )
}
