// The parser lent by `&mut` and changed in place, under the Rust's name: a thin call over the step by value.
#![tactic(auto)]

ghost use Rattle.std.specs.Prelude.{◌≡◌};
ghost use Rattle.jxl_totals.specs.Naming.{numbered};
ghost use Rattle.jxl_totals.specs.Step as Spec;
ghost use Rattle.jxl_feed.specs.Fed.{told_fed};

use jxl_container::{BitstreamKind, ContainerParser, FileEvent, FileRefusal, StepResult};

// A step's answer without the parser. Not `StepResult` over a parameter for the record: with a lent parser there is none to tell, and a
// unit in its place would be no plainer. Not a struct with an answer beside, as EndResult: each case is that of StepResult, by one pattern.
#[derive(Clone, Copy, Debug, PartialEq, Eq)]
pub enum Fed {
    Shown {
        event: FileEvent,
        consumed: usize,
    },
    Want {
        consumed: usize,
    },
    Refused {
        refusal: FileRefusal,
        consumed: usize,
    },
    // The parser was ended.
    Closed {
        consumed: usize,
    },
}

// One step of the parser where it stands.
pub fn feed_bytes(parser: &mut ContainerParser, input: &[u8]) -> Fed
    ensures { told_fed result parser.new ≡ numbered (Spec.step_of parser.old input.now) }
{
    match jxl_container::step(*parser, input) {
        StepResult::Shown {
            next,
            consumed,
            event,
        } => {
            *parser = next;
            Fed::Shown { event, consumed }
        }
        StepResult::Want { next, consumed } => {
            *parser = next;
            Fed::Want { consumed }
        }
        StepResult::Refused {
            next,
            consumed,
            refusal,
        } => {
            *parser = next;
            Fed::Refused { refusal, consumed }
        }
        StepResult::Closed { next, consumed } => {
            *parser = next;
            Fed::Closed { consumed }
        }
    }
}

// The kind of bitstream that a lent parser tells.
pub fn kind(parser: &ContainerParser) -> BitstreamKind
    ensures { result ≡ Spec.kind_of parser.now }
{
    parser.kind()
}
