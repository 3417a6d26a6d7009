// One step of the container parser: the rules on boxes, on the input up to the limit of a file, with the bytes counted. A record by
// value and a part of the input go in; an event, WANT, a refusal or Closed comes back, each with the next record and the bytes consumed.
#![tactic(auto)]

ghost use Rattle.std.specs.Prelude.{◌≡◌};
ghost use Rattle.jxl_totals.specs.Naming.{numbered};
ghost use Rattle.jxl_totals.specs.Step as Spec;
ghost use Rattle.jxl_counts.specs.Told.{told};

use jxl_counts::{limited, refused};
use jxl_marks::{at_header, looked_at, newest, visible};
use jxl_payloads::BoxResult;

// What a user of the container needs, from one place.
pub use jxl_counts::StepResult;
pub use jxl_end::{EndResult, end};
pub use jxl_events::{FileEvent, ParseEvent, payload};
pub use jxl_headers::BytesLeft;
pub use jxl_joiner::{Added, Joiner};
pub use jxl_queue::most_events;
pub use jxl_record::{BitstreamKind, BoxParser, DetectState, JxlpIndexState};
pub use jxl_refusals::BoxRefusal;
pub use jxl_totals::{ContainerParser, FileRefusal};

// One step of the parser on the input.
pub fn step(parser: ContainerParser, input: &[u8]) -> StepResult
    ensures { told result ≡ numbered (Spec.step_of parser input.now) }
{
    let ContainerParser {
        boxes,
        total,
        header,
    } = parser;
    let n = visible(total, input.len());
    let starts = at_header(boxes);
    match jxl_boxes::step(boxes, &input[..n]) {
        BoxResult::Shown {
            event,
            next,
            consumed,
        } => {
            let header = newest(starts, consumed, total, header);
            let total = total + consumed as u64;
            StepResult::Shown {
                next: ContainerParser::at(next, total, header),
                consumed,
                event: FileEvent { event, total },
            }
        }
        BoxResult::Want { next, consumed } => {
            let header = newest(starts, consumed, total, header);
            let next = ContainerParser::at(next, total + consumed as u64, header);
            if n == input.len() {
                StepResult::Want { next, consumed }
            } else {
                limited(next, consumed)
            }
        }
        BoxResult::Refused {
            next,
            consumed,
            refusal,
        } => {
            let header = looked_at(starts, total, header);
            let next = ContainerParser::at(next, total + consumed as u64, header);
            refused(refusal, next, consumed)
        }
    }
}
