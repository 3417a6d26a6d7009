// The end call: the file has no more bytes than were fed, and these are unread. It gives the one event still owed, or none, and DONE; or
// it refuses the file as cut short. No byte is consumed. A parser that was ended takes no more, as a refused one.
#![tactic(auto)]

ghost use Rattle.std.specs.Prelude.{◌≡◌};
ghost use Rattle.jxl_endings.specs.End as Spec;
ghost use Rattle.jxl_owed.specs.Told.{told_close};
ghost use Rattle.jxl_end.specs.Told.{told_end};

use jxl_events::FileEvent;
use jxl_marks::{is_closed, refusal_of};
use jxl_owed::{Close, close_of};
use jxl_record::DetectState;
use jxl_refusals::BoxRefusal;
use jxl_totals::{ContainerParser, FileRefusal};

// An end call's answer: DONE, with the event still owed, if any; or a refusal. Either way with the record that the call leaves.
#[derive(Clone, Copy, Debug, PartialEq, Eq)]
pub struct EndResult {
    pub next: ContainerParser,
    pub answer: Result<Option<FileEvent>, FileRefusal>,
}

// The answer by what the end comes to: CutShort names the total, and stays; an end that is not refused closes the parser.
fn closing(p: ContainerParser, close: Close) -> EndResult
    ensures { told_end result ≡ Spec.numbered_end (Spec.closing p (told_close close)) }
{
    let total = p.total;
    match close {
        Close::Missing => EndResult {
            next: p.stopped(BoxRefusal::CutShort),
            answer: Err(refusal_of(BoxRefusal::CutShort, p)),
        },
        Close::Owes(event) => EndResult {
            next: p.stopped(BoxRefusal::Closed),
            answer: Ok(Some(FileEvent { event, total })),
        },
        Close::Nothing => EndResult {
            next: p.stopped(BoxRefusal::Closed),
            answer: Ok(None),
        },
    }
}

// The answer of a parser that takes no more: DONE again where it was ended, else its refusal.
fn again(rule: BoxRefusal, p: ContainerParser) -> EndResult
    ensures { told_end result ≡ Spec.numbered_end (Spec.again rule p) }
{
    let answer = if is_closed(rule) {
        Ok(None)
    } else {
        Err(refusal_of(rule, p))
    };
    EndResult { next: p, answer }
}

// The end of the file, with the bytes of it that were fed and are unread.
#[tactic(auto, unfolding(jxl_endings::specs::End::end_of))]
pub fn end(parser: ContainerParser, unread: &[u8]) -> EndResult
    ensures { told_end result ≡ Spec.numbered_end (Spec.end_of parser unread.now) }
{
    match parser.boxes.state {
        DetectState::Refused { refusal, .. } => again(refusal, parser),
        _ => closing(parser, close_of(parser.boxes, unread)),
    }
}
