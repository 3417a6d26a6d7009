// What a step answers, after the Rust's container/parse.rs; a payload where a step meets it; a refusal; and one step inside a side box.
#![tactic(auto)]

ghost use Rattle.std.specs.Prelude.{◌≡◌, ◌-◌, ltb, length};
ghost use Rattle.jxl_headers.specs.Bytes.{be32};
ghost use Rattle.jxl_events.specs.declared.ParseEvent.TheVariants as Event;
ghost use Rattle.jxl_record.specs.Record.{at};
ghost use Rattle.jxl_record.specs.declared.DetectState.TheVariants as State;
ghost use Rattle.jxl_grammar.specs.Naming.{numbered};
ghost use Rattle.jxl_grammar.specs.Step as Spec;
ghost use Rattle.jxl_payloads.specs.Told.{told};

use jxl_events::ParseEvent;
use jxl_headers::{BytesLeft, box_header};
use jxl_record::{BoxParser, DetectState, JxlpIndexState};
use jxl_refusals::BoxRefusal;

// A step's answer. Not a Result: an event, WANT and a refusal are three cases, and each has the next record, which comes first with the
// bytes consumed, so that the compiler copies no padding. Beside StepResult of jxl_counts: its record, event and refusal are the rules' own,
// not counted yet, and it has no Closed.
#[derive(Clone, Copy, Debug, PartialEq, Eq)]
pub enum BoxResult {
    Shown {
        next: BoxParser,
        consumed: usize,
        event: ParseEvent,
    },
    Want {
        next: BoxParser,
        consumed: usize,
    },
    Refused {
        next: BoxParser,
        consumed: usize,
        refusal: BoxRefusal,
    },
}

// A payload where a step meets it: how far it reaches, the input, lent whole, and where in the input it starts.
#[derive(Clone, Copy)]
pub struct Payload<'a> {
    pub left: BytesLeft,
    pub input: &'a [u8],
    pub at: usize,
}

impl Payload<'_> {
    // Whether fewer than 4 bytes of the input stand behind its first `at`. The same tests as `be32_at` makes, so it makes none behind them.
    pub fn is_short(self) -> bool
        ensures { result ≡ ltb (length self.entry.input.now - self.entry.at) 4 }
    {
        self.input.len() < 4 || self.input.len() - 4 < self.at
    }

    // The 4 bytes that it starts with, the first the highest; a missing one counts as 0.
    pub fn word(self) -> u32
        ensures { result ≡ be32 self.entry.input.now self.entry.at }
    {
        box_header::be32_at(self.input, self.at)
    }
}

// A refusal: the parser is refused from now on, and its kind stays what it was.
pub fn refuse(refusal: BoxRefusal, p: BoxParser, consumed: usize) -> BoxResult
    ensures { told result ≡ numbered (Spec.refuse refusal p consumed) }
{
    let kind = p.kind();
    let jxlp = p.jxlp;
    BoxResult::Refused {
        refusal,
        next: BoxParser::at(DetectState::Refused { kind, refusal }, jxlp),
        consumed,
    }
}

// The `len` bytes of a side box that the input starts with, with `left` of it behind them.
fn aux_part(jxlp: JxlpIndexState, ty: u32, left: BytesLeft, len: usize) -> BoxResult
    ensures { told result ≡ Spec.shows (Event.AuxBoxData ty 0 len) (at (State.InAuxBox ty left) jxlp) len }
{
    BoxResult::Shown {
        event: ParseEvent::AuxBoxData { ty, at: 0, len },
        next: BoxParser::at(
            DetectState::InAuxBox {
                ty,
                bytes_left: left,
            },
            jxlp,
        ),
        consumed: len,
    }
}

// Inside a side box, with `n` bytes of input, at least one.
pub fn aux_step(jxlp: JxlpIndexState, ty: u32, left: BytesLeft, n: usize) -> BoxResult
    ensures { told result ≡ numbered (Spec.aux_part jxlp ty left n) }
{
    match left {
        BytesLeft::ToEnd => aux_part(jxlp, ty, BytesLeft::ToEnd, n),
        BytesLeft::Bytes(0) => BoxResult::Shown {
            event: ParseEvent::AuxBoxEnd { ty },
            next: BoxParser::at(DetectState::WaitingBoxHeader, jxlp),
            consumed: 0,
        },
        BytesLeft::Bytes(m) => {
            let len = m.min(n as u64);
            aux_part(jxlp, ty, BytesLeft::Bytes(m - len), len as usize)
        }
    }
}
