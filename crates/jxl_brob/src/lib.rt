// One step at the inner type that a `brob` payload starts with, after the Rust's container/parse.rs.
#![tactic(auto)]

ghost use Rattle.std.specs.Prelude.{◌≡◌, true, drop};
ghost use Rattle.jxl_reach.specs.Reach.{less, to_end};
ghost use Rattle.jxl_record.specs.Record.{at};
ghost use Rattle.jxl_record.specs.declared.DetectState.TheVariants as State;
ghost use Rattle.jxl_events.specs.declared.ParseEvent.TheVariants as Event;
ghost use Rattle.jxl_headers.specs.Types.{reserved};
ghost use Rattle.jxl_grammar.specs.Naming.{numbered};
ghost use Rattle.jxl_grammar.specs.Step as Spec;
ghost use Rattle.jxl_payloads.specs.Told.{told};

use jxl_events::ParseEvent;
use jxl_headers::{BytesLeft, box_header};
use jxl_payloads::{BoxResult, Payload, refuse};
use jxl_record::{BoxParser, DetectState, JxlpIndexState};
use jxl_refusals::BoxRefusal;

// Whether the type may not stand inside a `brob`.
fn is_reserved(ty: u32) -> bool
    ensures { result ≡ reserved ty }
{
    ty / 256 == 0x6a786c
        || ty == box_header::BROTLI_COMPRESSED
        || ty == box_header::JPEG_RECONSTRUCTION
}

// The start of a `brob`'s inner box of type `ty`, whose 4 bytes end at `consumed`.
fn inner_start(jxlp: JxlpIndexState, left: BytesLeft, ty: u32, consumed: usize) -> BoxResult
    ensures { told result ≡ Spec.shows (Event.AuxBoxStart ty true (to_end left)) (at (State.InAuxBox ty (less left 4)) jxlp) consumed }
{
    let state = DetectState::InAuxBox {
        ty,
        bytes_left: left.less(4),
    };
    BoxResult::Shown {
        event: ParseEvent::AuxBoxStart {
            ty,
            brotli_compressed: true,
            last_box: left.to_end(),
        },
        next: BoxParser::at(state, jxlp),
        consumed,
    }
}

// A `brob` payload.
#[tactic(auto, using(jxl_grammar::proofs::Step::far_inner_wants, jxl_grammar::proofs::Step::far_inner_reserved, jxl_grammar::proofs::Step::far_inner_shows))]
pub fn inner_step(jxlp: JxlpIndexState, payload: Payload<'_>) -> BoxResult
    ensures { told result ≡ numbered (Spec.ahead payload.entry.at (Spec.inner_step jxlp payload.entry.left (drop payload.entry.at payload.entry.input.now))) }
{
    let Payload { left, at, .. } = payload;
    let waiting = BoxParser::at(DetectState::WaitingInnerType(left), jxlp);
    if payload.is_short() {
        return BoxResult::Want {
            next: waiting,
            consumed: at,
        };
    }
    let ty = payload.word();
    if is_reserved(ty) {
        return refuse(BoxRefusal::ValidationFailed, waiting, at + 4);
    }
    inner_start(jxlp, left, ty, at + 4)
}
