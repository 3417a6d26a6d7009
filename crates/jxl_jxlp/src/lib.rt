// One step at a `jxlp` box behind its header, after the Rust's container/parse.rs, and the refusal of a box behind its header.
#![tactic(auto)]

ghost use Rattle.std.specs.Prelude.{◌≡◌, drop};
ghost use Rattle.jxl_grammar.specs.Naming.{numbered};
ghost use Rattle.jxl_grammar.specs.Step as Spec;
ghost use Rattle.jxl_payloads.specs.Told.{told};
ghost use Rattle.jxl_jxlp.specs.Row.{row_step};

use jxl_impossible::over_index;
use jxl_payload_starts::index_step;
use jxl_payloads::{BoxResult, Payload, refuse};
use jxl_record::{BoxParser, DetectState, JxlpIndexState};
use jxl_refusals::BoxRefusal;

// A refusal of the box whose header ends at `at`.
pub fn refuse_box(refusal: BoxRefusal, jxlp: JxlpIndexState, at: usize) -> BoxResult
    ensures { told result ≡ numbered (Spec.ahead at (Spec.refuse_box refusal jxlp)) }
{
    refuse(
        refusal,
        BoxParser::at(DetectState::WaitingBoxHeader, jxlp),
        at,
    )
}

// A `jxlp` box behind its header, its size looked at before its place in the row. The rules refuse a row that has no next index
// before they come here; here it is refused again, so that every row has an answer.
pub fn jxlp_step(jxlp: JxlpIndexState, payload: Payload<'_>) -> BoxResult
    ensures { told result ≡ numbered (Spec.ahead payload.entry.at (row_step jxlp payload.entry.left (drop payload.entry.at payload.entry.input.now))) }
{
    let at = payload.at;
    if over_index(jxlp) {
        return refuse_box(BoxRefusal::ImpossibleRecord, jxlp, at);
    }
    if payload.left.under(4) {
        return refuse_box(BoxRefusal::JxlpTooSmall, jxlp, at);
    }
    match jxlp {
        JxlpIndexState::Initial => index_step(0, payload),
        JxlpIndexState::SingleJxlc => refuse_box(BoxRefusal::JxlpAfterJxlc, jxlp, at),
        JxlpIndexState::Jxlp(i) => index_step(i + 1, payload),
        JxlpIndexState::JxlpFinished => refuse_box(BoxRefusal::JxlpAfterLast, jxlp, at),
    }
}
