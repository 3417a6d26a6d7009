// The rules on boxes, after the Rust's container/parse.rs, one step of them: a record by value and a part of the input go in; an event,
// WANT or a refusal comes back, each with the next record and the bytes consumed. One small function for each state.
#![tactic(auto)]

ghost use Rattle.std.specs.Prelude.{◌≡◌, false, drop};
ghost use Rattle.jxl_headers.specs.Header.{header_of};
ghost use Rattle.jxl_impossible.specs.Impossible.{impossible, over_index};
ghost use Rattle.jxl_grammar.specs.Naming.{numbered};
ghost use Rattle.jxl_grammar.specs.Step as Spec;
ghost use Rattle.jxl_payloads.specs.Told.{told};

use jxl_brob::inner_step;
use jxl_codestream::code_step;
use jxl_events::ParseEvent;
use jxl_first_steps::{empty_step, signature_step};
use jxl_headers::box_header::HeaderParseResult;
use jxl_headers::{BytesLeft, box_header};
use jxl_impossible::is_impossible;
use jxl_jxlp::{jxlp_step, refuse_box};
use jxl_payload_starts::index_step;
use jxl_payloads::{BoxResult, Payload, refuse};
use jxl_record::{BitstreamKind, BoxParser, DetectState, JxlpIndexState};
use jxl_refusals::BoxRefusal;

// A `jxlc` payload.
fn jxlc_step(jxlp: JxlpIndexState, payload: Payload<'_>) -> BoxResult
    ensures { told result ≡ numbered (Spec.ahead payload.entry.at (Spec.jxlc_step jxlp payload.entry.left (drop payload.entry.at payload.entry.input.now))) }
{
    let at = payload.at;
    match jxlp {
        JxlpIndexState::Initial => code_step(
            JxlpIndexState::SingleJxlc,
            BitstreamKind::Container,
            payload.left.to_end(),
            payload,
        ),
        JxlpIndexState::SingleJxlc => refuse_box(BoxRefusal::SecondJxlc, jxlp, at),
        JxlpIndexState::Jxlp(_) | JxlpIndexState::JxlpFinished => {
            refuse_box(BoxRefusal::JxlcAfterJxlp, jxlp, at)
        }
    }
}

// A `brob` box behind its header.
fn brob_step(jxlp: JxlpIndexState, payload: Payload<'_>) -> BoxResult
    ensures { told result ≡ numbered (Spec.ahead payload.entry.at (Spec.brob_step jxlp payload.entry.left (drop payload.entry.at payload.entry.input.now))) }
{
    if payload.left.under(4) {
        return refuse_box(BoxRefusal::BrobTooSmall, jxlp, payload.at);
    }
    inner_step(jxlp, payload)
}

// A box of type `ty` behind its header.
#[tactic(auto, using(jxl_grammar::proofs::Step::box_jxlc, jxl_grammar::proofs::Step::box_jxlp, jxl_grammar::proofs::Step::box_brob, jxl_grammar::proofs::Step::box_aux))]
fn box_step(jxlp: JxlpIndexState, ty: u32, payload: Payload<'_>) -> BoxResult
    requires { over_index jxlp ≡ false }
    ensures { told result ≡ numbered (Spec.ahead payload.entry.at (Spec.box_step jxlp ty payload.entry.left (drop payload.entry.at payload.entry.input.now))) }
{
    let Payload { left, at, .. } = payload;
    match ty {
        box_header::CODESTREAM => jxlc_step(jxlp, payload),
        box_header::PARTIAL_CODESTREAM => jxlp_step(jxlp, payload),
        box_header::BROTLI_COMPRESSED => brob_step(jxlp, payload),
        _ => BoxResult::Shown {
            event: ParseEvent::AuxBoxStart {
                ty,
                brotli_compressed: false,
                last_box: left.to_end(),
            },
            next: BoxParser::at(
                DetectState::InAuxBox {
                    ty,
                    bytes_left: left,
                },
                jxlp,
            ),
            consumed: at,
        },
    }
}

// At a box header.
fn header_step(jxlp: JxlpIndexState, s: &[u8]) -> BoxResult
    requires { over_index jxlp ≡ false }
    ensures { told result ≡ numbered (Spec.header_step jxlp s.now (header_of s.now)) }
{
    let waiting = BoxParser::at(DetectState::WaitingBoxHeader, jxlp);
    match box_header::parse_header(s) {
        HeaderParseResult::NeedMoreData => BoxResult::Want {
            next: waiting,
            consumed: 0,
        },
        HeaderParseResult::Refused(refusal) => refuse(refusal, waiting, 0),
        HeaderParseResult::Done {
            header,
            header_size,
        } => {
            let payload = Payload {
                left: header.box_size,
                input: s,
                at: header_size,
            };
            box_step(jxlp, header.ty, payload)
        }
    }
}

// The index awaited; 0 where no `jxlp` is open. Not an Option: it is `awaited` of jxl_grammar, whose record with none is refused before.
fn awaited(jxlp: JxlpIndexState) -> u32
    ensures { result ≡ Spec.awaited jxlp }
{
    match jxlp {
        JxlpIndexState::Jxlp(i) => i,
        _ => 0,
    }
}

// A payload that the input starts with.
fn here(left: BytesLeft, input: &[u8]) -> Payload<'_>
    ensures reach { result.left ≡ left }
    ensures bytes { result.input.now ≡ input.now }
    ensures start { result.at ≡ 0 }
{
    Payload { left, input, at: 0 }
}

// A step by the record's state, with input there.
fn state_step(p: BoxParser, s: &[u8]) -> BoxResult
    requires { impossible p ≡ false }
    ensures { told result ≡ numbered (Spec.state_step p.state p.jxlp s.now) }
{
    let jxlp = p.jxlp;
    match p.state {
        DetectState::WaitingSignature => signature_step(jxlp, s),
        DetectState::WaitingBoxHeader => header_step(jxlp, s),
        DetectState::WaitingJxlpIndex(left) => index_step(awaited(jxlp), here(left, s)),
        DetectState::WaitingInnerType(left) => inner_step(jxlp, here(left, s)),
        DetectState::InAuxBox { ty, bytes_left } => {
            jxl_payloads::aux_step(jxlp, ty, bytes_left, s.len())
        }
        DetectState::InCodestream {
            kind,
            bytes_left,
            pending_no_more_aux_box,
        } => code_step(jxlp, kind, pending_no_more_aux_box, here(bytes_left, s)),
        DetectState::Refused { refusal, .. } => BoxResult::Refused {
            refusal,
            next: p,
            consumed: 0,
        },
    }
}

// One step of the parser on the input.
#[tactic(auto, using(jxl_grammar::proofs::Step::step_impossible, jxl_grammar::proofs::Step::step_state))]
pub fn step(parser: BoxParser, input: &[u8]) -> BoxResult
    ensures { told result ≡ numbered (Spec.step_of parser input.now) }
{
    if input.is_empty() {
        return empty_step(parser);
    }
    if is_impossible(parser) {
        return refuse(BoxRefusal::ImpossibleRecord, parser, 0);
    }
    state_step(parser, input)
}
