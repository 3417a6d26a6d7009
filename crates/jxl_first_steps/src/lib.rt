// The steps that look at no box, after the Rust's container/parse.rs: at the signature, and on an empty input.
#![tactic(auto)]

ghost use Rattle.std.specs.Prelude.{◌≡◌, []};
ghost use Rattle.jxl_signatures.specs.Signature.{signature_of};
ghost use Rattle.jxl_grammar.specs.Naming.{numbered};
ghost use Rattle.jxl_grammar.specs.Step as Spec;
ghost use Rattle.jxl_payloads.specs.Told.{told};

use jxl_events::ParseEvent;
use jxl_headers::BytesLeft;
use jxl_payloads::BoxResult;
use jxl_record::{BitstreamKind, BoxParser, DetectState, JxlpIndexState};
use jxl_signatures::Signature;

// At the signature.
pub fn signature_step(jxlp: JxlpIndexState, s: &[u8]) -> BoxResult
    ensures { told result ≡ numbered (Spec.signature_step jxlp (signature_of s.now)) }
{
    match jxl_signatures::which_signature(s) {
        Signature::Bare => kind_step(BitstreamKind::BareCodestream, jxlp),
        Signature::Container => BoxResult::Shown {
            event: ParseEvent::BitstreamKind(BitstreamKind::Container),
            next: BoxParser::at(DetectState::WaitingBoxHeader, jxlp),
            consumed: 12,
        },
        Signature::TooShort => BoxResult::Want {
            next: BoxParser::at(DetectState::WaitingSignature, jxlp),
            consumed: 0,
        },
        Signature::Neither => kind_step(BitstreamKind::Invalid, jxlp),
    }
}

// A file with no boxes: its kind, and then all of it is codestream.
fn kind_step(kind: BitstreamKind, jxlp: JxlpIndexState) -> BoxResult
    ensures { told result ≡ numbered (Spec.bare_step kind jxlp) }
{
    BoxResult::Shown {
        event: ParseEvent::BitstreamKind(kind),
        next: BoxParser::at(
            DetectState::InCodestream {
                kind,
                bytes_left: BytesLeft::ToEnd,
                pending_no_more_aux_box: true,
            },
            jxlp,
        ),
        consumed: 0,
    }
}

// A step on an empty input: WANT, except in a refused parser.
#[tactic(auto, using(jxl_grammar::proofs::Step::step_empty, jxl_grammar::proofs::Step::step_empty_refused))]
pub fn empty_step(p: BoxParser) -> BoxResult
    ensures { told result ≡ numbered (Spec.step_of p []) }
{
    match p.state {
        DetectState::Refused { refusal, .. } => BoxResult::Refused {
            refusal,
            next: p,
            consumed: 0,
        },
        _ => BoxResult::Want {
            next: p,
            consumed: 0,
        },
    }
}
