// One step inside a codestream, after the Rust's container/parse.rs.
#![tactic(auto)]

ghost use Rattle.std.specs.Prelude.{◌≡◌, ◌+◌, ◌^◌, ◌<◌, drop};
ghost use Rattle.jxl_grammar.specs.Naming.{numbered};
ghost use Rattle.jxl_grammar.specs.Step as Spec;
ghost use Rattle.jxl_payloads.specs.Told.{told};

use jxl_events::ParseEvent;
use jxl_headers::BytesLeft;
use jxl_payloads::{BoxResult, Payload};
use jxl_record::{BitstreamKind, BoxParser, DetectState, JxlpIndexState};

// A record inside a codestream.
fn in_codestream(
    kind: BitstreamKind,
    left: BytesLeft,
    pending: bool,
    jxlp: JxlpIndexState,
) -> BoxParser
    ensures { result ≡ Spec.in_code kind left pending jxlp }
{
    let state = DetectState::InCodestream {
        kind,
        bytes_left: left,
        pending_no_more_aux_box: pending,
    };
    BoxParser::at(state, jxlp)
}

// The `n` bytes of input at `at`, at least one, inside a codestream.
fn code_part(
    jxlp: JxlpIndexState,
    kind: BitstreamKind,
    left: BytesLeft,
    at: usize,
    n: usize,
) -> BoxResult
    requires { at + n < 2 ^ 64 }
    ensures { told result ≡ numbered (Spec.ahead at (Spec.code_part jxlp kind left n)) }
{
    match left {
        BytesLeft::ToEnd => BoxResult::Shown {
            event: ParseEvent::Codestream { at, len: n },
            next: in_codestream(kind, BytesLeft::ToEnd, false, jxlp),
            consumed: at + n,
        },
        BytesLeft::Bytes(m) if m <= n as u64 => {
            let len = m as usize;
            BoxResult::Shown {
                event: ParseEvent::Codestream { at, len },
                next: BoxParser::at(DetectState::WaitingBoxHeader, jxlp),
                consumed: at + len,
            }
        }
        BytesLeft::Bytes(m) => BoxResult::Shown {
            event: ParseEvent::Codestream { at, len: n },
            next: in_codestream(kind, BytesLeft::Bytes(m - n as u64), false, jxlp),
            consumed: at + n,
        },
    }
}

// Inside a codestream, at a payload; nothing is there behind the end.
#[tactic(auto, using(jxl_grammar::proofs::Step::far_code_wants, jxl_grammar::proofs::Step::far_code_pending, jxl_grammar::proofs::Step::far_code_shows))]
pub fn code_step(
    jxlp: JxlpIndexState,
    kind: BitstreamKind,
    pending: bool,
    payload: Payload<'_>,
) -> BoxResult
    ensures { told result ≡ numbered (Spec.ahead payload.entry.at (Spec.code_step jxlp kind payload.entry.left pending (drop payload.entry.at payload.entry.input.now))) }
{
    let Payload { left, input, at } = payload;
    if input.len() <= at {
        return BoxResult::Want {
            next: in_codestream(kind, left, pending, jxlp),
            consumed: at,
        };
    }
    if pending {
        return BoxResult::Shown {
            event: ParseEvent::NoMoreAuxBox,
            next: in_codestream(kind, left, false, jxlp),
            consumed: at,
        };
    }
    code_part(jxlp, kind, left, at, input.len() - at)
}
