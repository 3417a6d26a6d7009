// One step at the index that a `jxlp` payload starts with, after the Rust's container/parse.rs.
#![tactic(auto)]

ghost use Rattle.std.specs.Prelude.{◌≡◌, drop};
ghost use Rattle.jxl_grammar.specs.Naming.{numbered};
ghost use Rattle.jxl_grammar.specs.Step as Spec;
ghost use Rattle.jxl_payloads.specs.Told.{told};

use jxl_codestream::code_step;
use jxl_payloads::{BoxResult, Payload, refuse};
use jxl_record::{BitstreamKind, BoxParser, DetectState, JxlpIndexState};
use jxl_refusals::BoxRefusal;

// The row of `jxlp` boxes behind index `i`: bit 31 marks the last.
fn row(word: u32, i: u32) -> JxlpIndexState
    ensures { result ≡ Spec.row word i }
{
    if 0x8000_0000 <= word {
        JxlpIndexState::JxlpFinished
    } else {
        JxlpIndexState::Jxlp(i)
    }
}

// A `jxlp` payload, whose index must be `i`.
#[tactic(auto, using(jxl_grammar::proofs::Step::far_index_wants, jxl_grammar::proofs::Step::far_index_right, jxl_grammar::proofs::Step::far_index_wrong))]
pub fn index_step(i: u32, payload: Payload<'_>) -> BoxResult
    ensures { told result ≡ numbered (Spec.ahead payload.entry.at (Spec.index_step i payload.entry.left (drop payload.entry.at payload.entry.input.now))) }
{
    let Payload { left, input, at } = payload;
    let waiting = BoxParser::at(DetectState::WaitingJxlpIndex(left), JxlpIndexState::Jxlp(i));
    if payload.is_short() {
        return BoxResult::Want {
            next: waiting,
            consumed: at,
        };
    }
    let word = payload.word();
    let found = word % 0x8000_0000;
    if found == i {
        let behind = Payload {
            left: left.less(4),
            input,
            at: at + 4,
        };
        return code_step(
            row(word, i),
            BitstreamKind::Container,
            left.to_end(),
            behind,
        );
    }
    let refusal = BoxRefusal::WrongIndex {
        found,
        expected: u64::from(i),
    };
    refuse(refusal, waiting, at + 4)
}
