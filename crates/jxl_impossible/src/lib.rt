// The records that no file leads to, which a step refuses.
#![tactic(auto)]

ghost use Rattle.std.specs.Prelude.{◌≡◌};
ghost use Rattle.jxl_impossible.specs.Impossible.{impossible, no_index, over_index};

use jxl_record::{BoxParser, DetectState, JxlpIndexState};

// Whether the current `jxlp` index is above 2^31 - 1, where none is awaited.
pub fn over_index(jxlp: JxlpIndexState) -> bool
    ensures { result ≡ over_index jxlp }
{
    matches!(jxlp, JxlpIndexState::Jxlp(i) if 0x8000_0000 <= i)
}

// Whether no `jxlp` is open, or its awaited index is above 2^31.
fn no_index(jxlp: JxlpIndexState) -> bool
    ensures { result ≡ no_index jxlp }
{
    !matches!(jxlp, JxlpIndexState::Jxlp(i) if i <= 0x8000_0000)
}

// Whether no file leads to this record.
pub fn is_impossible(p: BoxParser) -> bool
    ensures { result ≡ impossible p }
{
    match p.state {
        DetectState::WaitingJxlpIndex(left) => no_index(p.jxlp) || left.under(4),
        DetectState::WaitingInnerType(left) => over_index(p.jxlp) || left.under(4),
        DetectState::Refused { .. } => false,
        _ => over_index(p.jxlp),
    }
}
