// How many bytes a line of the listing has.
#![tactic(auto)]

ghost use Rattle.std.specs.Prelude.{◌≡◌, ◌+◌, ◌≤◌, length};
ghost use Rattle.jxl_lines.specs.Digits.{decimal};
ghost use Rattle.jxl_lines.specs.Lines.{stop_word, text};

use jxl_events::ParseEvent;
use jxl_lines::{Line, StopWord};
use jxl_record::BitstreamKind;

// How many decimal digits `n` has.
#[tactic(auto, using(crate::proofs::Counting::one_digit, crate::proofs::Counting::digits_by_power))]
pub fn digits(n: usize) -> usize
    ensures value { result ≡ length (decimal n) }
    ensures upper_bound { result ≤ 20 }
{
    match n.checked_ilog10() {
        None => 1, // 0 has no logarithm
        Some(power) => power as usize + 1,
    }
}

// The bytes of a stop's line but for its number.
fn stop_length(stop: StopWord) -> usize
    ensures { result ≡ 7 + length (stop_word stop) }
{
    match stop {
        StopWord::Want | StopWord::Done => 11,
        StopWord::Limit => 12,
        StopWord::Closed => 13,
        StopWord::Refused1 | StopWord::Refused2 => 15,
        StopWord::CutShort => 15,
    }
}

// The bytes of the line, counted and not written.
#[tactic(auto, using(jxl_lines::proofs::Sizes::start_size, jxl_lines::proofs::Sizes::data_size, jxl_lines::proofs::Sizes::end_size))]
pub fn line_length(line: Line) -> usize
    ensures { result ≡ length (text line) }
{
    match line {
        Line::Shown(ParseEvent::BitstreamKind(BitstreamKind::BareCodestream)) => 10,
        Line::Shown(ParseEvent::BitstreamKind(BitstreamKind::Container)) => 15,
        Line::Shown(ParseEvent::BitstreamKind(BitstreamKind::Unknown | BitstreamKind::Invalid)) => {
            13
        }
        Line::Shown(ParseEvent::NoMoreAuxBox) => 7,
        Line::Shown(ParseEvent::Codestream { at, len }) => 7 + digits(at) + digits(len),
        Line::Shown(
            ParseEvent::AuxBoxStart {
                brotli_compressed,
                last_box,
                ..
            },
        ) => match (brotli_compressed, last_box) {
            (true, true) => 26,
            (true, false) => 28,
            (false, true) => 27,
            (false, false) => 29,
        },
        Line::Shown(ParseEvent::AuxBoxData { at, len, .. }) => 16 + digits(at) + digits(len),
        Line::Shown(ParseEvent::AuxBoxEnd { .. }) => 13,
        Line::Stopped { stop, consumed } => stop_length(stop) + digits(consumed),
    }
}
