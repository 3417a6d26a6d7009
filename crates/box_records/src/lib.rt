// Records as text, for the pieces: one read from the words of a line of the list, its state, the bytes left, the codestream boxes so far and
// the total; and one printed behind the answers that led to it.
#![tactic(auto)]

use jxl_headers::{BytesLeft, box_header};
use jxl_record::{BitstreamKind, BoxParser, DetectState, JxlpIndexState};
use jxl_refusals::BoxRefusal;
use jxl_totals::ContainerParser;
use replay_text::leading_number;
use std::fmt;

// `e` is to the end, else a number of bytes.
fn bytes_left(word: &[u8]) -> BytesLeft {
    match word {
        [b'e', ..] => BytesLeft::ToEnd,
        _ => BytesLeft::Bytes(leading_number(word, 10).0),
    }
}

// `-` is none, `c` a `jxlc`, `l` a last `jxlp`, else the index of the newest `jxlp`.
fn boxes(word: &[u8]) -> JxlpIndexState {
    match word {
        [b'-', ..] => JxlpIndexState::Initial,
        [b'c', ..] => JxlpIndexState::SingleJxlc,
        [b'l', ..] => JxlpIndexState::JxlpFinished,
        _ => JxlpIndexState::Jxlp((leading_number(word, 10).0 & 0xffff_ffff) as u32),
    }
}

// `s` is at the signature, `h` at a box header, `i` at a `jxlp` index, `t` at an inner type, `b` in an `Exif` box, `c` in a bare
// codestream, `w` refused by index 3 where 2 was expected, any other word refused by a reserved type in a `brob`.
fn state(word: &[u8], left: BytesLeft) -> DetectState {
    match word {
        [b's', ..] => DetectState::WaitingSignature,
        [b'h', ..] => DetectState::WaitingBoxHeader,
        [b'i', ..] => DetectState::WaitingJxlpIndex(left),
        [b't', ..] => DetectState::WaitingInnerType(left),
        [b'b', ..] => DetectState::InAuxBox {
            ty: box_header::EXIF,
            bytes_left: left,
        },
        [b'c', ..] => DetectState::InCodestream {
            kind: BitstreamKind::BareCodestream,
            bytes_left: left,
            pending_no_more_aux_box: true,
        },
        [b'w', ..] => DetectState::Refused {
            kind: BitstreamKind::Container,
            refusal: BoxRefusal::WrongIndex {
                found: 3,
                expected: 2,
            },
        },
        _ => DetectState::Refused {
            kind: BitstreamKind::Container,
            refusal: BoxRefusal::ValidationFailed,
        },
    }
}

// The record that four words tell. Its newest header is at half its total.
pub fn parser(
    state_word: &[u8],
    left_word: &[u8],
    boxes_word: &[u8],
    total_word: &[u8],
) -> ContainerParser {
    let (total, _) = leading_number(total_word, 10);
    ContainerParser {
        boxes: BoxParser {
            state: state(state_word, bytes_left(left_word)),
            jxlp: boxes(boxes_word),
        },
        total,
        header: total / 2,
    }
}

// Writes the `jxlc` and `jxlp` boxes so far.
fn write_boxes<W: fmt::Write>(f: &mut fmt::Formatter<W>, jxlp: JxlpIndexState) -> fmt::Result {
    match jxlp {
        JxlpIndexState::Initial => f.write_str("none"),
        JxlpIndexState::SingleJxlc => f.write_str("jxlc"),
        JxlpIndexState::JxlpFinished => f.write_str("last"),
        JxlpIndexState::Jxlp(index) => write!(f, "jxlp {index}"),
    }
}

// Writes a refusal's text as the library puts it: into a lent buffer, of which a text takes at most 61 bytes.
fn write_text<W: fmt::Write>(f: &mut fmt::Formatter<W>, refusal: BoxRefusal) -> fmt::Result {
    let mut text = [0u8; 64];
    let Ok(len) = jxl_refusal_text::put_refusal(&mut text, 0, refusal) else {
        return Err(fmt::Error);
    };
    match str::from_utf8(text.get(..len).unwrap_or(b"")) {
        Ok(words) => f.write_str(words),
        Err(_) => Err(fmt::Error),
    }
}

// A record as it is printed: the kind that it tells on request, its boxes, its total and its newest header; and of one that takes no more
// the text that says why, and the place that its refusal names.
#[derive(Clone, Copy)]
pub struct Record {
    pub parser: ContainerParser,
    pub place: u64,
}

impl fmt::Display for Record {
    fn fmt<W: fmt::Write>(&self, f: &mut fmt::Formatter<W>) -> fmt::Result {
        let parser = self.parser;
        write!(f, "kind {} boxes ", box_lines::letter(parser.kind()))?;
        write_boxes(f, parser.boxes.jxlp)?;
        write!(f, " total {} header {}", parser.total, parser.header)?;
        if let DetectState::Refused { refusal, .. } = parser.boxes.state {
            f.write_str(": ")?;
            write_text(f, refusal)?;
            write!(f, ", at {}", self.place)?;
        }
        Ok(())
    }
}
