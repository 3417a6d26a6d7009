// The record that a user holds and feeds: the rules' own, with the bytes consumed so far and the first byte of the newest header.
// What a step of it tells, and the theorems on it, are in specs/.
#![tactic(auto)]

ghost use Rattle.std.specs.Prelude.{◌≡◌};
ghost use Rattle.jxl_grammar.specs.Step as Boxes;
ghost use Rattle.jxl_totals.specs.Step.{counted, fresh, kind_of};

use jxl_record::{BitstreamKind, BoxParser, DetectState};
use jxl_refusals::BoxRefusal;

// The parser's whole record: the rules' own, the bytes consumed, and the first byte of the newest header (0 before the first one). The
// rules on boxes know nothing of the two counts.
#[derive(Clone, Copy, Debug, PartialEq, Eq)]
pub struct ContainerParser {
    pub boxes: BoxParser,
    pub total: u64,
    pub header: u64,
}

// A refusal: the rule that broke, the bytes consumed then, and the place that it names: the first byte of the header that it
// concerns, or, with none, the bytes consumed.
#[derive(Clone, Copy, Debug, PartialEq, Eq)]
pub struct FileRefusal {
    pub rule: BoxRefusal,
    pub total: u64,
    pub place: u64,
}

impl ContainerParser {
    // A new parser.
    pub fn new() -> Self
        ensures { result ≡ fresh }
    {
        ContainerParser {
            boxes: BoxParser::new(),
            total: 0,
            header: 0,
        }
    }

    // A record of these three.
    pub fn at(boxes: BoxParser, total: u64, header: u64) -> Self
        ensures { result ≡ counted boxes total header }
    {
        ContainerParser {
            boxes,
            total,
            header,
        }
    }

    // The kind of bitstream: unknown before KIND, then KIND's.
    pub fn kind(self) -> BitstreamKind
        ensures { result ≡ kind_of self }
    {
        self.boxes.kind()
    }

    // The record that takes no more for this cause; kind, row, total and header stay.
    pub fn stopped(self, refusal: BoxRefusal) -> Self
        ensures { result ≡ counted (Boxes.refused refusal self.boxes) self.total self.header }
    {
        let kind = self.kind();
        let state = DetectState::Refused { kind, refusal };
        let boxes = BoxParser::at(state, self.boxes.jxlp);
        ContainerParser::at(boxes, self.total, self.header)
    }
}
