// The container parser's record, after the Rust's container.rs: a value that goes in and comes back.
#![tactic(auto)]

ghost use Rattle.std.specs.Prelude.{◌≡◌};
ghost use Rattle.jxl_record.specs.Record.{at, fresh, kind_of};

use jxl_headers::BytesLeft;
use jxl_refusals::BoxRefusal;

// Structure of the decoded bitstream.
#[derive(Clone, Copy, Debug, PartialEq, Eq)]
pub enum BitstreamKind {
    // Not yet told.
    Unknown,
    // A direct codestream without box structure.
    BareCodestream,
    // A container with box structure.
    Container,
    // Not a valid JPEG XL image.
    Invalid,
}

// The `jxlc` and `jxlp` boxes so far: none, one `jxlc`, a row of `jxlp` with the index of the newest, a whole row.
#[derive(Clone, Copy, Debug, PartialEq, Eq)]
pub enum JxlpIndexState {
    Initial,
    SingleJxlc,
    Jxlp(u32),
    JxlpFinished,
}

// What the parser waits for, or is inside of.
#[derive(Clone, Copy, Debug, PartialEq, Eq)]
pub enum DetectState {
    WaitingSignature,
    WaitingBoxHeader,
    // The 4 bytes of a `jxlp` index; the payload's size counts them.
    WaitingJxlpIndex(BytesLeft),
    // The 4 bytes of a `brob`'s inner type; the payload's size counts them.
    WaitingInnerType(BytesLeft),
    InAuxBox {
        ty: u32,
        bytes_left: BytesLeft,
    },
    InCodestream {
        kind: BitstreamKind,
        bytes_left: BytesLeft,
        pending_no_more_aux_box: bool,
    },
    // A refusal stays, and the kind stays what it was.
    Refused {
        kind: BitstreamKind,
        refusal: BoxRefusal,
    },
}

// The parser's whole state.
#[derive(Clone, Copy, Debug, PartialEq, Eq)]
pub struct BoxParser {
    pub state: DetectState,
    pub jxlp: JxlpIndexState,
}

impl BoxParser {
    // A new parser.
    pub fn new() -> Self
        ensures { result ≡ fresh }
    {
        BoxParser {
            state: DetectState::WaitingSignature,
            jxlp: JxlpIndexState::Initial,
        }
    }

    // A record of these two.
    pub fn at(state: DetectState, jxlp: JxlpIndexState) -> Self
        ensures { result ≡ at state jxlp }
    {
        BoxParser { state, jxlp }
    }

    // The kind of bitstream: unknown before KIND, then KIND's.
    pub fn kind(self) -> BitstreamKind
        ensures { result ≡ kind_of self }
    {
        match self.state {
            DetectState::WaitingSignature => BitstreamKind::Unknown,
            DetectState::InCodestream { kind, .. } | DetectState::Refused { kind, .. } => kind,
            _ => BitstreamKind::Container,
        }
    }
}
