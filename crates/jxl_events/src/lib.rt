// What a step shows: the parts of the input that events name, and an event's place in the file by the bytes consumed.
#![tactic(auto)]

ghost use Rattle.std.specs.Prelude.{◌≡◌, ◌-◌};
ghost use Rattle.jxl_events.specs.Event as Spec;
ghost use Rattle.jxl_events.specs.Total.{in_file};

use jxl_record::BitstreamKind;

// What a step shows. A payload is named by its place and length: in the step's input, or, behind `in_file` and a joiner, in the file.
#[derive(Clone, Copy, Debug, PartialEq, Eq)]
pub enum ParseEvent {
    BitstreamKind(BitstreamKind),
    NoMoreAuxBox,
    Codestream {
        at: usize,
        len: usize,
    },
    AuxBoxStart {
        ty: u32,
        brotli_compressed: bool,
        last_box: bool,
    },
    AuxBoxData {
        ty: u32,
        at: usize,
        len: usize,
    },
    AuxBoxEnd {
        ty: u32,
    },
}

// An event of a file, with the bytes consumed when it was given.
#[derive(Clone, Copy, Debug, PartialEq, Eq)]
pub struct FileEvent {
    pub event: ParseEvent,
    pub total: u64,
}

// The part of a step's input that its event shows, as the step told it, not behind `in_file`; an empty part if the event shows none, or
// if it lies outside.
pub fn payload(s: &[u8], event: ParseEvent) -> &[u8]
    ensures { result.now ≡ Spec.payload_of s.now event }
{
    match event {
        ParseEvent::Codestream { at, len } | ParseEvent::AuxBoxData { at, len, .. } => {
            let behind = s.get(at..).unwrap_or(&[]);
            behind.get(..len).unwrap_or(&[])
        }
        _ => &[],
    }
}

// The place of a payload of `len` bytes that ends at `total`; 0 if it is longer. `less` of jxl_parts counts the same: shared, this line
// would be a public function with a promise, a law and an edit of its own, which is no plainer.
fn place(total: u64, len: usize) -> usize
    ensures { result ≡ total - len }
{
    (total as usize).saturating_sub(len)
}

impl FileEvent {
    // The event with its payload's place in the file, where a payload is the last that was consumed: `total` less its length.
    pub fn in_file(self) -> FileEvent
        ensures { result ≡ in_file self }
    {
        let total = self.total;
        match self.event {
            ParseEvent::Codestream { len, .. } => FileEvent {
                event: ParseEvent::Codestream {
                    at: place(total, len),
                    len,
                },
                total,
            },
            ParseEvent::AuxBoxData { ty, len, .. } => FileEvent {
                event: ParseEvent::AuxBoxData {
                    ty,
                    at: place(total, len),
                    len,
                },
                total,
            },
            _ => self,
        }
    }
}
