// What the end of a file comes to, by the record of the rules on boxes and the bytes left unread: something is missing, or an event is
// still owed, or nothing is. What is missing goes first.
#![tactic(auto)]

ghost use Rattle.std.specs.Prelude.{◌≡◌, [], eqb};
ghost use Rattle.jxl_headers.specs.Bytes.{if};
ghost use Rattle.jxl_grammar.specs.End as Spec;
ghost use Rattle.jxl_owed.specs.Told.{told_close};

use jxl_events::ParseEvent;
use jxl_headers::BytesLeft;
use jxl_record::{BitstreamKind, BoxParser, DetectState, JxlpIndexState};

// What an end comes to. Not a Result of an Option: its three cases are those of the definition, each by its name.
#[derive(Clone, Copy, Debug, PartialEq, Eq)]
pub enum Close {
    Missing,
    Owes(ParseEvent),
    Nothing,
}

// The event of a payload of which so many bytes are left, which is owed where none is missing.
fn owes_whole(n: u64, event: ParseEvent) -> Close
    ensures { told_close result ≡ if (eqb n 0) (Spec.owes event) Spec.missing }
{
    if n == 0 {
        Close::Owes(event)
    } else {
        Close::Missing
    }
}

// What a side box owes of which so much is left: its end, also that of a box to the end.
fn aux_owes(ty: u32, left: BytesLeft) -> Close
    ensures { told_close result ≡ Spec.aux_owes ty left }
{
    match left {
        BytesLeft::ToEnd => Close::Owes(ParseEvent::AuxBoxEnd { ty }),
        BytesLeft::Bytes(n) => owes_whole(n, ParseEvent::AuxBoxEnd { ty }),
    }
}

// What a codestream owes of which so much is left: NO_MORE_AUX where that is not told, or the part of a bounded box without a payload.
fn code_owes(left: BytesLeft, pending: bool) -> Close
    ensures { told_close result ≡ Spec.code_owes left pending 0 }
{
    match left {
        BytesLeft::ToEnd if pending => Close::Owes(ParseEvent::NoMoreAuxBox),
        BytesLeft::ToEnd => Close::Nothing,
        BytesLeft::Bytes(n) => owes_whole(n, ParseEvent::Codestream { at: 0, len: 0 }),
    }
}

// What is owed by what the parser waits for, or is inside of: what is left of a box; between two boxes nothing. A signature, an index or an
// inner type is missing, and a refused parser gives no more.
fn state_owes(state: DetectState) -> Close
    ensures { told_close result ≡ Spec.state_owes state }
{
    match state {
        DetectState::WaitingBoxHeader => Close::Nothing,
        DetectState::InAuxBox { ty, bytes_left } => aux_owes(ty, bytes_left),
        DetectState::InCodestream {
            bytes_left,
            pending_no_more_aux_box,
            ..
        } => code_owes(bytes_left, pending_no_more_aux_box),
        _ => Close::Missing,
    }
}

// What an end comes to where no byte is unread: what is missing goes ahead of any event owed.
fn all_read(p: BoxParser) -> Close
    ensures { told_close result ≡ Spec.close_of p [] }
{
    if p.kind() == BitstreamKind::Unknown || matches!(p.jxlp, JxlpIndexState::Jxlp(_)) {
        return Close::Missing;
    }
    state_owes(p.state)
}

// What an end comes to.
pub fn close_of(p: BoxParser, unread: &[u8]) -> Close
    ensures { told_close result ≡ Spec.close_of p unread.now }
{
    if unread.is_empty() {
        all_read(p)
    } else {
        Close::Missing
    }
}
