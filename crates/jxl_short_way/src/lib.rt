// The short way through a turn whose input lies inside the codestream part held.
#![tactic(auto)]

ghost use Rattle.std.specs.Prelude.{◌≡◌, ◌+◌, ◌^◌, ◌<◌, ◌≤◌, leb};
ghost use Rattle.jxl_totals.specs.Step.{limit};
ghost use Rattle.jxl_list_rules.specs.Way.{way_behind, way_of};

use jxl_events::{FileEvent, ParseEvent};
use jxl_impossible::over_index;
use jxl_joiner::Joiner;
use jxl_marks::LIMIT;
use jxl_parts::ends_at;
use jxl_record::{BoxParser, DetectState};
use jxl_totals::ContainerParser;

// Whether `n` bytes behind `total` end at the limit of a file or before.
fn within(total: u64, n: usize) -> bool
    ensures { result ≡ leb (total + n) limit }
{
    total.saturating_add(n as u64) <= LIMIT
}

// The record behind `n` bytes inside a codestream, and the part held then; none with an event to tell first, or with nothing left
// behind the bytes.
fn way_behind(parser: ContainerParser, at: usize, n: usize) -> Option<(ContainerParser, Joiner)>
    requires { (parser.total + n < 2 ^ 64) × (at ≤ parser.total) }
    ensures { result ≡ way_behind parser at n }
{
    let BoxParser { state, jxlp } = parser.boxes;
    let DetectState::InCodestream {
        kind,
        bytes_left,
        pending_no_more_aux_box: false,
    } = state
    else {
        return None;
    };
    let then = bytes_left.less(n as u64);
    if over_index(jxlp) || then.under(1) {
        return None;
    }
    let total = parser.total + n as u64;
    let state = DetectState::InCodestream {
        kind,
        bytes_left: then,
        pending_no_more_aux_box: false,
    };
    let longer = FileEvent {
        event: ParseEvent::Codestream {
            at,
            len: total as usize - at,
        },
        total,
    };
    let next = ContainerParser {
        boxes: BoxParser { state, jxlp },
        total,
        header: parser.header,
    };
    Some((next, Joiner { held: Some(longer) }))
}

// What the short way leaves of a turn on `n` bytes: the record, and the joiner with its part made longer; or none, where the turn is to be
// worked out. Most turns on a large picture lie inside one payload.
pub fn way(parser: ContainerParser, joiner: Joiner, n: usize) -> Option<(ContainerParser, Joiner)>
    ensures { result ≡ way_of parser joiner.held n }
{
    let ParseEvent::Codestream { at, len } = joiner.held?.event else {
        return None;
    };
    if n > 0 && within(parser.total, n) && ends_at(at, len, parser.total as usize) {
        way_behind(parser, at, n)
    } else {
        None
    }
}
