// The marks that counting sets: how much of the input is there, the newest header, and the place that a refusal names. Numbers alone: the
// record that carries them is made by jxl_container, the answer by jxl_counts. A total and a header come apart, not as one struct:
// docs/PROMISES.md promises these functions so.
#![tactic(auto)]

ghost use Rattle.std.specs.Prelude.{◌≡◌, ◌-◌, min, ltb};
ghost use Rattle.jxl_headers.specs.Bytes.{if, and};
ghost use Rattle.jxl_totals.specs.Naming.{is_closed};
ghost use Rattle.jxl_totals.specs.Step as Spec;

use jxl_record::{BoxParser, DetectState};
use jxl_refusals::BoxRefusal;
use jxl_totals::{ContainerParser, FileRefusal};

// Files are limited to 2^63 - 1 bytes.
pub const LIMIT: u64 = 0x7fff_ffff_ffff_ffff;

// How many of `n` bytes of input are there. Far from the limit, where every file is, two quick tests tell; without them a step takes up
// to a fifth longer.
pub fn visible(total: u64, n: usize) -> usize
    ensures { result ≡ min n (Spec.limit - total) }
{
    if n <= 0x7fff_ffff && total <= 0x7fff_ffff_0000_0000 {
        return n;
    }
    let room = LIMIT.saturating_sub(total);
    n.min(room as usize)
}

// Whether the next step starts at a header.
pub fn at_header(p: BoxParser) -> bool
    ensures { result ≡ Spec.at_header p }
{
    matches!(p.state, DetectState::WaitingBoxHeader)
}

// The newest header behind a step that consumes `n` bytes.
pub fn newest(starts: bool, n: usize, total: u64, header: u64) -> u64
    ensures { result ≡ if (and starts (ltb 0 n)) total header }
{
    looked_at(starts && 0 < n, total, header)
}

// The newest header behind a step that was refused: it was looked at, though nothing of it is consumed.
pub fn looked_at(starts: bool, total: u64, header: u64) -> u64
    ensures { result ≡ if starts total header }
{
    if starts { total } else { header }
}

// The place that a refusal names.
pub fn place(rule: BoxRefusal, total: u64, header: u64) -> u64
    ensures { result ≡ if (Spec.of_header rule) header total }
{
    match rule {
        BoxRefusal::ImpossibleRecord => total,
        BoxRefusal::StreamLimit | BoxRefusal::CutShort | BoxRefusal::Closed => total,
        _ => header,
    }
}

// The refusal by a rule that a record tells: the bytes consumed then, and the place that it names.
pub fn refusal_of(rule: BoxRefusal, p: ContainerParser) -> FileRefusal
    ensures { result ≡ Spec.refusal_of rule p }
{
    FileRefusal {
        rule,
        total: p.total,
        place: place(rule, p.total, p.header),
    }
}

// Whether a parser stays at this because it was ended, and not because a rule broke.
pub fn is_closed(rule: BoxRefusal) -> bool
    ensures { result ≡ is_closed rule }
{
    rule == BoxRefusal::Closed
}
