// Payload parts that lie end to end: whether two events are such parts, and how far the joined one reaches.
#![tactic(auto)]

ghost use Rattle.std.specs.Prelude.{◌≡◌, ◌+◌, ◌-◌, eqb};
ghost use Rattle.jxl_parts.specs.Joined as Spec;

use jxl_events::ParseEvent;

// Whether `n` bytes at `a` end where `b` is.
pub fn ends_at(a: usize, n: usize, b: usize) -> bool
    ensures { result ≡ eqb (a + n) b }
{
    b.checked_sub(a) == Some(n)
}

// Whether `event` is a part of a codestream that starts behind `n` bytes at `a`.
fn code_at(a: usize, n: usize, event: ParseEvent) -> bool
    ensures { result ≡ Spec.code_at (a + n) event }
{
    matches!(event, ParseEvent::Codestream { at, .. } if ends_at(a, n, at))
}

// Whether `event` is a part of a side box of type `t` that starts behind `n` bytes at `a`.
fn aux_at(t: u32, a: usize, n: usize, event: ParseEvent) -> bool
    ensures { result ≡ Spec.aux_at t (a + n) event }
{
    matches!(event, ParseEvent::AuxBoxData { ty, at, .. } if t == ty && ends_at(a, n, at))
}

// Whether the two are parts of one payload, the second where the first ends.
pub fn joins(first: ParseEvent, second: ParseEvent) -> bool
    ensures { result ≡ Spec.joins first second }
{
    match first {
        ParseEvent::Codestream { at, len } => code_at(at, len, second),
        ParseEvent::AuxBoxData { ty, at, len } => aux_at(ty, at, len, second),
        _ => false,
    }
}

// The part from its place up to `total`.
pub fn reaching(total: u64, event: ParseEvent) -> ParseEvent
    ensures { result ≡ Spec.reaching total event }
{
    match event {
        ParseEvent::Codestream { at, .. } => ParseEvent::Codestream {
            at,
            len: less(total, at),
        },
        ParseEvent::AuxBoxData { ty, at, .. } => ParseEvent::AuxBoxData {
            ty,
            at,
            len: less(total, at),
        },
        _ => event,
    }
}

// What is left of `total` behind its first `at`; none if there are fewer. The same count as `place` of jxl_events, which says why it is twice.
fn less(total: u64, at: usize) -> usize
    ensures { result ≡ total - at }
{
    (total as usize).saturating_sub(at)
}
