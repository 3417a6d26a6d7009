// What the end call comes to behind a feed: its answer as a token of the stored lists, and a mark where it, or a call behind it, breaks a
// rule that the lists do not spell out.
#![tactic(auto)]

use box_answers::{Feed, is_repeated};
use box_lines::Token;
use jxl_container::{BoxRefusal, ContainerParser, EndResult, FileEvent, FileRefusal, StepResult};

// A file that a new parser would take.
const FILE: &[u8] = b"\xff\x0a";

// Whether the record that was ended answers a feed of `input` Closed, consumes nothing and keeps its total.
fn is_closed(ended: ContainerParser, input: &[u8]) -> bool {
    matches!(
        jxl_container::step(ended, input),
        StepResult::Closed { next, consumed: 0 } if next.total == ended.total
    )
}

// Whether it answers a further end call done, with nothing owed, and keeps its total.
fn is_done(ended: ContainerParser, unread: &[u8]) -> bool {
    let again = jxl_container::end(ended, unread);
    again.next.total == ended.total && matches!(again.answer, Ok(None))
}

// The three calls behind an end that was done: a feed of nothing, one of a file that a new parser would take, and an end call with it.
fn stays_closed(ended: ContainerParser) -> bool {
    is_closed(ended, b"") && is_closed(ended, FILE) && is_done(ended, FILE)
}

// Whether the refused record repeats its refusal to a further end call, and keeps its total.
fn is_refused(ended: ContainerParser, unread: &[u8], first: FileRefusal) -> bool {
    let again = jxl_container::end(ended, unread);
    again.next.total == first.total && matches!(again.answer, Err(refusal) if refusal == first)
}

// The same three calls behind an end that was refused.
fn stays_refused(ended: ContainerParser, first: FileRefusal) -> bool {
    is_repeated(ended, b"", first)
        && is_repeated(ended, FILE, first)
        && is_refused(ended, FILE, first)
}

// The refusal that an end behind the feed may give: the one that the feed ended with, or else CutShort, at the bytes consumed.
fn due<const N: usize>(feed: &Feed<N>) -> FileRefusal {
    let total = feed.total();
    feed.refusal.unwrap_or(FileRefusal {
        rule: BoxRefusal::CutShort,
        total,
        place: total,
    })
}

// Puts the event that is owed, at its place in the file, or that none is, and a mark where it carries another total.
fn put_owed<const N: usize>(feed: &mut Feed<N>, owed: Option<FileEvent>) {
    let Some(event) = owed else {
        return feed.put(Token::Nothing);
    };
    let placed = event.in_file();
    feed.put(Token::Event {
        event: placed.event,
        base: 0,
    });
    feed.hold(event.total == feed.total());
}

// The end call behind a feed, made with `unread`. Its answer goes behind the feed's.
pub fn end<const N: usize>(feed: &mut Feed<N>, unread: &[u8]) -> EndResult {
    let ended = jxl_container::end(feed.parser, unread);
    let total = feed.total();
    match ended.answer {
        Ok(owed) => {
            put_owed(feed, owed);
            feed.hold(ended.next.total == total && stays_closed(ended.next));
        }
        Err(refusal) => {
            feed.put(Token::Refusal(refusal.rule));
            feed.hold(refusal == due(feed));
            feed.hold(ended.next.total == refusal.total && stays_refused(ended.next, refusal));
        }
    }
    ended
}

#[cfg(test)]
mod tests {
    use super::*;
    use box_answers::whole;

    // lines 7 to 9 of the stored list
    #[test]
    fn a_bare_file_ends_with_nothing_owed(rt: HostRuntime) {
        let mut feed = whole::<64>(b"\xff\x0a", b"2");
        end(&mut feed, b"");
        assert_eq!(rt; feed.answer.as_bytes(), b"Kb N C@0+2 |2 -".as_slice());
    }
}
