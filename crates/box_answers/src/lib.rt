// What feeding a file to the parser in packets shows, each behind the bytes that the feeds before left unread, as tokens of the stored lists.
#![tactic(auto)]

ghost use Rattle.std.specs.Prelude.{◌≡◌, ◌+◌, ◌%◌, ◌^◌, ◌≤◌, None, true, length, take};
ghost use Rattle.jxl_slices.specs.Part.{between};
ghost use Rattle.replay_text.specs.Held.{held};

use box_lines::Token;
use jxl_container::{
    BitstreamKind, BoxRefusal, ContainerParser, FileEvent, FileRefusal, ParseEvent, StepResult,
};
use jxl_slices::part;
use replay_text::{Bytes, leading_number};

// The bytes that a packet puts, at most: in each of 129 turns a token and three marks, then two marks and the bytes consumed. No token has
// more than 51.
pub const PACKET_MOST: usize = 8192;

// A feed: its answer so far, the record, the record's total at the start and the bytes consumed since, counted here, the kind that an event
// told, and where the last step refused, or answered Closed, that refusal. The answer has N bytes at most: what has no room is left out.
#[derive(Clone, Copy)]
pub struct Feed<const N: usize> {
    pub answer: Bytes<N>,
    pub parser: ContainerParser,
    pub from: u64,
    pub consumed: usize,
    pub told: BitstreamKind,
    pub refusal: Option<FileRefusal>,
}

// Whether the payload that the event hands out is that part of the file, and empty where it shows none.
fn is_payload(file: &[u8], base: usize, input: &[u8], event: ParseEvent) -> bool {
    let shown = jxl_container::payload(input, event);
    match event {
        ParseEvent::Codestream { at, len } | ParseEvent::AuxBoxData { at, len, .. } => {
            let start = base.wrapping_add(at);
            shown.len() == len && shown == part(file, start, start.wrapping_add(len))
        }
        _ => shown.is_empty(),
    }
}

// The place of the payload that an event shows.
fn place(event: ParseEvent) -> Option<u64> {
    match event {
        ParseEvent::Codestream { at, .. } | ParseEvent::AuxBoxData { at, .. } => Some(at as u64),
        _ => None,
    }
}

// Whether a payload of an input that stands at `start` in the whole file is where `in_file` says.
fn is_placed(start: u64, event: FileEvent) -> bool {
    let placed = event.in_file();
    place(placed.event) == place(event.event).map(|at| start.wrapping_add(at))
}

// Whether the refused record, given `input`, consumes nothing and repeats the refusal.
pub fn is_repeated(refused: ContainerParser, input: &[u8], first: FileRefusal) -> bool {
    matches!(
        jxl_container::step(refused, input),
        StepResult::Refused { consumed: 0, refusal, .. } if refusal == first
    )
}

impl<const N: usize> Feed<N> {
    // The start of a feed: a record, nothing consumed, no answer yet.
    pub fn new(parser: ContainerParser) -> Self
        ensures { (result.parser ≡ parser) × (result.consumed ≡ 0) × (result.refusal ≡ None) }
    {
        Feed {
            answer: Bytes::new(),
            parser,
            from: parser.total,
            consumed: 0,
            told: parser.kind(),
            refusal: None,
        }
    }

    // The bytes consumed of the whole file, by this feed's own count.
    pub fn total(&self) -> u64
        ensures { result ≡ (self.now.from + self.now.consumed) % 2 ^ 64 }
    {
        self.from.wrapping_add(self.consumed as u64)
    }

    // The bytes of the file that are not consumed.
    pub fn unread<'f>(&self, file: &'f [u8]) -> &'f [u8]
        ensures { result.now ≡ between file.now self.now.consumed (length file.now) }
    {
        part(file, self.consumed, file.len())
    }

    // Puts a token, which consumes nothing.
    pub fn put(&mut self, token: Token)
        ensures { self.new.consumed ≡ self.old.consumed }
    {
        box_lines::put(&mut self.answer, token);
    }

    // Puts a mark where a rule is not kept; else the answer stays.
    pub fn hold(&mut self, is_kept: bool)
        ensures { is_kept ≡ true → held self.new.answer ≡ held self.old.answer }
    {
        box_lines::hold(&mut self.answer, is_kept);
    }

    // Puts an event of a step on `input`, and a mark where its payload is not that part of the file, or not where the event says.
    fn show(&mut self, file: &[u8], input: &[u8], shown: FileEvent) {
        let event = shown.event;
        let base = self.consumed;
        if let ParseEvent::BitstreamKind(kind) = event {
            self.told = kind;
        }
        self.put(Token::Event { event, base });
        self.hold(is_payload(file, base, input, event));
        self.hold(is_placed(self.total(), shown));
    }

    // Puts a refusal of a step on `input`, and a mark where the refused record does not repeat it, given the input again or nothing.
    fn refuse(&mut self, next: ContainerParser, input: &[u8], refusal: FileRefusal) {
        self.refusal = Some(refusal);
        self.put(Token::Refusal(refusal.rule));
        self.hold(is_repeated(next, input, refusal));
        self.hold(is_repeated(next, b"", refusal));
    }

    // Puts Closed.
    fn close(&mut self, next: ContainerParser) {
        let rule = BoxRefusal::Closed;
        let total = next.total;
        self.refusal = Some(FileRefusal {
            rule,
            total,
            place: total,
        });
        self.put(Token::Refusal(rule));
    }

    // Passes to the record behind a step, and puts a mark where the step did not count its bytes, or told another total.
    fn pass(&mut self, next: ContainerParser, consumed: usize, told: u64) {
        let total = self.parser.total.wrapping_add(consumed as u64);
        self.parser = next;
        self.consumed = self.consumed.wrapping_add(consumed);
        self.hold(next.total == total && told == total);
    }

    // One step on the bytes of the file up to `end` that are not consumed: whether it showed an event, so that more may come.
    pub fn turn(&mut self, file: &[u8], end: usize) -> bool {
        let input = part(file, self.consumed, end);
        self.refusal = None;
        match jxl_container::step(self.parser, input) {
            StepResult::Shown {
                next,
                consumed,
                event,
            } => {
                self.show(file, input, event);
                self.pass(next, consumed, event.total);
                return true;
            }
            StepResult::Want { next, consumed } => self.pass(next, consumed, next.total),
            StepResult::Refused {
                next,
                consumed,
                refusal,
            } => {
                self.refuse(next, input, refusal);
                self.pass(next, consumed, refusal.total);
            }
            StepResult::Closed { next, consumed } => {
                self.close(next);
                self.pass(next, consumed, next.total);
            }
        }
        false
    }

    // Steps up to WANT or a refusal. A proved loop has to end, and no file of the list has 128 events.
    fn steps(&mut self, file: &[u8], end: usize) {
        for _ in 0..129 {
            if !self.turn(file, end) {
                break;
            }
        }
    }

    // Whether at most 15 bytes are unread, or the parser has refused.
    fn is_read(&self, end: usize) -> bool {
        self.refusal.is_some() || end.wrapping_sub(self.consumed) <= 15
    }

    // The packet that ends at `end` of the file: its steps, a mark where a rule that holds behind it is broken, and the bytes consumed.
    pub fn packet(&mut self, file: &[u8], end: usize) {
        self.steps(file, end);
        self.hold(self.is_read(end));
        // the kind told on request is the one that an event told
        let told = self.told;
        self.hold(self.parser.kind() == told);
        self.put(Token::PacketEnd(self.consumed));
    }
}

// The file fed in packets of the lengths `cuts`, nothing after a refusal.
pub fn whole<const N: usize>(file: &[u8], cuts: &[u8]) -> Feed<N> {
    let mut feed = Feed::new(ContainerParser::new());
    let mut end = 0usize;
    for cut in cuts.split_inclusive(|b| *b == b',') {
        end = end.wrapping_add(leading_number(cut, 10).0 as usize);
        feed.packet(file, end);
        if feed.refusal.is_some() {
            break;
        }
    }
    feed
}

// Puts what a packet put behind the `at` bytes that stand in `out`, parted by a space, as far as there is room, and answers how many stand
// there then.
fn put_packet(out: &mut [u8], at: usize, text: &[u8]) -> usize
    requires { at ≤ length out.old }
    ensures within { (at ≤ result) × (result ≤ length out.new) }
    ensures front { take at out.new ≡ take at out.old }
{
    let mut next = at;
    if 0 < at && at < out.len() {
        out[at] = b' ';
        next = at + 1;
    }
    let count = text.len().min(out.len() - next);
    out[next..next + count].copy_from_slice(&text[..count]);
    next + count
}

// The same as `whole`, for an answer of any length: it is put into `out`, as far as there is room. Answers the feed, which holds what the
// last packet put, and how many bytes stand in `out`.
pub fn whole_into(out: &mut [u8], file: &[u8], cuts: &[u8]) -> (Feed<PACKET_MOST>, usize)
    ensures { result.1 ≤ length out.new }
{
    let mut feed = Feed::new(ContainerParser::new());
    let mut end = 0usize;
    let mut at = 0;
    for cut in cuts.split_inclusive(|b| *b == b',') {
        end = end.wrapping_add(leading_number(cut, 10).0 as usize);
        feed.answer.clear();
        feed.packet(file, end);
        at = put_packet(out, at, feed.answer.as_bytes());
        if feed.refusal.is_some() {
            break;
        }
    }
    (feed, at)
}

#[cfg(test)]
mod tests {
    use super::*;

    // lines 7 and 10 of the stored list
    #[test]
    fn a_bare_file_comes_in_two_packets(rt: HostRuntime) {
        let feed = whole::<64>(b"\xff\x0a", b"1,1");
        assert_eq!(rt; feed.answer.as_bytes(), b"|0 Kb N C@0+2 |2".as_slice());
    }

    // a byte in the first packet, the other in the second, and 498 packets with nothing in them: an answer longer than those of the programs
    #[test]
    fn an_answer_is_as_long_as_its_bound(rt: HostRuntime) {
        let mut cuts = Bytes::<1000>::new();
        cuts.push(b"1,1");
        for _ in 0..498 {
            cuts.push(b",0");
        }
        let feed = whole::<2048>(b"\xff\x0a", cuts.as_bytes());
        assert_eq!(rt; feed.answer.as_bytes().len(), 16 + 498 * 3);
        assert!(rt; feed.answer.as_bytes().ends_with(b" |2 |2"));
        let mut out = [0; 2048];
        let (lent, len) = whole_into(&mut out, b"\xff\x0a", cuts.as_bytes());
        assert_eq!(rt; &out[..len], feed.answer.as_bytes());
        assert_eq!(rt; lent.answer.as_bytes(), b"|2".as_slice());
        let (_, len) = whole_into(&mut out[..4], b"\xff\x0a", b"1,1");
        assert_eq!(rt; &out[..len], b"|0 K".as_slice());
        let short = whole::<4>(b"\xff\x0a", b"1,1");
        assert_eq!(rt; short.answer.as_bytes(), b"|0 K".as_slice());
        assert_eq!(rt; short.consumed, 2);
    }

    // a box of 2 bytes behind the file type, and a packet behind the one in which it is refused, which is not fed
    #[test]
    fn nothing_is_fed_behind_a_refusal(rt: HostRuntime) {
        let file = b"\0\0\0\x0cJXL \r\n\x87\n\0\0\0\x14ftypjxl \0\0\0\0jxl \0\0\0\x02abcdefgh";
        let told = b"|0 Kc S66747970,p,b D66747970@20+12 E66747970 |32 R10 |32";
        let mut out = [0; 100];
        let (feed, len) = whole_into(&mut out, file, b"5,30,5,4");
        assert_eq!(rt; &out[..len], told.as_slice());
        assert!(rt; feed.refusal.is_some());
        assert_eq!(rt;
            whole::<100>(file, b"5,30,5,4").answer.as_bytes(),
            told.as_slice()
        );
    }

    #[test]
    fn a_turn_shows_the_kind(rt: HostRuntime) {
        let mut feed = Feed::<64>::new(ContainerParser::new());
        let shown = feed.turn(b"\xff\x0a", 2);
        assert!(rt; shown);
        feed.hold(false);
        feed.put(Token::Nothing);
        assert_eq!(rt; feed.answer.as_bytes(), b"Kb ! -".as_slice());
    }
}
