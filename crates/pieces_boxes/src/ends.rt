// Pieces of the end: what the end call comes to behind a feed, and what the record that it leaves answers then.
use crate::{Feed, Piece};
use box_records::Record;
use jxl_container::{ContainerParser, EndResult};

// Prints the answers of a feed, the last of which is that of its end, and the record that the end left.
fn print_ended(rt: &impl Print, name: &str, feed: &Feed, ended: EndResult) {
    let (done, place) = match ended.answer {
        Ok(_) => (" done", ended.next.total),
        Err(refusal) => ("", refusal.place),
    };
    let record = Record {
        parser: ended.next,
        place,
    };
    let _ = println!(rt; "  {name}: {}{done} {record}", feed.answer);
}

// What a record that was ended answers to a feed of a file that a new parser would take, to one of nothing, and to an end call with that
// file unread.
fn then(rt: &impl Print, parser: ContainerParser) {
    let file = b"\xff\x0a";
    let mut feed = Feed::new(parser);
    feed.packet(file, 2);
    feed.packet(file, 0);
    let ended = box_ends::end(&mut feed, file);
    print_ended(rt, "then", &feed, ended);
}

impl Piece<'_> {
    // Ends the feed with the bytes of the file that it left unread, and answers the record that is left.
    fn end(self, rt: &impl Print, mut feed: Feed) -> ContainerParser {
        feed.answer.clear();
        let unread = feed.unread(self.file);
        let ended = box_ends::end(&mut feed, unread);
        print_ended(rt, "end", &feed, ended);
        ended.next
    }

    // The file fed in two packets, the first of `cut` bytes.
    fn in_two(self, rt: &impl Print, cut: usize) -> Feed {
        let mut feed = Feed::new(self.parser);
        feed.packet(self.file, cut);
        feed.packet(self.file, self.file.len());
        crate::print_feed(rt, "in two", &feed);
        feed
    }

    // One step on the file: where there are more events in it, they are not taken.
    fn one_step(self, rt: &impl Print) -> Feed {
        let mut feed = Feed::new(self.parser);
        feed.turn(self.file, self.file.len());
        crate::print_feed(rt, "one step", &feed);
        feed
    }

    // A file fed whole and ended, and fed in two packets and ended.
    pub fn ended(self, rt: &impl Print, cut: usize) {
        let whole = self.fed(rt, "whole");
        then(rt, self.end(rt, whole));
        let parted = self.in_two(rt, cut);
        self.end(rt, parted);
    }

    // A file given to one step, and ended with the rest of it unread.
    pub fn ended_early(self, rt: &impl Print) {
        let feed = self.one_step(rt);
        then(rt, self.end(rt, feed));
    }

    // A record given nothing, and ended with the bytes unread.
    pub fn ended_at_once(self, rt: &impl Print) {
        let feed = Piece { file: b"", ..self }.fed(rt, "nothing");
        then(rt, self.end(rt, feed));
    }
}
