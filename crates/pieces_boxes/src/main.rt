// Runs pieces of the format: each line of the list is a record and a file in hex, and for a piece of the end one word more. The record is
// given nothing, then the file; if it refuses, the file again and nothing. Prints a line for each: the answers, then the record's kind,
// codestream boxes, total and newest header, and of a record that takes no more the text that says why and the place that it names.
#![tactic(auto)]

use box_lines::LINE_MOST;
use box_records::Record;
use jxl_container::ContainerParser;
use replay_text::{leading_number, lines, read_input, split_once};
use std::io;
use std::io::Write;

mod ends;

// A feed whose answer is as long as a line of tokens, at most.
type Feed = box_answers::Feed<LINE_MOST>;

// The bytes of the list that are read, at most.
const INPUT_MOST: usize = 16_384;

// Prints what a feed answered, 256 bytes of it at most, and the record that it left. A write that fails is let pass, here and below.
fn print_feed(rt: &impl Print, name: &str, feed: &Feed) {
    let record = Record {
        parser: feed.parser,
        place: feed.refusal.map_or(0, |refusal| refusal.place),
    };
    let _ = println!(rt; "  {name}: {:.256} {record}", feed.answer);
}

// A record, and the file that it is given.
#[derive(Clone, Copy)]
struct Piece<'f> {
    parser: ContainerParser,
    file: &'f [u8],
}

impl Piece<'_> {
    // Feeds the file to the record, prints what that gives, and answers the feed behind it.
    fn fed(self, rt: &impl Print, name: &str) -> Feed {
        let mut feed = Feed::new(self.parser);
        feed.packet(self.file, self.file.len());
        print_feed(rt, name, &feed);
        feed
    }

    // A piece that is not ended: the record given nothing and the file; where it refuses, the file again and nothing.
    fn given(self, rt: &impl Print) {
        Piece { file: b"", ..self }.fed(rt, "nothing");
        let given = self.fed(rt, "given");
        if given.refusal.is_some() {
            let again = Piece {
                parser: given.parser,
                ..self
            }
            .fed(rt, "again");
            Piece {
                parser: again.parser,
                file: b"",
            }
            .fed(rt, "nothing");
        }
    }
}

// The word of a piece at this place, where a space parts two words and the seventh goes on to the end; an empty one if there is none.
fn word(piece: &[u8], place: usize) -> &[u8] {
    piece.splitn(7, |b| *b == b' ').nth(place).unwrap_or(b"")
}

// Runs the piece ` STATE LEFT BOXES TOTAL HEX WORD` by the word behind the file: none; or for a piece of the end, `.` for a record that is
// ended at once, `+` for one that is ended behind one step, else the length of the first of two packets.
fn run(rt: &impl Print, told: &[u8]) {
    let parser = box_records::parser(word(told, 1), word(told, 2), word(told, 3), word(told, 4));
    let bytes = box_lines::file(word(told, 5));
    let piece = Piece {
        parser,
        file: bytes.as_bytes(),
    };
    match word(told, 6) {
        [] | [0, ..] => piece.given(rt),
        [b'.', ..] => piece.ended_at_once(rt),
        [b'+', ..] => piece.ended_early(rt),
        cut => piece.ended(rt, leading_number(cut, 10).0 as usize),
    }
}

// One line of the list: `NAME:` and a piece, printed as far as its name and run; any other line is a heading.
fn take_line(rt: &impl Print, line: &[u8]) {
    let (name, told) = match split_once(line, b':') {
        Some((name, told)) => (name, Some(told)),
        None => (line, None),
    };
    let mut out = io::writer(rt);
    let _ = out.write_all(name);
    let _ = out.write_all(b"\n");
    if let Some(told) = told {
        run(rt, told);
    }
}

// Room for the list. Made in a function of its own, so that no proof looks into its elements.
fn room() -> [u8; INPUT_MOST] {
    [0; INPUT_MOST]
}

fn main(rt: HostRuntime) {
    let mut room = room();
    let text = read_input(&rt, &mut room);
    for line in lines(text) {
        take_line(&rt, line);
    }
}
