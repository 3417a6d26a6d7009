// Lists the boxes of a small file that comes in two packets and then ends, as a user of the container would.
#![tactic(auto)]

ghost use Rattle.std.specs.Prelude.{◌+◌, ◌≤◌, length};

use jxl_container::{ContainerParser, FileEvent, StepResult};
use jxl_lines::{Line, StopWord};
use std::io;
use std::io::Write;

// Prints a line of the listing, which has at most 56 bytes. Where it cannot be written, the program goes on.
#[tactic(auto, using(jxl_lines::proofs::Putting::put_within, crate::proofs::Lines::written))]
fn print_line(rt: &impl Print, line: Line) {
    let mut text = [0; 56];
    if let Ok(len) = jxl_listing::put_line(&mut text, 0, line) {
        let _ = io::writer(rt).write_all(&text[..len]);
    }
}

// Prints the event's line, its payload at its place in the file.
fn print(rt: &impl Print, event: FileEvent) {
    print_line(rt, Line::Shown(event.in_file().event));
}

// Prints the last line: how the file ended, and the bytes consumed.
fn print_stop(rt: &impl Print, stop: StopWord, total: u64) {
    let consumed = total as usize;
    print_line(rt, Line::Stopped { stop, consumed });
}

// Prints all events of the bytes left unread, with the packet behind them. Answers the record that the last step leaves, which has counted
// no more bytes than were there.
// A `loop` and no `while let`: that record is in the step's answer too.
#[tactic(auto, using(crate::proofs::Ending::of_step))]
fn feed(rt: &impl Print, mut parser: ContainerParser, mut unread: &[u8]) -> ContainerParser
    ensures { (parser.total ≤ result.total) × (result.total ≤ parser.total + length unread.entry.now) }
{
    loop {
        match jxl_container::step(parser, unread) {
            StepResult::Shown {
                next,
                consumed,
                event,
            } => {
                print(rt, event);
                parser = next;
                unread = &unread[consumed..];
            }
            StepResult::Want { next, .. }
            | StepResult::Refused { next, .. }
            | StepResult::Closed { next, .. } => return next,
        }
    }
}

// Ends the file: prints the event still owed, if any, and whether the file is whole.
fn end(rt: &impl Print, parser: ContainerParser, unread: &[u8]) {
    let ended = jxl_container::end(parser, unread);
    match ended.answer {
        Ok(owed) => {
            if let Some(event) = owed {
                print(rt, event);
            }
            print_stop(rt, StopWord::Done, ended.next.total);
        }
        Err(refusal) => print_stop(rt, StopWord::refused(refusal.rule), refusal.total),
    }
}

// The bytes of a file that the parser, which was new at its first byte, has not consumed.
fn unread(file: &[u8], parser: ContainerParser) -> &[u8] {
    file.get(parser.total as usize..).unwrap_or(b"")
}

// Lists a container that comes in two packets, the first of `cut` bytes.
fn list(rt: &impl Print, file: &[u8], cut: usize) {
    if !jxl_file_kind::is_container(file) {
        return;
    }
    let first = file.get(..cut).unwrap_or(file);
    let parser = feed(rt, ContainerParser::new(), first);
    let parser = feed(rt, parser, unread(file, parser));
    end(rt, parser, unread(file, parser));
}

fn main(rt: HostRuntime) {
    list(
        &rt,
        b"\x00\x00\x00\x0cJXL \x0d\x0a\x87\x0a\x00\x00\x00\x14ftypjxl \x00\x00\x00\x00jxl \x00\x00\x00\x0bjxlc\xff\x0a\xfa\x00\x00\x00\x10Exif\x00\x00\x00\x00MM\x00*",
        30,
    );
    // an `Exif` box that lacks its last four bytes
    list(
        &rt,
        b"\x00\x00\x00\x0cJXL \x0d\x0a\x87\x0a\x00\x00\x00\x10Exif\x00\x00\x00\x00",
        16,
    );
}
