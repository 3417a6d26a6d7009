// Lists a stream: reads it in blocks of at most 64 KiB, writes the lines of each turn at once, joined across reads, and makes the end call
// where nothing more can be read.
#![tactic(auto)]

use jxl_container::ContainerParser;
use jxl_joiner::Joiner;
use jxl_lines::{Line, StopWord};
use jxl_list_end::next_at_end;
use jxl_list_turn::turn;
use jxl_listing::put_line;
use jxl_slices::part;
use std::io::Read;

// The descriptor of standard output. By the kit's io, which asks for no handle: a writer of std asks for Print, and `list`, which is public,
// may ask no more of its callers than Eprint.
const STDOUT: i32 = 1;

// Standard output does not take a line: the listing ends there.
#[derive(Clone, Copy)]
struct Unwritten;

// Writes the bytes to standard output.
fn write_out(bytes: &[u8]) -> Result<(), Unwritten> {
    if io::write_all(STDOUT, bytes) {
        Ok(())
    } else {
        Err(Unwritten)
    }
}

// What was read and is not consumed: the bytes of `buf` from `from` up to `upto`.
#[derive(Drop)]
struct Unread<'a> {
    buf: &'a mut [u8],
    from: usize,
    upto: usize,
}

impl Unread<'_> {
    fn bytes(&self) -> &[u8] {
        part(self.buf, self.from, self.upto)
    }

    fn consume(&mut self, n: usize) {
        self.from = self.from.wrapping_add(n);
    }

    // Reads more behind the bytes not consumed, which move to the front: once, so that what a pipe gives is used as it comes.
    fn read_more<R: Read>(&mut self, reader: &mut R) -> std::io::Result<usize> {
        let unread = jxl_unread::keep(self.buf, self.from, self.upto);
        self.from = 0;
        self.upto = unread;
        let got = reader.read(&mut self.buf[unread..])?;
        self.upto = unread.wrapping_add(got);
        Ok(got)
    }
}

// A listing under way: the record, the event held, and the lent buffer for its lines.
#[derive(Drop)]
struct Listing<'a> {
    parser: ContainerParser,
    joiner: Joiner,
    out: &'a mut [u8],
}

impl Listing<'_> {
    // Writes one line.
    fn write_line(&mut self, line: Line) -> Result<(), Unwritten> {
        let end = put_line(self.out, 0, line).unwrap_or(0); // any line fits
        write_out(part(self.out, 0, end))
    }

    // Makes a turn, writes its lines, and answers where the parser stopped, if it did.
    fn write_turn(&mut self, unread: &mut Unread) -> Result<Option<StopWord>, Unwritten> {
        let after = turn(self.parser, self.joiner, unread.bytes(), self.out);
        self.parser = after.parser;
        self.joiner = after.joiner;
        unread.consume(after.consumed);
        write_out(part(self.out, 0, after.written))?;
        Ok(after.stop)
    }

    // Writes the line of the event that the joiner still holds.
    fn write_held(&mut self) -> Result<(), Unwritten> {
        if let Some(whole) = self.joiner.finish() {
            self.write_line(Line::Shown(whole.event))?;
        }
        Ok(())
    }

    // Writes the next line that the end call gives, and answers whether it was an event's, behind which another comes.
    fn write_next(&mut self, unread: &[u8]) -> Result<bool, Unwritten> {
        let next = next_at_end(self.parser, unread);
        self.parser = next.parser;
        match next.answer {
            Ok(event) => {
                self.write_line(Line::Shown(event))?;
                Ok(true)
            }
            Err(stop) => {
                let consumed = next.parser.total as usize;
                self.write_line(Line::Stopped { stop, consumed })?;
                Ok(false)
            }
        }
    }

    // Writes what is left: the line of the event held, that of the event still owed, if any, and the stop's. A refused parser has its
    // refusal to tell, and looks at no byte.
    fn write_end(&mut self, unread: &[u8]) -> Result<(), Unwritten> {
        self.write_held()?;
        if self.write_next(unread)? {
            self.write_next(unread)?;
        }
        Ok(())
    }
}

// Lists what the reader gives. Nothing more to read is its end; a read that fails is told, and the lines so far stand, with no stop.
// A proved loop has to end, and nothing says that a stream does: no run uses up these turns.
fn list_through<R: Read>(
    rt: &impl Eprint,
    reader: &mut R,
    listing: &mut Listing,
    unread: &mut Unread,
) -> Result<(), Unwritten> {
    for _ in 0..u64::MAX {
        match listing.write_turn(unread)? {
            None => {}
            Some(StopWord::Want) => match unread.read_more(reader) {
                Ok(0) => return listing.write_end(unread.bytes()),
                Ok(_) => {}
                Err(error) => {
                    let _ = eprintln!(rt; "jxl-list: read: {error}");
                    return listing.write_held();
                }
            },
            Some(_) => return listing.write_end(unread.bytes()),
        }
    }
    Ok(())
}

// Lists what the reader gives, to standard output. A read that fails is told on standard error.
pub fn list<R: Read>(rt: &impl Eprint, reader: &mut R) {
    let mut buf = io::large_buffer();
    let mut out = io::large_buffer();
    let mut unread = Unread {
        buf: &mut buf,
        from: 0,
        upto: 0,
    };
    let mut listing = Listing {
        parser: ContainerParser::new(),
        joiner: Joiner::new(),
        out: &mut out,
    };
    // a write that fails ends the listing: nobody is left to be told
    let _ = list_through(rt, reader, &mut listing, &mut unread);
}
