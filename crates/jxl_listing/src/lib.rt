// The lines of the listing: the bytes of one line, put into a lent buffer. The format stands in specs/Lines.antt of jxl_lines.
#![tactic(auto)]

ghost use Rattle.std.specs.Prelude.{◌≡◌, [], ◌∷◌, ◌++◌, length};
ghost use Rattle.jxl_lines.specs.Digits.{decimal, hex8};
ghost use Rattle.jxl_lines.specs.Lines.{brob_word, end_word, rest, stop, stop_word, text};
ghost use Rattle.jxl_lines.specs.Putting.{leaves, put_of};
ghost use Rattle.jxl_listing.specs.Pages.{Added, Fits};

use jxl_events::ParseEvent;
use jxl_line_fields::{copy_in, put_decimal, put_type};
pub use jxl_lines::{NoRoom, Put};
use jxl_lines::{Line, StopWord};
use jxl_record::BitstreamKind;

// The whole line that tells what the file is.
fn kind_line(kind: BitstreamKind) -> &'static [u8]
    ensures { result.now ≡ text (Line.Shown (ParseEvent.BitstreamKind kind)) }
{
    match kind {
        BitstreamKind::Unknown => b"kind\tunknown\n",
        BitstreamKind::BareCodestream => b"kind\tbare\n",
        BitstreamKind::Container => b"kind\tcontainer\n",
        BitstreamKind::Invalid => b"kind\tinvalid\n",
    }
}

// The end of the line that tells of a side box's start.
fn start_tail(brotli: bool, to_end: bool) -> &'static [u8]
    ensures { result.now ≡ rest (brob_word brotli ∷ end_word to_end ∷ []) }
{
    match (brotli, to_end) {
        (true, true) => b"\tbrob\ttoend\n",
        (true, false) => b"\tbrob\tbounded\n",
        (false, true) => b"\tplain\ttoend\n",
        (false, false) => b"\tplain\tbounded\n",
    }
}

// The start of the line that tells why the listing ends.
fn stop_head(why: StopWord) -> &'static [u8]
    ensures { result.now ≡ stop ++ (9 ∷ (stop_word why ++ (9 ∷ []))) }
{
    match why {
        StopWord::Want => b"stop\twant\t",
        StopWord::Refused1 => b"stop\trefused1\t",
        StopWord::Refused2 => b"stop\trefused2\t",
        StopWord::Limit => b"stop\tlimit\t",
        StopWord::Done => b"stop\tdone\t",
        StopWord::CutShort => b"stop\tcutshort\t",
        StopWord::Closed => b"stop\tclosed\t",
    }
}

// A lent buffer, and where its next byte goes. What is added has to fit.
#[derive(Drop)]
struct Page<'a> {
    out: &'a mut [u8],
    at: usize,
}

impl Page<'_> {
    fn add_byte(&mut self, byte: u8)
        requires { Fits self.old (byte ∷ []) }
        ensures { Added self.old (byte ∷ []) self.new }
    {
        self.out[self.at] = byte;
        self.at += 1;
    }

    fn add_words(&mut self, words: &[u8])
        requires { Fits self.old words.now }
        ensures { Added self.old words.now self.new }
    {
        self.at = copy_in(self.out, self.at, words);
    }

    fn add_type(&mut self, ty: u32)
        requires { Fits self.old (hex8 ty) }
        ensures { Added self.old (hex8 ty) self.new }
    {
        self.at = put_type(self.out, self.at, ty);
    }

    fn add_decimal(&mut self, n: usize)
        requires { Fits self.old (decimal n) }
        ensures { Added self.old (decimal n) self.new }
    {
        self.at = put_decimal(self.out, self.at, n);
    }

    // Where a part of a payload lies in the file, and how long it is: the end of a line.
    fn add_span(&mut self, place: usize, len: usize)
        requires { Fits self.old (rest (decimal place ∷ decimal len ∷ [])) }
        ensures { Added self.old (rest (decimal place ∷ decimal len ∷ [])) self.new }
    {
        self.add_byte(b'\t');
        self.add_decimal(place);
        self.add_byte(b'\t');
        self.add_decimal(len);
        self.add_byte(b'\n');
    }

    // A part of the codestream, at its place in the file.
    fn add_code(&mut self, place: usize, len: usize)
        requires { Fits self.old (text (Line.Shown (ParseEvent.Codestream place len))) }
        ensures { Added self.old (text (Line.Shown (ParseEvent.Codestream place len))) self.new }
    {
        self.add_words(b"code");
        self.add_span(place, len);
    }

    // A side box starts.
    fn add_start(&mut self, ty: u32, brotli: bool, to_end: bool)
        requires { Fits self.old (text (Line.Shown (ParseEvent.AuxBoxStart ty brotli to_end))) }
        ensures { Added self.old (text (Line.Shown (ParseEvent.AuxBoxStart ty brotli to_end))) self.new }
    {
        self.add_words(b"start\t");
        self.add_type(ty);
        self.add_words(start_tail(brotli, to_end));
    }

    // A part of a side box, at its place in the file.
    fn add_data(&mut self, ty: u32, place: usize, len: usize)
        requires { Fits self.old (text (Line.Shown (ParseEvent.AuxBoxData ty place len))) }
        ensures { Added self.old (text (Line.Shown (ParseEvent.AuxBoxData ty place len))) self.new }
    {
        self.add_words(b"data\t");
        self.add_type(ty);
        self.add_span(place, len);
    }

    // A side box ends.
    fn add_end(&mut self, ty: u32)
        requires { Fits self.old (text (Line.Shown (ParseEvent.AuxBoxEnd ty))) }
        ensures { Added self.old (text (Line.Shown (ParseEvent.AuxBoxEnd ty))) self.new }
    {
        self.add_words(b"end\t");
        self.add_type(ty);
        self.add_byte(b'\n');
    }

    // Where the listing ends, and why.
    fn add_stop(&mut self, why: StopWord, consumed: usize)
        requires { Fits self.old (text (Line.Stopped why consumed)) }
        ensures { Added self.old (text (Line.Stopped why consumed)) self.new }
    {
        self.add_words(stop_head(why));
        self.add_decimal(consumed);
        self.add_byte(b'\n');
    }

    fn add_event(&mut self, event: ParseEvent)
        requires { Fits self.old (text (Line.Shown event)) }
        ensures { Added self.old (text (Line.Shown event)) self.new }
    {
        match event {
            ParseEvent::BitstreamKind(kind) => self.add_words(kind_line(kind)),
            ParseEvent::NoMoreAuxBox => self.add_words(b"nomore\n"),
            ParseEvent::Codestream { at: place, len } => self.add_code(place, len),
            ParseEvent::AuxBoxStart {
                ty,
                brotli_compressed: brotli,
                last_box: to_end,
            } => self.add_start(ty, brotli, to_end),
            ParseEvent::AuxBoxData { ty, at: place, len } => self.add_data(ty, place, len),
            ParseEvent::AuxBoxEnd { ty } => self.add_end(ty),
        }
    }

    fn add_line(&mut self, line: Line)
        requires { Fits self.old (text line) }
        ensures { Added self.old (text line) self.new }
    {
        match line {
            Line::Shown(event) => self.add_event(event),
            Line::Stopped {
                stop: why,
                consumed,
            } => self.add_stop(why, consumed),
        }
    }
}

// Puts the line at `at` if all of it fits there; otherwise the buffer stays as it was.
#[tactic(auto, using(jxl_lines::proofs::Putting::no_room))]
pub fn put_line(out: &mut [u8], at: usize, line: Line) -> Put
    ensures { leaves result out.new ≡ put_of out.old at (text line) }
{
    let room = out.len().saturating_sub(at);
    // the longest line has 56 bytes
    if room < 56 {
        let needed = jxl_lengths::line_length(line);
        if room < needed {
            return Err(NoRoom { needed });
        }
    }
    let mut page = Page { out, at };
    page.add_line(line);
    Ok(page.at)
}
