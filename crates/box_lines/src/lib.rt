// The stored lists of boxes: the tokens in which they tell what the steps show, and the bytes of a file. For the programs that replay the
// lists and that run the pieces.
#![tactic(auto)]

ghost use Rattle.std.specs.Prelude.{◌≡◌, ◌≤◌, true, length};
ghost use Rattle.std.specs.Io.{StartsWith};
ghost use Rattle.replay_text.specs.Held.{held};

use jxl_events::ParseEvent;
use jxl_record::BitstreamKind;
use jxl_refusals::BoxRefusal;
use replay_text::{Bytes, leading_number};
use std::fmt;
use std::fmt::Write;

// The bytes of a file, at most. The token of its end counts with them.
pub const FILE_MOST: usize = 128;

// The bytes of a line of tokens, at most, in the programs. `put` and `hold` take a line of any bound.
pub const LINE_MOST: usize = 1024;

// The bytes of one token, at most: no token is longer.
const TOKEN_MOST: usize = 64;

// A token of a line.
#[derive(Clone, Copy)]
pub enum Token {
    // An event of a step whose input starts at `base` of the file.
    Event { event: ParseEvent, base: usize },
    // An end that owes no event.
    Nothing,
    Refusal(BoxRefusal),
    // The end of a packet's feed: all bytes consumed so far.
    PacketEnd(usize),
    // That a rule is broken which the lists do not spell out: no line has it.
    Broken,
}

// The letter of a kind; `u` for one that is not yet told.
pub fn letter(kind: BitstreamKind) -> char {
    match kind {
        BitstreamKind::Unknown => 'u',
        BitstreamKind::BareCodestream => 'b',
        BitstreamKind::Container => 'c',
        BitstreamKind::Invalid => 'i',
    }
}

// Writes an event; a payload by its place in the file, where its input starts at `base`, and its length.
fn write_event<W: fmt::Write>(
    f: &mut fmt::Formatter<W>,
    event: ParseEvent,
    base: usize,
) -> fmt::Result {
    match event {
        ParseEvent::BitstreamKind(kind) => write!(f, "K{}", letter(kind)),
        ParseEvent::NoMoreAuxBox => f.write_str("N"),
        ParseEvent::Codestream { at, len } => write!(f, "C@{}+{len}", base.wrapping_add(at)),
        ParseEvent::AuxBoxStart {
            ty,
            brotli_compressed,
            last_box,
        } => {
            let packed = if brotli_compressed { 'c' } else { 'p' };
            let reach = if last_box { 'e' } else { 'b' };
            write!(f, "S{ty:08x},{packed},{reach}")
        }
        ParseEvent::AuxBoxData { ty, at, len } => {
            write!(f, "D{ty:08x}@{}+{len}", base.wrapping_add(at))
        }
        ParseEvent::AuxBoxEnd { ty } => write!(f, "E{ty:08x}"),
    }
}

// Writes a refusal: its number, and of a wrong index the one expected and the one found.
fn write_refusal<W: fmt::Write>(f: &mut fmt::Formatter<W>, refusal: BoxRefusal) -> fmt::Result {
    write!(f, "R{}", refusal.number())?;
    if let BoxRefusal::WrongIndex { found, expected } = refusal {
        write!(f, ",{expected},{found}")?;
    }
    Ok(())
}

impl fmt::Display for Token {
    fn fmt<W: fmt::Write>(&self, f: &mut fmt::Formatter<W>) -> fmt::Result {
        match *self {
            Token::Event { event, base } => write_event(f, event, base),
            Token::Nothing => f.write_str("-"),
            Token::Refusal(refusal) => write_refusal(f, refusal),
            Token::PacketEnd(consumed) => write!(f, "|{consumed}"),
            Token::Broken => f.write_str("!"),
        }
    }
}

// Puts a token behind those of a line, parted by a space, as far as there is room. The line's text stays in front.
// By a text of its own: `write!` promises nothing of the line where a Display states no output.
pub fn put<const N: usize>(line: &mut Bytes<N>, token: Token)
    ensures { StartsWith (held line.new) (held line.old) }
{
    let mut text = Bytes::<TOKEN_MOST>::new();
    let _ = write!(text, "{token}");
    if !line.as_bytes().is_empty() {
        line.push(b" ");
    }
    line.push(text.as_bytes());
}

// Puts a mark where a rule that the lists do not spell out is not kept.
pub fn hold<const N: usize>(line: &mut Bytes<N>, is_kept: bool)
    ensures { is_kept ≡ true → held line.new ≡ held line.old }
{
    if is_kept {
        return;
    }
    put(line, Token::Broken);
}

// The byte that two digits of hex tell; 0 for one that stands alone. Not `hex_byte` of field_lines: there a letter that is no digit counts
// 0, here it ends the number.
fn byte(digits: &[u8]) -> u8 {
    match digits {
        [_, _] => (leading_number(digits, 16).0 & 0xff) as u8,
        _ => 0,
    }
}

// The bytes that a text of hex tells, as far as a file of the lists goes.
pub fn file(hex: &[u8]) -> Bytes<FILE_MOST>
    ensures { length (held result) ≤ 128 }
{
    let mut bytes = Bytes::new();
    for digits in hex.chunks(2) {
        bytes.push(&[byte(digits)]);
    }
    bytes
}

#[cfg(test)]
mod tests {
    use super::*;

    #[test]
    fn tokens_are_parted_by_spaces(rt: HostRuntime) {
        let mut line = Bytes::<LINE_MOST>::new();
        put(&mut line, Token::Nothing);
        put(&mut line, Token::PacketEnd(12));
        hold(&mut line, true);
        hold(&mut line, false);
        assert_eq!(rt; line.as_bytes(), b"- |12 !".as_slice());
    }

    // longer than the lines of the programs, and a line with room for one token
    #[test]
    fn a_line_is_as_long_as_its_bound(rt: HostRuntime) {
        let mut long = Bytes::<2000>::new();
        for _ in 0..500 {
            put(&mut long, Token::PacketEnd(12));
        }
        assert_eq!(rt; long.as_bytes().len(), 1999);
        hold(&mut long, false);
        assert_eq!(rt; long.as_bytes().len(), 2000);
        let mut short = Bytes::<3>::new();
        put(&mut short, Token::PacketEnd(12));
        put(&mut short, Token::Nothing);
        assert_eq!(rt; short.as_bytes(), b"|12".as_slice());
    }

    #[test]
    fn a_file_is_its_hex(rt: HostRuntime) {
        let bytes = file(b"ff0a5a");
        assert_eq!(rt; bytes.as_bytes(), [0xff, 0x0a, 0x5a].as_slice());
    }
}
