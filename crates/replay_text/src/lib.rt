// What the programs that replay stored answers share: a list read from standard input, its lines, the numbers in a line, and a tally of
// the answers compared. Nothing is asked of a caller.
#![tactic(auto)]

ghost use Rattle.std.specs.Prelude.{◌≡◌, ◌≢◌, ◌+◌, ◌-◌, ◌^◌, ◌<◌, ◌==◌, ◌++◌, ◌∷◌, ◌≤◌, [], length, min, take, drop, position, codes, decimal, Some, None, IsOk, IfOk, IfErr, IfSome, MatchOption, MatchBool};
ghost use Rattle.std.specs.Io.{ReadsAtMost};
ghost use Rattle.std.specs.Io.KnownBytes.{Consumes, IsAtEnd};
ghost use Rattle.std.specs.IoError.{error_kind};
ghost use Rattle.std.specs.Iterator.{at_most};
ghost use Rattle.replay_text.specs.Held.{held, shown};
ghost use Rattle.replay_text.specs.Lines.{IsNextLine};
ghost use Rattle.replay_text.specs.Numbers.{digit, appended, number};

use std::io::{ErrorKind, Read};
use std::{fmt, io};

// Standard input at the front of `room`, as far as that goes. Where it cannot be read it ends.
pub fn read_input<'r>(rt: &impl Input, room: &'r mut [u8]) -> &'r [u8] {
    let mut reader = rt.reader();
    let mut len = 0;
    while len < room.len() {
        match reader.read(&mut room[len..]) {
            Ok(0) | Err(_) => break,
            Ok(count) => len += count,
        }
    }
    &room[..len]
}

// Reads into `room` up to its end or the reader's, and answers how many bytes there are. A read that is interrupted is tried again; one that
// fails is told. A proved loop has to end: where 2^64 - 1 reads were not enough, that is told too.
pub fn read_full<R: Read>(reader: &mut R, room: &mut [u8]) -> io::Result<usize>
    ensures bound { ReadsAtMost result room.new }
    ensures bytes { IfOk result (λ count. Consumes (R.remaining reader.old) (R.remaining reader.new) (take count room.new)) }
    ensures end { IfOk result (λ count. count < length room.new → IsAtEnd (R.remaining reader.new)) }
    ensures retried { IfErr result (λ e. error_kind e ≢ ErrorKind.Interrupted) }
{
    let mut at = 0;
    for _ in 0..u64::MAX {
        if at >= room.len() {
            return Ok(at);
        }
        match reader.read(&mut room[at..]) {
            Ok(0) => return Ok(at),
            Ok(count) => at += count,
            Err(e) if e.kind() == ErrorKind::Interrupted => {}
            Err(e) => return Err(e),
        }
    }
    Err(io::Error::from(ErrorKind::TimedOut))
}

// Bytes in place, of which there are N at most: what has no room is left out.
#[derive(Clone, Copy)]
pub struct Bytes<const N: usize> {
    bytes: [u8; N],
    len: usize,
}

impl<const N: usize> Bytes<N> {
    pub fn new() -> Self
        ensures { held result ≡ [] }
    {
        Bytes {
            bytes: [0; N],
            len: 0,
        }
    }

    pub fn as_bytes(&self) -> &[u8]
        ensures value { result.now ≡ held self.now }
        ensures most { length result.now ≤ N }
    {
        &self.bytes[..self.len.min(N)]
    }

    pub fn clear(&mut self)
        ensures { held self.new ≡ [] }
    {
        self.len = 0;
    }

    // Puts bytes behind those that are there.
    pub fn push(&mut self, more: &[u8])
        ensures bytes { held self.new ≡ take N (held self.old ++ more.now) }
        ensures most { length (held self.new) ≤ N }
    {
        let start = self.len.min(N);
        let count = more.len().min(N - start);
        let all = &mut self.bytes[..];
        all[start..start + count].copy_from_slice(&more[..count]);
        self.len = start + count;
    }
}

// What is written is put behind, which cannot fail.
impl<const N: usize> fmt::Write for Bytes<N> {
    ghost write_str_gives = { λ s text t. held t ≡ take N (held s ++ text) };

    fn write_str(&mut self, s: &str) -> fmt::Result
        ensures ok { IsOk result → held self.new ≡ take N (held self.old ++ s.now) }
        ensures done { IsOk result }
    {
        self.push(s.as_bytes());
        Ok(())
    }
}

// The bytes as text; where they are no UTF-8, nothing.
impl<const N: usize> fmt::Display for Bytes<N> {
    ghost output = { λ b. Some (shown b) };

    fn fmt<W: fmt::Write>(&self, f: &mut fmt::Formatter<W>) -> fmt::Result {
        f.pad(str::from_utf8(self.as_bytes()).unwrap_or(""))
    }
}

// The first place of `b`.
fn find(text: &[u8], b: u8) -> Option<usize>
    ensures first { result ≡ position (λ x. x == b) text.now }
    ensures cut { IfSome result (λ at. take at text.now ++ (b ∷ drop (at + 1) text.now) ≡ text.now) }
{
    text.iter().position(|x| *x == b)
}

// What stands before the first `b`, and what stands behind it.
pub fn split_once(text: &[u8], b: u8) -> Option<(&[u8], &[u8])>
    ensures place { MatchOption result (position (λ x. x == b) text.now ≡ None) (λ parts. position (λ x. x == b) text.now ≡ Some (length parts.0.now)) }
    ensures parts { IfSome result (λ parts. parts.0.now ++ (b ∷ parts.1.now) ≡ text.now) }
{
    let at = find(text, b)?;
    Some((&text[..at], &text[at + 1..]))
}

// What stands behind the first `count` bytes.
pub fn skip(text: &[u8], count: usize) -> &[u8]
    ensures { result.now ≡ drop count text.now }
{
    text.get(count..).unwrap_or(b"")
}

// What a digit counts. Not `char::to_digit`, to which `A` to `F` are digits too: the lists have small letters alone.
#[tactic(auto, unfolding(crate::specs::Numbers::digit))]
pub fn digit_of(b: u8) -> Option<u8>
    ensures value { result ≡ digit b }
    ensures small { IfSome result (λ d. d < 16) }
{
    match b {
        b'0'..=b'9' => Some(b - b'0'),
        b'a'..=b'f' => Some(b - b'a' + 10),
        _ => None,
    }
}

// A number with one more digit, where that is one and 64 bits hold it.
#[tactic(auto, unfolding(crate::specs::Numbers::appended))]
fn append_digit(value: u64, radix: u64, b: u8) -> Option<u64>
    ensures { result ≡ appended radix value (digit b) }
{
    let digit = u64::from(digit_of(b)?);
    if radix <= digit {
        return None;
    }
    value.checked_mul(radix)?.checked_add(digit)
}

// The number that a text begins with, of as many digits as are there and fit in 64 bits, and what stands behind it. The `while let` counts
// no index: what is left is a slice.
#[tactic(auto, unfolding(crate::specs::Numbers::number))]
pub fn leading_number(text: &[u8], radix: u64) -> (u64, &[u8])
    ensures { (result.0, result.1.now) ≡ number radix text.now 0 }
{
    let mut value = 0;
    let mut rest = text;
    while let Some((b, behind)) = rest.split_first() {
        let Some(more) = append_digit(value, radix, *b) else {
            return (value, rest);
        };
        value = more;
        rest = behind;
    }
    (value, rest)
}

// The lines of a text, without their line ends. Behind the last line end there is no line.
#[derive(Drop)]
pub struct TextLines<'a>(&'a [u8]);

pub fn lines(text: &[u8]) -> TextLines<'_>
    ensures { result.0.now ≡ text.now }
{
    TextLines(text)
}

impl<'a> Iterator for TextLines<'a> {
    type Item = &'a [u8];

    ghost next_gives = { λ s line t. MatchOption line (length s.0.now ≡ 0) (λ l. IsNextLine s.0.now l.now t.0.now) };

    ghost remaining = { λ left. at_most (length left.0.now) };

    fn next(&mut self) -> Option<&'a [u8]> {
        if self.0.is_empty() {
            return None;
        }
        let (line, rest) = split_once(self.0, b'\n').unwrap_or((self.0, b""));
        self.0 = rest;
        Some(line)
    }
}

// A list of stored answers as it is replayed: the lines passed, the answers compared, and those that differ.
#[derive(Clone, Copy, Default)]
pub struct Tally {
    pub lines: u64,
    pub compared: u64,
    pub differ: u64,
}

impl Tally {
    // Passes one more line.
    pub fn pass_line(&mut self)
        ensures line { self.new.lines ≡ min (self.old.lines + 1) (2 ^ 64 - 1) }
        ensures compared { self.new.compared ≡ self.old.compared }
        ensures differ { self.new.differ ≡ self.old.differ }
    {
        self.lines = self.lines.saturating_add(1);
    }

    // Counts the answer of the newest line. Prints the line's number where it differs, for the first ten; where it cannot be written, the
    // count goes on.
    pub fn compare(&mut self, rt: &impl Print, agrees: bool)
        ensures lines { self.new.lines ≡ self.old.lines }
        ensures compared { self.new.compared ≡ min (self.old.compared + 1) (2 ^ 64 - 1) }
        ensures differ { MatchBool agrees (self.new.differ ≡ self.old.differ) (self.new.differ ≡ min (self.old.differ + 1) (2 ^ 64 - 1)) }
    {
        self.compared = self.compared.saturating_add(1);
        if agrees {
            return;
        }
        self.differ = self.differ.saturating_add(1);
        if self.differ <= 10 {
            let _ = println!(rt; "line {} differs", self.lines);
        }
    }
}

impl fmt::Display for Tally {
    ghost output = { λ t. Some (decimal t.compared ++ (codes " answers compared, " ++ (decimal t.differ ++ codes " differ"))) };

    fn fmt<W: fmt::Write>(&self, f: &mut fmt::Formatter<W>) -> fmt::Result {
        write!(
            f,
            "{} answers compared, {} differ",
            self.compared, self.differ
        )
    }
}

#[cfg(test)]
mod tests {
    use super::*;
    use std::test::Fail;

    // A reader of at most two bytes a read, which is interrupted before each, and fails where it has no more and is to fail.
    #[derive(Drop)]
    struct Pieces<'s> {
        rest: &'s [u8],
        interrupted: bool,
        fails: bool,
    }

    impl Read for Pieces<'_> {
        fn read(&mut self, buf: &mut [u8]) -> io::Result<usize> {
            self.interrupted = !self.interrupted;
            if self.interrupted {
                return Err(io::Error::from(ErrorKind::Interrupted));
            }
            if self.rest.is_empty() && self.fails {
                return Err(io::Error::from(ErrorKind::NotConnected));
            }
            let count = self.rest.len().min(buf.len()).min(2);
            buf[..count].copy_from_slice(&self.rest[..count]);
            self.rest = &self.rest[count..];
            Ok(count)
        }
    }

    fn in_pieces(rest: &[u8], fails: bool) -> Pieces<'_> {
        Pieces {
            rest,
            interrupted: false,
            fails,
        }
    }

    #[test]
    fn an_interrupted_read_is_tried_again(rt: HostRuntime) -> Result<(), Fail> {
        let mut reader = in_pieces(b"abcde", false);
        let mut room = [0; 3];
        assert_eq!(rt; read_full(&mut reader, &mut room)?, 3);
        assert_eq!(rt; room, *b"abc");
        assert_eq!(rt; read_full(&mut reader, &mut room)?, 2);
        assert_eq!(rt; room, *b"dec");
        assert_eq!(rt; read_full(&mut reader, &mut room)?, 0);
        Ok(())
    }

    #[test]
    fn a_failed_read_is_told(rt: HostRuntime) {
        let mut reader = in_pieces(b"abc", true);
        let mut room = [0; 8];
        let told = read_full(&mut reader, &mut room);
        assert!(rt; told.is_err_and(|e| e.kind() == ErrorKind::NotConnected));
    }
}
