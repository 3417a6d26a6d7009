// The text of a refusal, put into a lent buffer, for a fault log. The texts stand in specs/Text.antt of jxl_refusal_words.
#![tactic(auto)]

ghost use Rattle.std.specs.Prelude.{◌≡◌, ◌++◌, ◌+◌, ◌≤◌, length};
ghost use Rattle.jxl_lines.specs.Digits.{decimal};
ghost use Rattle.jxl_lines.specs.Pasting.{Pasted};
ghost use Rattle.jxl_lines.specs.Putting.{leaves, put_of};
ghost use Rattle.jxl_refusal_words.specs.Text.{text};

use jxl_line_fields::{copy_in, put_decimal, put_words};
pub use jxl_lines::{NoRoom, Put};
use jxl_refusals::BoxRefusal;

// Words and a number behind them, for which there is room. Answers where the next byte goes.
fn put_both(out: &mut [u8], at: usize, words: &[u8], n: usize) -> usize
    requires { at + length (words.now ++ decimal n) ≤ length out.old }
    ensures { Pasted out.old at (words.now ++ decimal n) out.new result }
{
    let a = copy_in(out, at, words);
    put_decimal(out, a, n)
}

// The text of a wrong index, if it fits.
#[tactic(auto, using(jxl_lines::proofs::Putting::no_room, jxl_refusal_words::proofs::Sizes::wrong_index_size))]
fn put_wrong_index(out: &mut [u8], at: usize, found: usize, expected: usize) -> Put
    ensures { leaves result out.new ≡ put_of out.old at (text (BoxRefusal.WrongIndex found expected)) }
{
    // the words have 31 bytes
    let needed = 31 + jxl_lengths::digits(found) + jxl_lengths::digits(expected);
    if out.len().saturating_sub(at) < needed {
        return Err(NoRoom { needed });
    }
    let a = put_both(out, at, b"jxlp index ", found);
    let b = put_both(out, a, b" where ", expected);
    Ok(copy_in(out, b, b" was expected"))
}

// Puts the text at `at` if all of it fits there; otherwise the buffer stays as it was, and the text's length is told.
// Not a Display: a fault log has a lent buffer, no heap and no formatter, and is told how many bytes are missing.
pub fn put_refusal(out: &mut [u8], at: usize, refusal: BoxRefusal) -> Put
    ensures { leaves result out.new ≡ put_of out.old at (text refusal) }
{
    match refusal {
        BoxRefusal::ShortSize => put_words(out, at, b"box size from 2 to 7"),
        BoxRefusal::ExtendedSize => put_words(out, at, b"extended box size under 16"),
        BoxRefusal::SecondJxlc => put_words(out, at, b"second jxlc"),
        BoxRefusal::JxlcAfterJxlp => put_words(out, at, b"jxlc after jxlp"),
        BoxRefusal::JxlpTooSmall => put_words(out, at, b"jxlp too small for its index"),
        BoxRefusal::JxlpAfterJxlc => put_words(out, at, b"jxlp after jxlc"),
        BoxRefusal::JxlpAfterLast => put_words(out, at, b"jxlp after the last jxlp"),
        BoxRefusal::WrongIndex { found, expected } => put_wrong_index(
            out,
            at,
            found as usize,
            expected as usize,
        ),
        BoxRefusal::BrobTooSmall => put_words(out, at, b"brob too small for its type"),
        BoxRefusal::ImpossibleRecord => put_words(out, at, b"impossible record"),
        BoxRefusal::ValidationFailed => put_words(out, at, b"reserved type in brob"),
        BoxRefusal::StreamLimit => put_words(
            out,
            at,
            b"more bytes than the 2^63 - 1 that a file may have",
        ),
        BoxRefusal::CutShort => put_words(out, at, b"file cut short"),
        BoxRefusal::Closed => put_words(out, at, b"parser closed by its end"),
    }
}
