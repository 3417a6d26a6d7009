// The fields of a line, each put into a lent buffer at a place if it fits there.
// `out` and `at` stay apart here: the public functions are promised so (docs/PROMISES.md). jxl_listing makes a page of them.
// The ones that answer a place and no Result keep the promise `PutIfRoom` (docs/PROMISES.md): fields stand in a row, no test between them.
// Digits are put by hand, not by a Display: the promise is on each byte of the lent buffer, and no formatter writes into one.
#![tactic(auto)]

ghost use Rattle.std.specs.Prelude.{◌≡◌, [], ◌∷◌, ◌+◌, ◌/◌, ◌%◌, ◌≤◌, length};
ghost use Rattle.jxl_lines.specs.Digits as Digits;
ghost use Rattle.jxl_lines.specs.Digits.{decimal, hex8};
ghost use Rattle.jxl_lines.specs.Pasting.{Pasted};
ghost use Rattle.jxl_lines.specs.Putting.{leaves, put_of};
ghost use Rattle.jxl_line_fields.specs.Fields.{HasRoom, PutIfRoom};

pub use jxl_lines::{NoRoom, Put};

// Whether `n` bytes fit at `at` into a buffer of `len`.
fn has_room(len: usize, at: usize, n: usize) -> bool
    ensures { HasRoom len at n result }
{
    at <= len && n <= len - at
}

// Copies `word` to `at`, where it fits. Byte by byte and not by `copy_from_slice`: that calls memcpy, and an archive for C asks for no name
// from outside.
fn write_word(out: &mut [u8], at: usize, word: &[u8]) -> usize
    requires { at + length word.now ≤ length out.old }
    ensures { Pasted out.old at word.now out.new result }
{
    for i in 0..word.len() {
        out[at + i] = word[i];
    }
    at + word.len()
}

// Copies `word` to `at` if all of it fits there, and answers where the next byte goes; otherwise the buffer stays as it was, and that is `at`.
pub fn copy_in(out: &mut [u8], at: usize, word: &[u8]) -> usize
    ensures { PutIfRoom out.old at word.now out.new result }
{
    if has_room(out.len(), at, word.len()) {
        write_word(out, at, word)
    } else {
        at // nothing was put
    }
}

// The character of the last hex digit of `n`.
fn glyph(n: usize) -> u8
    ensures { result ≡ Digits.glyph (n % 16) }
{
    let d = (n % 16) as u8;
    if d < 10 { b'0' + d } else { b'a' + (d - 10) }
}

// The eight hex digits of a type, which fit. Stored one by one: as two fours, measured with the older kit, a turn on small boxes took
// a tenth longer, and at its 0.88 of then (docs/SPEED.md) that misses its bar of 0.90.
fn write_type(out: &mut [u8], at: usize, ty: u32) -> usize
    requires { at + 8 ≤ length out.old }
    ensures { Pasted out.old at (hex8 ty) out.new result }
{
    let n = ty as usize;
    out[at] = glyph(n / 0x1000_0000);
    out[at + 1] = glyph(n / 0x100_0000);
    out[at + 2] = glyph(n / 0x10_0000);
    out[at + 3] = glyph(n / 0x1_0000);
    out[at + 4] = glyph(n / 0x1000);
    out[at + 5] = glyph(n / 0x100);
    out[at + 6] = glyph(n / 0x10);
    out[at + 7] = glyph(n);
    at + 8
}

// The eight hex digits of a type if they fit at `at`, as `copy_in` does.
#[tactic(auto, using(jxl_lines::proofs::Numbers::type_length))]
pub fn put_type(out: &mut [u8], at: usize, ty: u32) -> usize
    ensures { PutIfRoom out.old at (hex8 ty) out.new result }
{
    if has_room(out.len(), at, 8) {
        write_type(out, at, ty)
    } else {
        at
    }
}

// The last two decimal digits of `n`.
fn put_two(out: &mut [u8], at: usize, n: usize) -> usize
    requires { at + 2 ≤ length out.old }
    ensures { Pasted out.old at (Digits.glyph (n / 10 % 10) ∷ Digits.glyph (n % 10) ∷ []) out.new result }
{
    out[at] = glyph(n / 10 % 10);
    out[at + 1] = glyph(n % 10);
    at + 2
}

// The decimal digits of `n`, which fit: all but the last two first.
#[tactic(auto, using(jxl_lines::proofs::Numbers::decimal_small, jxl_lines::proofs::Numbers::decimal_two, jxl_lines::proofs::Numbers::decimal_two_longer))]
fn write_decimal(out: &mut [u8], at: usize, n: usize) -> usize
    requires { at + length (decimal n) ≤ length out.old }
    ensures { Pasted out.old at (decimal n) out.new result }
{
    if n < 10 {
        out[at] = glyph(n);
        return at + 1;
    }
    if n < 100 {
        return put_two(out, at, n);
    }
    let next = write_decimal(out, at, n / 100);
    put_two(out, next, n)
}

// Whether the decimal digits of `n` fit at `at` into a buffer of `len`.
#[tactic(auto, using(jxl_lines::proofs::Numbers::decimal_most))]
fn number_fits(len: usize, at: usize, n: usize) -> bool
    ensures { HasRoom len at (length (decimal n)) result }
{
    // a number has at most 20 digits
    has_room(len, at, 20) || has_room(len, at, jxl_lengths::digits(n))
}

// The decimal digits of `n` if they fit at `at`, as `copy_in` does.
pub fn put_decimal(out: &mut [u8], at: usize, n: usize) -> usize
    ensures { PutIfRoom out.old at (decimal n) out.new result }
{
    if number_fits(out.len(), at, n) {
        write_decimal(out, at, n)
    } else {
        at
    }
}

// Puts the words at `at` if all of them fit there; otherwise the buffer stays as it was, and their length is told.
#[tactic(auto, using(jxl_lines::proofs::Putting::no_room))]
pub fn put_words(out: &mut [u8], at: usize, words: &[u8]) -> Put
    ensures { leaves result out.new ≡ put_of out.old at words.now }
{
    if has_room(out.len(), at, words.len()) {
        Ok(write_word(out, at, words))
    } else {
        Err(NoRoom {
            needed: words.len(),
        })
    }
}
