// Keeps the bytes that a turn left unread: they move to the front of the buffer.
#![tactic(auto)]

ghost use Rattle.std.specs.Prelude.{◌≡◌, length};
ghost use Rattle.jxl_lines.specs.Pasting.{pasted};
ghost use Rattle.jxl_unread.specs.Kept.{kept};

// Moves the bytes from `from` up to `upto` to the front of the buffer, and answers how many there are.
#[tactic(auto, using(crate::proofs::Moving::kept_size))]
pub fn keep(buf: &mut [u8], from: usize, upto: usize) -> usize
    ensures { (result ≡ length (kept from upto buf.old)) × (buf.new ≡ pasted buf.old 0 (kept from upto buf.old)) }
{
    let end = upto.min(buf.len());
    let start = from.min(end);
    buf.copy_within(start..end, 0);
    end - start
}
