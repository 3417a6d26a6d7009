// Replays the Rust's stored answers of UnpackSigned: a line `32 HEX8 DEC` or `64 HEX16 DEC` for each. Prints the numbers of
// the first lines that differ, then the counts.
#![tactic(auto)]

use replay_text::{Tally, leading_number, lines, read_input, skip};

// The bytes of a list that are read, at most.
const INPUT_MOST: usize = 65_536;

// The number that a text tells: its digits, behind a `-` where it is below 0.
fn told_number(told: &[u8]) -> Option<i64> {
    let Some(digits) = told.strip_prefix(b"-") else {
        return i64::try_from(leading_number(told, 10).0).ok();
    };
    // -m is the complement of m - 1
    let below = leading_number(digits, 10).0.checked_sub(1)?;
    Some(!i64::try_from(below).ok()?)
}

// What the code unpacks for a line; none where the number does not fit the line's width.
fn unpacked(line: &[u8], packed: u64) -> Option<i64> {
    if line.starts_with(b"6") {
        return Some(jxl_unpack::unpack_signed_u64(packed));
    }
    let narrow = u32::try_from(packed).ok()?;
    Some(i64::from(jxl_unpack::unpack_signed(narrow)))
}

// Whether the line's answer is the code's.
fn is_same(line: &[u8]) -> bool {
    let (packed, behind) = leading_number(skip(line, 3), 16);
    let Some(answer) = unpacked(line, packed) else {
        return false;
    };
    told_number(skip(behind, 1)) == Some(answer)
}

// Room for the list. Made in a function of its own, so that no proof looks into its elements.
fn room() -> [u8; INPUT_MOST] {
    [0; INPUT_MOST]
}

fn main(rt: HostRuntime) {
    let mut room = room();
    let text = read_input(&rt, &mut room);
    let mut tally = Tally::default();
    for line in lines(text) {
        tally.pass_line();
        tally.compare(&rt, is_same(line));
    }
    let _ = println!(rt; "{tally}");
}
