// Replays the stored list of the Rust's answers (standard input) on the proved fields, and says how many answers differ.
#![tactic(auto)]

ghost use Rattle.std.specs.Prelude.{◌≡◌, length};

use field_lines::Buffer;
use replay_text::{Tally, lines, read_input, split_once};

// The bytes of a list that are read, at most.
const INPUT_MOST: usize = 1_048_576;

// Whether the line's answer, behind its `= `, is this text.
fn is_told(line: &[u8], text: &[u8]) -> bool {
    let Some((_, behind)) = split_once(line, b'=') else {
        return false;
    };
    behind.get(1..) == Some(text)
}

// Room for the list. Made in a function of its own, so that no proof looks into its elements.
fn room() -> [u8; INPUT_MOST]
    ensures { 1048576 ≡ length result }
{
    [0; INPUT_MOST]
}

fn main(rt: HostRuntime) {
    let mut room = room();
    let text = read_input(&rt, &mut room);
    let mut tally = Tally::default();
    let mut buffer = Buffer::empty();
    for line in lines(text) {
        tally.pass_line();
        if line.starts_with(b"n") {
            buffer = Buffer::from_line(line);
        } else {
            let answer = buffer.call(line);
            tally.compare(&rt, is_told(line, answer.as_bytes()));
        }
    }
    let _ = println!(rt; "{tally}");
}
