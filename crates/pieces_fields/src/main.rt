// Runs the calls on standard input and writes each with its answer: document 01's worked pieces of the fields, and what lies
// outside the domain on which the Rust is compared.
#![tactic(auto)]

use field_lines::{ANSWER_MOST, Buffer};
use replay_text::{Bytes, leading_number, lines, read_input, skip};
use std::io;
use std::io::Write;

// The bytes of a list that are read, at most.
const INPUT_MOST: usize = 4096;

// Runs one line, and gives what is written behind it: of a call, whose line ends in `= `, the answer. `n` makes a buffer, `@` sets the
// position, and any other line is only written.
fn run(buffer: &mut Buffer, line: &[u8]) -> Bytes<ANSWER_MOST> {
    match line {
        [.., b'=', _] => return buffer.call(line),
        [b'n', ..] => *buffer = Buffer::from_line(line),
        [b'@', ..] => buffer.at = leading_number(skip(line, 2), 10).0 as usize,
        _ => {}
    }
    Bytes::new()
}

// Room for the list. Made in a function of its own, so that no proof looks into its elements.
fn room() -> [u8; INPUT_MOST] {
    [0; INPUT_MOST]
}

fn main(rt: HostRuntime) {
    let mut room = room();
    let text = read_input(&rt, &mut room);
    let mut out = io::writer(&rt);
    let mut buffer = Buffer::empty();
    for line in lines(text) {
        let answer = run(&mut buffer, line);
        // a write that fails is let pass
        let _ = out.write_all(line);
        let _ = out.write_all(answer.as_bytes());
        let _ = out.write_all(b"\n");
    }
}
