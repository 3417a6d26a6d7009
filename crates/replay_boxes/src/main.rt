// Replays the stored answers on boxes: each file of the list is fed in the packets of each of its lines, and every event, count and refusal
// is compared with the Rust's in the line, refusals 10 to 19 as 1. Behind each feeding the file is ended, and what that comes to is compared
// with what the judge says in the file's line `e`. Prints the numbers of the first lines that differ, then the counts.
#![tactic(auto)]

use box_lines::{FILE_MOST, LINE_MOST};
use replay_text::{Bytes, Tally, lines, read_input, skip, split_once};

// The bytes of the list that are read, at most.
const INPUT_MOST: usize = 1_048_576;

// A token with the refusals 10 to 19 merged into 1, since the Rust does not tell them apart.
fn merged(token: &[u8]) -> &[u8] {
    match token {
        [b'R', b'1', ..] => b"R1",
        _ => token,
    }
}

// Whether the answers of a feeding are the line's EVENTS.
fn is_told(answers: &[u8], told: &[u8]) -> bool {
    answers
        .split(|b| *b == b' ')
        .map(merged)
        .eq(told.split(|b| *b == b' '))
}

// Whether the answer of an end call is what the token says: `!` is CutShort, and `R` the refusal of the feeding, to which `box_ends` holds it:
// one refusal, with no mark behind it, and not CutShort.
fn is_end(answer: &[u8], token: &[u8]) -> bool {
    match token {
        b"!" => matches!(answer, b"R21"),
        b"R" => { answer.starts_with(b"R") && !answer.contains(&b' ') && !matches!(answer, b"R21") }
        _ => answer == token,
    }
}

// Whether feeding the file in these packets gives these EVENTS, and ending it then, with the bytes left unread, what the token says.
fn agrees(cuts: &[u8], told: &[u8], file: &[u8], token: &[u8]) -> bool {
    let mut feed = box_answers::whole::<LINE_MOST>(file, cuts);
    if !is_told(feed.answer.as_bytes(), told) {
        return false;
    }
    feed.answer.clear();
    let unread = feed.unread(file);
    box_ends::end(&mut feed, unread);
    is_end(feed.answer.as_bytes(), token)
}

// The token of a file's end in its line `e`, as far as there is room for it with the file.
fn token_of<'t>(line: &'t [u8], file: &[u8]) -> &'t [u8] {
    let token = skip(line, 2);
    let room = FILE_MOST.saturating_sub(file.len());
    token.get(..room).unwrap_or(token)
}

// The two sides of a line `CUTS = EVENTS`.
fn cuts_and_events(line: &[u8]) -> (&[u8], &[u8]) {
    let (before, behind) = split_once(line, b'=').unwrap_or((line, b""));
    let cuts = before.split_last().map_or(before, |(_, cuts)| cuts);
    (cuts, skip(behind, 1))
}

// Room for the list. Made in a function of its own, so that no proof looks into its elements.
fn room() -> [u8; INPUT_MOST] {
    [0; INPUT_MOST]
}

// Goes through the list, line by line: a new file, whose end is not told yet; what the end of the newest comes to; or a feeding of it,
// `CUTS = EVENTS`, whose answers are as many as its events, which single spaces part, and one more for its end.
fn main(rt: HostRuntime) {
    let mut room = room();
    let text = read_input(&rt, &mut room);
    let mut tally = Tally::default();
    let mut answers: u64 = 0;
    let mut file = Bytes::new();
    let mut token: &[u8] = b"";
    for line in lines(text) {
        tally.pass_line();
        match line {
            [b'f', ..] => {
                file = box_lines::file(skip(line, 2));
                token = b"";
            }
            [b'e', ..] => token = token_of(line, file.as_bytes()),
            _ => {
                let (cuts, told) = cuts_and_events(line);
                let count = told.split(|b| *b == b' ').count() as u64;
                answers = answers.saturating_add(count).saturating_add(1);
                tally.compare(&rt, agrees(cuts, told, file.as_bytes(), token));
            }
        }
    }
    let _ = println!(rt;
        "{answers} answers in {} feedings and their ends compared, {} feedings differ",
        tally.compared, tally.differ
    );
}
