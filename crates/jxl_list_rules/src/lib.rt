// What the listing of a file is, and what turns and rows of turns come to, with the theorems on them: specs/. The types that they
// and the code share; no function.
#![tactic(auto)]

use jxl_events::ParseEvent;
use jxl_joiner::Joiner;
use jxl_lines::StopWord;
use jxl_totals::ContainerParser;

// What comes next: an event with its place in the file, the one that the end call owes too, or the stop; and the record then.
#[derive(Clone, Copy, Debug, PartialEq, Eq)]
pub struct AfterStep {
    pub parser: ContainerParser,
    pub answer: Result<ParseEvent, StopWord>,
}

// What a turn leaves: the record, the joiner, the bytes of the input consumed, the bytes of lines written, and the stop, if the parser
// came to one: it wants more, or refuses. With none the next line has no room.
#[derive(Clone, Copy, Debug, PartialEq, Eq)]
pub struct AfterTurn {
    pub parser: ContainerParser,
    pub joiner: Joiner,
    pub consumed: usize,
    pub written: usize,
    pub stop: Option<StopWord>,
}
