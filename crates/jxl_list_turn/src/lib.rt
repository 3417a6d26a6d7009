// The work of one turn of a program that lists a stream: the short way where the input only makes the part held longer, else the long one.
#![tactic(auto)]

ghost use Rattle.std.specs.Prelude.{◌≡◌, length};
ghost use Rattle.jxl_list_rules.specs.Turned.{Told, turn_of};

use jxl_container::ContainerParser;
use jxl_joiner::Joiner;
use jxl_lines::StopWord;
use jxl_long_way::turn_from;

// What a turn leaves, and why it ended.
pub use jxl_list_rules::AfterTurn;

// One turn: the lines of the input's events, joined across turns, at the front of `out`. The input is the bytes left unread
// and what was read behind them. The record and the joiner come apart, not as one struct: README and docs/PROMISES.md promise `turn` so.
pub fn turn(parser: ContainerParser, joiner: Joiner, input: &[u8], out: &mut [u8]) -> AfterTurn
    ensures { Told result out.new out.old (turn_of input.now (length out.old) parser joiner.held) }
{
    match jxl_short_way::way(parser, joiner, input.len()) {
        Some((next, longer)) => AfterTurn {
            parser: next,
            joiner: longer,
            consumed: input.len(),
            written: 0,
            stop: Some(StopWord::Want),
        },
        None => turn_from(parser, joiner, input, out),
    }
}
