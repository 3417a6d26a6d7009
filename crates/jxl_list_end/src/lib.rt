// What a listing has to tell behind the last byte, from the end call: the event still owed, and then the stop.
#![tactic(auto)]

ghost use Rattle.std.specs.Prelude.{◌≡◌};
ghost use Rattle.jxl_endings.specs.End.{end_of};
ghost use Rattle.jxl_list_rules.specs.Listed.{next_end};

use jxl_container::ContainerParser;
use jxl_lines::StopWord;
use jxl_list_rules::AfterStep;

// What comes next, made with the unread bytes. Where it is the owed event, its record is closed, and comes to the stop when it is asked
// again, whatever bytes it is asked with.
pub fn next_at_end(parser: ContainerParser, unread: &[u8]) -> AfterStep
    ensures { result ≡ next_end (end_of parser unread.now) }
{
    let ended = jxl_container::end(parser, unread);
    let answer = match ended.answer {
        Ok(Some(event)) => Ok(event.in_file().event),
        Ok(None) => Err(StopWord::Done),
        Err(refusal) => Err(StopWord::refused(refusal.rule)),
    };
    AfterStep {
        parser: ended.next,
        answer,
    }
}
