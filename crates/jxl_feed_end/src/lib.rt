// The end call of a parser lent by `&mut`, which closes it in place: a thin call over the end call by value.
#![tactic(auto)]

ghost use Rattle.std.specs.Prelude.{◌≡◌};
ghost use Rattle.jxl_endings.specs.End as Spec;
ghost use Rattle.jxl_feed_end.specs.Ended.{told_ended};

use jxl_container::{ContainerParser, FileEvent, FileRefusal};

// The end of the file, of the parser where it stands, with the bytes of it that were fed and are unread: DONE, with the event still owed,
// if any; or a refusal.
pub fn end_bytes(
    parser: &mut ContainerParser,
    unread: &[u8],
) -> Result<Option<FileEvent>, FileRefusal>
    ensures { told_ended result parser.new ≡ Spec.numbered_end (Spec.end_of parser.old unread.now) }
{
    let ended = jxl_container::end(*parser, unread);
    *parser = ended.next;
    ended.answer
}
