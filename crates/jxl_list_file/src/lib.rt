// The listing of a whole file in memory.
#![tactic(auto)]

ghost use Rattle.std.specs.Prelude.{◌≡◌, ◌+◌, ◌-◌, ◌^◌, ◌≤◌, Some, min, length, drop};
ghost use Rattle.std.specs.Iterator.{YieldsFirst, item_count};
ghost use Rattle.jxl_lines.specs.Lines.{text};
ghost use Rattle.jxl_lines.specs.Pasting.{pasted};
ghost use Rattle.jxl_lines.specs.Putting.{leaves};
ghost use Rattle.jxl_totals.specs.Step.{fresh};
ghost use Rattle.jxl_endings.specs.End.{end_of};
ghost use Rattle.jxl_list_rules.specs.Listed.{file_text, lines_left, list_of, next_end, next_of};

use jxl_container::{ContainerParser, StepResult};
use jxl_lines::Line;
use jxl_list_end::next_at_end;
use jxl_list_rules::AfterStep;
use jxl_listing::{NoRoom, Put};

// The bytes of the file behind those that the record counts.
fn behind(parser: ContainerParser, file: &[u8]) -> &[u8]
    ensures { result.now ≡ drop parser.total file.now }
{
    file.get(parser.total as usize..).unwrap_or(&[])
}

// What comes next where the parser stopped: what the end call says, made with the bytes behind those consumed.
fn at_end(parser: ContainerParser, file: &[u8]) -> AfterStep
    ensures { result ≡ next_end (end_of parser (drop parser.total file.now)) }
{
    next_at_end(parser, behind(parser, file))
}

// What comes next of the file behind the bytes consumed: an event, or what its end comes to.
fn next(parser: ContainerParser, file: &[u8]) -> AfterStep
    ensures { result ≡ next_of parser (drop parser.total file.now) }
{
    match jxl_container::step(parser, behind(parser, file)) {
        StepResult::Shown { next, event, .. } => AfterStep {
            parser: next,
            answer: Ok(event.in_file().event),
        },
        StepResult::Want { next, .. }
        | StepResult::Refused { next, .. }
        | StepResult::Closed { next, .. } => at_end(next, file),
    }
}

// The lines of a file's listing that are still to come: from this record on, or none behind the stop's.
#[derive(Drop)]
struct Lines<'a> {
    file: &'a [u8],
    next: Option<ContainerParser>,
}

impl<'a> Lines<'a> {
    // All lines of the file's listing.
    fn of(file: &'a [u8]) -> Self
        ensures { (result.file.now ≡ file.now) × (result.next ≡ Some fresh) }
    {
        Lines {
            file,
            next: Some(ContainerParser::new()),
        }
    }
}

impl Iterator for Lines<'_> {
    type Item = Line;

    ghost next_gives = { YieldsFirst (λ s. lines_left s.next s.file.now) };

    ghost remaining = { item_count (λ s. lines_left s.next s.file.now) };

    fn next(&mut self) -> Option<Line> {
        let parser = self.next?;
        let then = next(parser, self.file);
        match then.answer {
            Ok(event) => {
                self.next = Some(then.parser);
                Some(Line::Shown(event))
            }
            Err(stop) => {
                self.next = None;
                let consumed = then.parser.total as usize;
                Some(Line::Stopped { stop, consumed })
            }
        }
    }
}

// How many bytes the listing of the file has, at most the largest number of 64 bits.
fn measure(file: &[u8]) -> usize
    ensures { result ≡ min (length (file_text file.now)) (2 ^ 64 - 1) }
{
    let mut sum = 0usize;
    for line in Lines::of(file) {
        sum = sum.saturating_add(jxl_lengths::line_length(line));
    }
    sum
}

// Writes the listing of the file, for which there is room, and answers how many bytes it has.
fn write(file: &[u8], out: &mut [u8]) -> usize
    requires { length (file_text file.now) ≤ length out.old }
    ensures { (result ≡ length (file_text file.now)) × (out.new ≡ pasted out.old 0 (file_text file.now)) }
{
    let mut written = 0;
    for line in Lines::of(file) {
        written = put(out, written, line);
    }
    written
}

// Puts a line for which there is room, and answers where the next one goes.
#[tactic(auto, using(jxl_lines::proofs::Putting::put_where_room))]
fn put(out: &mut [u8], at: usize, line: Line) -> usize
    requires { at + length (text line) ≤ length out.old }
    ensures { (result ≡ at + length (text line)) × (out.new ≡ pasted out.old at (text line)) }
{
    jxl_listing::put_line(out, at, line).unwrap()
}

// The listing of a whole file in memory: all its lines at the front of `out`; or how much room they need, and `out` as it was.
// Into lent memory and no String: the libraries use no heap.
pub fn list_file(file: &[u8], out: &mut [u8]) -> Put
    ensures { leaves result out.new ≡ list_of out.old (file_text file.now) }
{
    let needed = measure(file);
    if out.len() < needed {
        return Err(NoRoom { needed });
    }
    Ok(write(file, out))
}
