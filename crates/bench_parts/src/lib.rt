// What the drivers of the bench share: the packets of a file, and the loop over its steps.
#![tactic(auto)]

ghost use Rattle.std.specs.Prelude.{◌≡◌, ◌+◌, ◌%◌, ◌^◌, true, min, length};
ghost use Rattle.jxl_slices.specs.Part.{between};

use jxl_container::{ContainerParser, FileEvent, ParseEvent, StepResult};

// A file that is given in packets of one length: how much of it is consumed, and where the newest packet ends.
#[derive(Clone, Copy)]
pub struct Packets<'f> {
    file: &'f [u8],
    packet: usize,
    consumed: usize,
    end: usize,
}

impl<'f> Packets<'f> {
    // The first packet of a file.
    pub fn new(file: &'f [u8], packet: usize) -> Self
        ensures { (result.consumed ≡ 0) × (result.end ≡ min packet (length file.now)) }
    {
        Packets {
            file,
            packet,
            consumed: 0,
            end: packet.min(file.len()),
        }
    }

    // The newest packet, behind the bytes that were left unread.
    pub fn input(&self) -> &'f [u8]
        ensures { result.now ≡ between self.now.file.now self.now.consumed self.now.end }
    {
        jxl_slices::part(self.file, self.consumed, self.end)
    }

    // Counts bytes of the packets that were consumed.
    pub fn consume(&mut self, count: usize)
        ensures { self.new.consumed ≡ (self.old.consumed + count) % 2 ^ 64 }
    {
        self.consumed = self.consumed.wrapping_add(count);
    }

    // Goes on to the next packet, the last of which ends with the file: whether there is one.
    pub fn go_on(&mut self) -> bool
        ensures { result ≡ true → self.new.end ≡ min (self.old.end + self.old.packet) (length self.new.file.now) }
    {
        if self.end == self.file.len() {
            return false;
        }
        self.end = self.end.saturating_add(self.packet).min(self.file.len());
        true
    }
}

// What an event adds to the sum: 1, and for a payload its length.
pub fn weight(event: FileEvent) -> u64 {
    match event.event {
        ParseEvent::Codestream { len, .. } | ParseEvent::AuxBoxData { len, .. } => {
            (len as u64).wrapping_add(1)
        }
        _ => 1,
    }
}

// The events that a parser shows of the packets of a file, each behind the bytes left unread: the sum of their weights. A proved loop has
// to end: after `most` steps.
pub fn events(mut parser: ContainerParser, mut packets: Packets<'_>, most: u64) -> u64 {
    let mut sum: u64 = 0;
    for _ in 0..most {
        match jxl_container::step(parser, packets.input()) {
            StepResult::Shown {
                next,
                consumed,
                event,
            } => {
                parser = next;
                packets.consume(consumed);
                sum = sum.wrapping_add(weight(event));
            }
            StepResult::Want { next, consumed } => {
                parser = next;
                packets.consume(consumed);
                if !packets.go_on() {
                    break;
                }
            }
            StepResult::Refused { .. } | StepResult::Closed { .. } => break,
        }
    }
    sum
}
