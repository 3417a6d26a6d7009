// All turns on a file, for the bench to call and time.
#![tactic(auto)]

ghost use Rattle.std.specs.Prelude.{◌≤◌};

use bench_parts::Packets;
use jxl_container::ContainerParser;
use jxl_joiner::Joiner;

// Where the next lines go: behind those written, while there is room for a line; from then on to the front.
fn place(written: usize, len: usize) -> usize
    ensures { result ≤ len }
{
    if written <= len.saturating_sub(64) {
        written
    } else {
        0
    }
}

// The lines of a file given in packets, each behind the bytes left unread: how many bytes they have. Where `out` has room for
// all of them, they stand there one behind the other. A proved loop has to end: after `most` turns.
#[unsafe(no_mangle)]
pub extern "C" fn bench_turns(file: &[u8], packet: usize, out: &mut [u8], most: u64) -> usize {
    let mut parser = ContainerParser::new();
    let mut joiner = Joiner::new();
    let mut packets = Packets::new(file, packet);
    let mut written: usize = 0;
    for _ in 0..most {
        let from = place(written, out.len());
        let after = jxl_list_turn::turn(parser, joiner, packets.input(), &mut out[from..]);
        packets.consume(after.consumed);
        written = written.wrapping_add(after.written);
        parser = after.parser;
        joiner = after.joiner;
        if after.stop.is_some() && !packets.go_on() {
            break;
        }
    }
    written
}
