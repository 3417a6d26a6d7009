// All steps of a file, for the bench to call and time. `step` is called from two places, as in a program that looks at the first
// event by itself: then the compiler may leave it a function of its own, its record and its answer in memory.
#![tactic(auto)]

use bench_parts::Packets;
use jxl_container::{ContainerParser, StepResult};

// The events of a file given in packets, the first of which shows the kind: the sum of their weights.
#[unsafe(no_mangle)]
pub extern "C" fn bench_twice(file: &[u8], packet: usize, most: u64) -> u64 {
    let mut packets = Packets::new(file, packet);
    let StepResult::Shown {
        next,
        consumed,
        event,
    } = jxl_container::step(ContainerParser::new(), packets.input())
    else {
        return 0;
    };
    packets.consume(consumed);
    bench_parts::events(next, packets, most).wrapping_add(bench_parts::weight(event))
}
