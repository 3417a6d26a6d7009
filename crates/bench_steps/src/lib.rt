// All steps of a file, for the bench to call and time. `step` is called from one place, so the compiler takes it into the loop.
#![tactic(auto)]

use bench_parts::Packets;
use jxl_container::ContainerParser;

// The events of a file given in packets: the sum of their weights.
#[unsafe(no_mangle)]
pub extern "C" fn bench_steps(file: &[u8], packet: usize, most: u64) -> u64 {
    bench_parts::events(ContainerParser::new(), Packets::new(file, packet), most)
}
