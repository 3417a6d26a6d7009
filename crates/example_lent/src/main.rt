// Feeds and ends a parser that lies in a local: it is lent by `&mut`, and each call changes it in place.
#![tactic(auto)]

use jxl_container::ContainerParser;
use jxl_feed::Fed;

// Prints what a step answers, and how many bytes it consumed. Where that cannot be written, the program goes on.
fn print(rt: &impl Print, fed: Fed) {
    let _ = match fed {
        Fed::Shown { consumed, .. } => println!(rt; "event {consumed}"),
        Fed::Want { consumed } => println!(rt; "want {consumed}"),
        Fed::Refused { consumed, .. } => println!(rt; "refused {consumed}"),
        Fed::Closed { consumed } => println!(rt; "closed {consumed}"),
    };
}

// One step on a packet, and the end of the file, with these bytes of it unread. Prints what both answer: of the end how many events are
// still owed, or the total where it refuses.
fn step_and_end(rt: &impl Print, packet: &[u8], unread: &[u8]) {
    let mut parser = ContainerParser::new();
    print(rt, jxl_feed::feed_bytes(&mut parser, packet));
    let _ = match jxl_feed_end::end_bytes(&mut parser, unread) {
        Ok(Some(_)) => println!(rt; "done, owed 1"),
        Ok(None) => println!(rt; "done, owed 0"),
        Err(refusal) => println!(rt; "refused at {}", refusal.total),
    };
}

fn main(rt: HostRuntime) {
    // a container's signature alone
    step_and_end(&rt, b"\x00\x00\x00\x0cJXL \x0d\x0a\x87\x0a", b"");
    // the same, and a part of a box header
    step_and_end(
        &rt,
        b"\x00\x00\x00\x0cJXL \x0d\x0a\x87\x0a\x00\x00",
        b"\x00\x00",
    );
}
