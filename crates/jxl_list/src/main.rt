// Prints the listing of the JPEG XL file on standard input.
#![tactic(auto)]

fn main(rt: HostRuntime) {
    jxl_stream::list(&rt, &mut rt.stdin());
}
