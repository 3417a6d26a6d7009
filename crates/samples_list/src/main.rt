// Lists each file that its arguments name, under its name: the samples, in the gate.
#![tactic(auto)]

use std::fs::File;
use std::io::Write;
use std::rt::{Env, Files};
use std::str;

// Lists the file of this name. One that cannot be opened is told.
fn list_file(rt: &(impl Files + Eprint), name: &str) {
    match File::open(rt, name) {
        Ok(mut file) => jxl_stream::list(rt, &mut file),
        Err(error) => {
            let _ = eprintln!(rt; "{name}: {error}");
        }
    }
}

// Prints the name, and lists the file behind it. A name that is no text is told.
fn list_named(rt: &(impl Files + Print + Eprint), name: &[u8]) {
    let mut out = std::io::writer(rt);
    // a write that fails is let pass: the listing behind it ends at its own
    let _ = out.write_all(name);
    let _ = out.write_all(b":\n");
    match str::from_utf8(name) {
        Ok(text) => list_file(rt, text),
        Err(error) => {
            let _ = eprintln!(rt; "samples_list: a name that is no text: {error}");
        }
    }
}

// By `arg`: `env::args` is an error where one name is no text, and here only that one is told.
fn main(rt: HostRuntime) {
    let mut path = io::buffer();
    for i in 1..usize::MAX {
        let Ok(length) = rt.arg(i, &mut path) else {
            break;
        };
        list_named(&rt, &path[..length]);
    }
}
