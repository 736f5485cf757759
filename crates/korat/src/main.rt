//! The program: what the system gives for words, the real files and the standard output, and the status of the call.
#![tactic(auto)]

use korat_top::{Alone, run_shared, start, words_of};
use kr_io::{DiskFiles, OpenGate, StdSink};
use std::process::ExitCode;
use std::{env, io};

fn main(rt: HostRuntime) -> ExitCode {
    let words = words_of(rt.alloc(), env::args(&rt));
    let mut files = DiskFiles::new(&rt, rt.alloc());
    let mut out = StdSink::new(io::writer(&rt));
    let status = match start(rt.alloc(), words, &mut files, &mut out) {
        Alone::Ended(status) => status,
        Alone::Shared(search) => {
            run_shared(&rt, rt.alloc(), &search, &mut files, &mut out, &OpenGate)
        }
    };
    ExitCode::from(status)
}
