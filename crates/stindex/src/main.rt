//! A term index for theorem provers: command lines come in on standard input, and replies go out on
//! standard output.
#![tactic(auto)]

use si_io::{RealLibrary, RealSink, RealSource};
use si_serve::Status;
use si_serve::serve::{decline, serve};
use si_session::Limits;
use std::env::args;
use std::io::{self, BufWriter};
use std::process::ExitCode;

fn main(rt: HostRuntime) -> ExitCode {
    let Ok(output) = BufWriter::new(rt.alloc(), rt.stdout()) else {
        return ExitCode::from(Status::Memory.code());
    };
    let mut sink = RealSink::new(output);
    let words = match call_words(&rt) {
        Ok(words) => words,
        Err(error) => return ExitCode::from(decline(&error, &mut sink).code()),
    };
    let mut source = RealSource::new(rt.stdin());
    let mut library = RealLibrary::new(rt);
    let status = serve(
        rt.alloc(),
        &words,
        &Limits::standard(),
        &mut source,
        &mut sink,
        &mut library,
    );
    ExitCode::from(status.code())
}

/// The words that the program was called with, without its own name.
fn call_words(rt: &HostRuntime) -> io::Result<Vec<String>> {
    let mut words = args(rt)?;
    let _ = words.next();
    let words = words.collect(rt.alloc())?;
    Ok(words)
}
