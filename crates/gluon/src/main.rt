//! The program: words from the command line, a graph on standard input, answers on standard output.
#![tactic(auto)]

#[cfg(test)]
mod tests;

use gluon_top::{NO_MEMORY, gluon_main};
use io_edge::{MixedPicks, StdSink, StdSource};
use std::alloc::AllocError;
use std::process::ExitCode;
use std::rt::Env;
use std::{env, io};

fn main(rt: HostRuntime) -> ExitCode {
    let words = match gathered_words(&rt) {
        Ok(words) => words,
        Err(AllocError) => return ExitCode::from(NO_MEMORY),
    };
    let mut source = StdSource::new(rt.stdin());
    let mut sink = StdSink::new(rt.stdout());
    let mut picker = MixedPicks::new();
    let outcome = gluon_main(rt.alloc(), &words, &mut source, &mut sink, &mut picker);
    ExitCode::from(outcome.status)
}

/// The words after the program's name. Where they are not text there are none, which is refused.
fn gathered_words(rt: &(impl Env + AllocGlobal)) -> Result<Vec<String>, AllocError> {
    match env::args(rt) {
        Ok(args) => args.skip(1).collect(rt.alloc()),
        Err(error) if error.kind() == io::ErrorKind::OutOfMemory => Err(AllocError),
        Err(_) => Ok(Vec::new(rt.alloc())),
    }
}
