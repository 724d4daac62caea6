//! The program `elim`: compiles standard input to standard output.
#![tactic(auto)]

mod elim_program;
mod headline;
mod k_laws;
mod memory_laws;
mod program_texts;
mod refusal_laws;
mod written_functions;

use elim_ports::{StdSink, StdSource};
use std::env;
use std::io::ErrorKind;
use std::process::ExitCode;

/// The statuses where the runtime does not give the words: out of memory, and for another cause.
const NO_MEMORY: u8 = 5;

const NO_WORDS: u8 = 6;

/// The words after the program's name, or the status.
fn words(rt: &HostRuntime) -> Result<Vec<String>, u8> {
    match env::args(rt) {
        Ok(args) => args.skip(1).collect(rt.alloc()).map_err(|_| NO_MEMORY),
        Err(error) if error.kind() == ErrorKind::OutOfMemory => Err(NO_MEMORY),
        Err(_) => Err(NO_WORDS),
    }
}

fn main(rt: HostRuntime) -> ExitCode {
    let words = match words(&rt) {
        Ok(words) => words,
        Err(status) => return ExitCode::from(status),
    };
    let mut source = StdSource::new(rt.stdin());
    let mut sink = StdSink::new(rt.stdout());
    let status = headline::run(rt.alloc(), words.as_slice(), &mut source, &mut sink);
    ExitCode::from(status.code())
}
