//! Declares the declarations of texts, those of one text in one session, and goes on after each that is refused.
//!
//! The words are names of files, and before them the units that each declaration may spend. A line `====` ends a text in a file. For each
//! declaration a line is printed: its name, then the number of its first entry, the number after its last one, and the number of its clause
//! lines; or its name, and the reason for which it is refused. The status is 0 where each file was read.
#![tactic(auto)]

mod reasons;

use core_terms::Items;
use function_session::{Accepted, Session};
use reasons::reason;
use resolve::declared_word;
use std::alloc::Global;
use std::process::ExitCode;
use std::{env, fs, io};
use surface_syntax::{Decl, parse, tokens};

/// The declarations of a text, where it has any form and memory suffices.
fn read(alloc: Global, text: &str) -> Option<Items<Decl>> {
    let found = tokens(alloc, text.as_bytes()).ok()?;
    parse(alloc, text.as_bytes(), &found).ok()
}

/// Prints what became of a declaration with the name.
fn print_accepted(rt: &HostRuntime, name: &str, accepted: &Accepted) -> io::Result<()> {
    let Accepted {
        from,
        to,
        lines,
        ..
    } = accepted;
    let lines = lines.as_slice().len();
    println!(rt; "{name}: {from} to {to}, {lines} lines")
}

/// Declares one declaration, and prints what became of it.
fn declare(rt: &HostRuntime, session: &mut Session, d: &Decl) -> io::Result<()> {
    let name = str::from_utf8(declared_word(d).text.as_slice()).unwrap_or("?");
    match session.declare(d) {
        Ok(accepted) => print_accepted(rt, name, &accepted),
        Err(refusal) => println!(rt; "{name}: {}", reason(&refusal)),
    }
}

/// Declares the declarations of a text in one session, and answers whether they could be read.
fn run_text(rt: &HostRuntime, fuel: u64, text: &str) -> io::Result<bool> {
    let Some(decls) = read(rt.alloc(), text) else {
        return Ok(false);
    };
    let Ok(mut session) = Session::new(rt.alloc(), false, fuel) else {
        return Ok(false);
    };
    for d in decls.as_slice() {
        declare(rt, &mut session, d)?;
    }
    Ok(true)
}

/// Runs the texts of a file.
fn run_file(rt: &HostRuntime, fuel: u64, name: &str) -> io::Result<bool> {
    println!(rt; "{name}")?;
    let file = fs::read_to_string(rt, name)?;
    let mut number = 0u64;
    for text in file.as_str().split("\n====\n") {
        number = number.saturating_add(1);
        println!(rt; "session {number}")?;
        if !run_text(rt, fuel, text)? {
            return Ok(false);
        }
    }
    Ok(true)
}

/// Runs the files that the words name, and answers whether each was read.
fn run_files(rt: &HostRuntime) -> io::Result<bool> {
    let mut fuel = 0u64;
    for word in env::args(rt)?.skip(1) {
        match word.as_str().parse::<u64>() {
            Ok(units) => fuel = units,
            Err(_) => {
                if !run_file(rt, fuel, word.as_str())? {
                    return Ok(false);
                }
            }
        }
    }
    Ok(true)
}

fn main(rt: HostRuntime) -> ExitCode {
    match run_files(&rt) {
        Ok(true) => ExitCode::from(0),
        Ok(false) => ExitCode::from(1),
        Err(_) => ExitCode::from(2),
    }
}
