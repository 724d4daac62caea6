//! Runs walks and trees of functions, and makes the generated entries of core files again.
//!
//! The words are the names of files, and the first folder of a name says what is in the file: in `trees` functions with their walks and
//! trees (`case_file.rt`), in `entries` core files (`comparing.rt`). A line is printed for each case and each core file, and at last
//! `N passed, M failed`. The status is 0 where each file was read and none failed.
#![tactic(auto)]

mod asked;
mod case;
mod case_file;
mod comparing;
mod conditions;
mod generating;
mod patterns;
mod running;
mod tally;
mod texts;
mod tree_texts;

use case_file::{FileStop, read_cases};
use comparing::run_core_file;
use running::run_case;
use std::process::ExitCode;
use std::{env, fs, io};
use tally::Tally;

/// Runs the cases of one file.
fn run_cases(rt: &HostRuntime, name: &str, tally: &mut Tally) -> io::Result<()> {
    let text = fs::read_to_string(rt, name)?;
    match read_cases(rt.alloc(), text.as_str()) {
        Ok(cases) => {
            for case in cases.iter() {
                tally.count(run_case(rt, case)?);
            }
        }
        Err(FileStop::Line(number)) => {
            println!(rt; "FAILED {name}: line {number} fits no case")?;
            tally.count(false);
        }
        Err(FileStop::Memory) => {
            println!(rt; "FAILED {name}: no memory")?;
            tally.count(false);
        }
    }
    Ok(())
}

/// Runs one file as its folder says.
fn run_file(rt: &HostRuntime, name: &str, tally: &mut Tally) -> io::Result<()> {
    match name.split_once('/') {
        Some(("trees", _)) => run_cases(rt, name, tally),
        Some(("entries", _)) => {
            tally.count(run_core_file(rt, name)?);
            Ok(())
        }
        _ => {
            println!(rt; "FAILED {name}: its folder does not say what is in it")?;
            tally.count(false);
            Ok(())
        }
    }
}

/// Runs the files that the words name, and answers whether there was a case and none failed.
fn run_files(rt: &HostRuntime) -> io::Result<bool> {
    let mut tally = Tally::new();
    for name in env::args(rt)?.skip(1) {
        run_file(rt, name.as_str(), &mut tally)?;
    }
    println!(rt; "{} passed, {} failed", tally.passed(), tally.failed())?;
    Ok(tally.is_passed())
}

fn main(rt: HostRuntime) -> ExitCode {
    match run_files(&rt) {
        Ok(true) => ExitCode::from(0),
        Ok(false) => ExitCode::from(1),
        Err(_) => ExitCode::from(2),
    }
}
