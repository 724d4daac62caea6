//! The program `explain`: says what the output of `elim` means for the source file, where, and what to write instead.
//!
//!     explain compile|verify SOURCE NAME OUTPUT STATUS [colours]     explains a run of `elim`; NAME is what the reader calls the source file
//!     explain names SOURCE                                           writes the names of the declarations, a line each
#![tactic(auto)]

mod characters;
mod clause_refusals;
mod clauses;
mod core_files;
mod core_line;
mod cover_refusals;
mod decision_refusals;
mod families;
mod family_refusals;
mod file_refusals;
mod labels;
mod matter;
mod mutual_refusals;
mod name_refusals;
mod naming;
mod nearest;
mod page;
mod paths;
mod places;
mod recursion;
mod recursion_refusals;
mod rendering;
mod report;
mod source;
mod syntax_refusals;
mod type_refusals;
mod warnings;

use page::Page;
use report::Run;
use std::process::ExitCode;
use std::{env, fs};

/// The status where a file can't be read or the text can't be written.
const FAULT: u8 = 1;

fn words(rt: &HostRuntime) -> Option<Vec<String>> {
    let args = env::args(rt).ok()?;
    args.skip(1).collect(rt.alloc()).ok()
}

fn word(words: &[String], at: usize) -> &str {
    words.get(at).map_or("", |it| it.as_str())
}

/// The text that the words ask for.
fn text(rt: &HostRuntime, words: &[String]) -> Option<Page> {
    let source = fs::read(rt, word(words, 1)).ok()?;
    let mut page = Page::new(rt.alloc(), word(words, 5) == "colours");
    if word(words, 0) == "names" {
        report::names(rt.alloc(), &mut page, source.as_slice());
        return Some(page);
    }
    let output = fs::read(rt, word(words, 3)).ok()?;
    let run = Run {
        file: word(words, 2).as_bytes(),
        bytes: source.as_slice(),
        output: output.as_slice(),
        status: core_line::number_of(word(words, 4).as_bytes()),
        is_core: word(words, 0) == "verify",
    };
    report::explain(rt.alloc(), &mut page, &run);
    Some(page)
}

fn main(rt: HostRuntime) -> ExitCode {
    let Some(words) = words(&rt) else {
        return ExitCode::from(FAULT);
    };
    let Some(page) = text(&rt, words.as_slice()) else {
        return ExitCode::from(FAULT);
    };
    match std::io::Write::write_all(&mut rt.stdout(), page.bytes()) {
        Ok(()) => ExitCode::from(0),
        Err(_) => ExitCode::from(FAULT),
    }
}
