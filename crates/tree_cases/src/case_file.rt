//! Files of cases, in the form of the worked cases of the program. A case has these lines, in this order:
//!
//! ```text
//! # its name
//! $ its words
//! < a line of the input, as often as there are lines
//! > a line of the output, as often as there are lines
//! = the status
//! ```
//!
//! A line feed separates two lines of the input, and none follows the last one; `<` alone is an empty line. Each line of
//! the output ends with a line feed. `$` alone stands for no words, and the line of words may be left out. After a line of the
//! input or of the output, `+ 3 ab` goes on in that line with `ababab`. Empty lines between the cases are passed over.
//!
//! The words are those of `asked.rt`, the input is a text of families and functions, the output has their walks and trees as in
//! `texts.rt`, and the status is 0.
use crate::case::Case;
use std::alloc::{AllocError, AllocFailed, Global};

/// Why no cases were read: want of memory, or the number of the first line that fits no case.
#[derive(Drop)]
pub enum FileStop {
    Memory,
    Line(usize),
}

impl From<AllocError> for FileStop {
    fn from(_error: AllocError) -> FileStop {
        FileStop::Memory
    }
}

impl<T: Drop> From<AllocFailed<T>> for FileStop {
    fn from(_failed: AllocFailed<T>) -> FileStop {
        FileStop::Memory
    }
}

/// What a line of a file says.
#[derive(Drop)]
enum Line<'a> {
    Empty,
    Name(&'a str),
    Words(&'a str),
    Input(&'a str),
    Output(&'a str),
    More(u32, &'a str),
    Status(u8),
    Other,
}

/// What follows a mark and one space, where the line begins with these or is the mark alone.
fn after<'a>(line: &'a str, mark: &str, alone: &str) -> Option<&'a str> {
    if line == alone {
        return Some("");
    }
    line.strip_prefix(mark)
}

/// `3 ab` as a number and a text.
fn repetition(line: &str) -> Line<'_> {
    if let Some((count, text)) = line.split_once(' ') {
        if let Ok(count) = count.parse::<u32>() {
            return Line::More(count, text);
        }
    }
    Line::Other
}

fn line_of(line: &str) -> Line<'_> {
    if line.is_empty() {
        return Line::Empty;
    }
    if let Some(name) = line.strip_prefix("# ") {
        return Line::Name(name);
    }
    if let Some(words) = after(line, "$ ", "$") {
        return Line::Words(words);
    }
    if let Some(input) = after(line, "< ", "<") {
        return Line::Input(input);
    }
    if let Some(output) = after(line, "> ", ">") {
        return Line::Output(output);
    }
    if let Some(more) = line.strip_prefix("+ ") {
        return repetition(more);
    }
    match line.strip_prefix("= ").map(|status| status.parse::<u8>()) {
        Some(Ok(status)) => Line::Status(status),
        _ => Line::Other,
    }
}

/// Takes one line of an open case. False where the line does not belong there.
fn take_line(alloc: Global, case: &mut Case, line: Line<'_>) -> Result<bool, AllocError> {
    match line {
        Line::Words(words) => case.take_words(alloc, words).map(|()| true),
        Line::Input(line) => case.add_input(line),
        Line::Output(line) => case.add_output(line).map(|()| true),
        Line::More(count, text) => case.repeat(count, text),
        _ => Ok(false),
    }
}

/// The cases of a file, in order.
pub fn read_cases(alloc: Global, text: &str) -> Result<Vec<Case>, FileStop> {
    let mut cases = Vec::new(alloc);
    let mut open = None;
    let mut number = 0usize;
    for line in text.lines() {
        number = number.saturating_add(1);
        match (open.take(), line_of(line)) {
            (None, Line::Empty) => {}
            (None, Line::Name(name)) => open = Some(Case::new(alloc, name)?),
            (None, _) => return Err(FileStop::Line(number)),
            (Some(mut case), Line::Status(status)) => {
                case.end_output()?;
                case.status = status;
                cases.push(case)?;
            }
            (Some(mut case), line) => {
                if !take_line(alloc, &mut case, line)? {
                    return Err(FileStop::Line(number));
                }
                open = Some(case);
            }
        }
    }
    match open {
        None => Ok(cases),
        Some(_) => Err(FileStop::Line(number)),
    }
}
