use std::alloc::{AllocError, Global};

/// Where the last line of a case belongs.
#[derive(Clone, Copy)]
enum Part {
    Words,
    Input,
    Output,
}

/// One case: its words and its input, with the output and the status that are wanted.
#[derive(Drop)]
pub struct Case {
    pub name: String,
    pub words: Vec<String>,
    pub input: Vec<u8>,
    pub output: Vec<u8>,
    pub status: u8,
    last: Part,
}

impl Case {
    /// A case with no words, no input and no output.
    pub fn new(alloc: Global, name: &str) -> Result<Case, AllocError> {
        Ok(Case {
            name: String::from_str(alloc, name)?,
            words: Vec::new(alloc),
            input: Vec::new(alloc),
            output: Vec::new(alloc),
            status: 0,
            last: Part::Words,
        })
    }

    /// Takes the words of a line, which single spaces separate.
    pub fn take_words(&mut self, alloc: Global, line: &str) -> Result<(), AllocError> {
        if line.is_empty() {
            return Ok(());
        }
        for word in line.split(' ') {
            self.words.push(String::from_str(alloc, word)?)?;
        }
        Ok(())
    }

    /// Adds a line to the input, after a line feed where it is not the first one. False where the output has begun.
    pub fn add_input(&mut self, line: &str) -> Result<bool, AllocError> {
        match self.last {
            Part::Output => return Ok(false),
            Part::Input => self.input.push(b'\n')?,
            Part::Words => {}
        }
        self.input.extend_from_slice(line.as_bytes())?;
        self.last = Part::Input;
        Ok(true)
    }

    /// Adds a line to the output, after a line feed where it is not the first one.
    pub fn add_output(&mut self, line: &str) -> Result<(), AllocError> {
        self.end_output()?;
        self.output.extend_from_slice(line.as_bytes())?;
        self.last = Part::Output;
        Ok(())
    }

    /// Goes on with so many copies of a text in the last line. False where there is none.
    pub fn repeat(&mut self, count: u32, text: &str) -> Result<bool, AllocError> {
        let bytes = match self.last {
            Part::Words => return Ok(false),
            Part::Input => &mut self.input,
            Part::Output => &mut self.output,
        };
        for _ in 0..count {
            bytes.extend_from_slice(text.as_bytes())?;
        }
        Ok(true)
    }

    /// Ends the last line of the output.
    pub fn end_output(&mut self) -> Result<(), AllocError> {
        if matches!(self.last, Part::Output) {
            self.output.push(b'\n')?;
        }
        Ok(())
    }
}
