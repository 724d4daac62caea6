/// What is shown of each function.
#[derive(Clone, Copy, PartialEq, Eq)]
pub enum Shown {
    /// The walk of each clause, and the tree.
    All,
    /// How many leaves the tree has.
    Leaves,
}

/// What a case of walks and trees asks for: whether there is axiom K, the units that each walk and each tree may spend, and what
/// is shown.
#[derive(Clone, Copy)]
pub struct Asked {
    pub k: bool,
    pub units: u64,
    pub shown: Shown,
}

impl Asked {
    /// Takes a word. False where there is no such word.
    fn take_word(&mut self, word: &str) -> bool {
        match word {
            "k" => self.k = true,
            "leaves" => self.shown = Shown::Leaves,
            word => match word.parse::<u64>() {
                Ok(units) => self.units = units,
                Err(_) => return false,
            },
        }
        true
    }
}

/// What the words of a case ask for, or nothing where one of them is no such word. Without words there is no axiom K, a million
/// units, and all is shown.
pub fn asked_by(words: &[String]) -> Option<Asked> {
    let mut asked = Asked {
        k: false,
        units: 1_000_000,
        shown: Shown::All,
    };
    for word in words {
        if !asked.take_word(word.as_str()) {
            return None;
        }
    }
    Some(asked)
}
