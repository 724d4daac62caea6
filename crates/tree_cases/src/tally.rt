/// How many cases passed, and how many failed. A file that can't be read, or holds nothing to run, counts as a case that failed.
#[derive(Drop)]
pub struct Tally {
    passed: u64,
    failed: u64,
}

impl Tally {
    pub fn new() -> Tally {
        Tally {
            passed: 0,
            failed: 0,
        }
    }

    pub fn count(&mut self, passed: bool) {
        if passed {
            self.passed = self.passed.saturating_add(1);
        } else {
            self.failed = self.failed.saturating_add(1);
        }
    }

    pub fn passed(&self) -> u64 {
        self.passed
    }

    pub fn failed(&self) -> u64 {
        self.failed
    }

    /// Whether there was a case and none failed.
    pub fn is_passed(&self) -> bool {
        self.failed == 0 && self.passed > 0
    }
}
