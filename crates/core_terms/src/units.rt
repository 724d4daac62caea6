ghost use Rattle.std.specs.Prelude.{◌≡◌, ◌+◌, ◌<◌, ◌≤◌, ◌^◌, OnOk, OnErr};
ghost use Rattle.core_terms.specs.declared.stop.Stop.TheVariants.{Fuel};

use crate::Stop;

/// The units of work that are left, and those that were spent; and whether the work came to where a store had no room for a term.
#[derive(Clone, Copy, Debug, PartialEq, Eq)]
pub struct Units {
    pub left: u64,
    pub spent: u64,
    pub full: bool,
    ghost fits: { left + spent < 2 ^ 64 },
}

impl Units {
    /// So many units, none of them spent.
    pub fn new(left: u64) -> Units
        ensures left { result.left ≡ left }
        ensures spent { result.spent ≡ 0 }
    {
        Units {
            left,
            spent: 0,
            full: false,
        }
    }

    /// Moves one unit from `left` to `spent`, or answers Fuel where none is left. Takes no memory.
    pub fn spend(&mut self) -> Result<(), Stop>
        ensures total { self.new.left + self.new.spent ≡ self.old.left + self.old.spent }
        ensures spends { self.new.left ≤ self.old.left }
        ensures ok { OnOk result (self.old.left ≡ self.new.left + 1) }
        ensures err { OnErr result (self.new ≡ self.old) }
        ensures fuel { OnErr result (result ≡ Err Fuel) }
        ensures none_left { OnErr result (self.old.left ≡ 0) }
    {
        if self.left == 0 {
            return Err(Stop::Fuel);
        }
        self.left -= 1;
        self.spent += 1;
        Ok(())
    }
}
