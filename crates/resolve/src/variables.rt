ghost use Rattle.std.specs.Prelude.{◌≡◌, [], ◌∷◌, ◌++◌, Ok, Err, length, OnOk, OnErr};
ghost use Rattle.resolve.specs.Answers.{Gives};
ghost use Rattle.resolve.specs.Names.{scope_of, variable_of};
ghost use Rattle.resolve.specs.declared.stop.ResolveStop.TheVariants.{Memory};

use crate::ResolveStop;
use crate::binders::Binders;
use core_terms::Name;
use std::alloc::Global;
use std::marker::Model;

/// Names of variables, that contracts list from the outermost on. The nearest variable of a name is found by a hash.
#[derive(Drop)]
pub(crate) struct Variables {
    binders: Binders,
}

impl Model for Variables {
    ghost use Rattle.std.specs.Prelude.{List, ℕ};
    ghost use Rattle.resolve.specs.Nearest.{names_in};
    ghost use Rattle.resolve.specs.Named.{AllNamed};

    ghost Value = { List (List ℕ) };

    ghost view = { λ v. names_in v.binders };

    ghost invariant = { AllNamed };
}

impl Variables {
    /// No variables; takes no memory.
    pub(crate) fn new(alloc: Global) -> Variables
        ensures { result ≡ [] }
    {
        Variables {
            binders: Binders::new(alloc),
        }
    }

    pub(crate) fn len(&self) -> usize
        ensures { result ≡ length self.now }
    {
        self.binders.len()
    }

    /// The number of the nearest variable that has the name.
    pub(crate) fn variable(&self, name: &[u8]) -> Option<usize>
        ensures { result ≡ variable_of name.now (scope_of self.now) }
    {
        self.binders.variable(name)
    }

    /// Adds a variable inside the others.
    pub(crate) fn push(&mut self, name: &Name) -> Result<(), ResolveStop>
        ensures ok { OnOk result (self.new ≡ self.old ++ name.now ∷ []) }
        ensures memory { OnErr result (result ≡ Err Memory) }
    {
        self.binders.push_name(name)
    }
}

/// The variables with the names, which are listed from the outermost on.
pub(crate) fn named_variables(alloc: Global, names: &[Name]) -> Result<Variables, ResolveStop>
    ensures { Gives (λ variables. variables) result (Ok names.now) }
{
    let mut variables = Variables::new(alloc);
    for name in names {
        variables.push(name)?;
    }
    Ok(variables)
}
