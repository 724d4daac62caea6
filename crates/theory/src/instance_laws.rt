//! The laws of renaming and instantiation of all variables at once: free variables, heights and sorts.
ghost use Rattle.theory.specs.InstanceLaws.{FreeOfRen, FreeOfInst, HeightOfRen, HeightOfInst, SortsOfRen, SortsOfInst, SortsBeforeInst};

/// A renaming of k variables to n takes a term over k variables to one over n.
pub fn free_of_ren()
    ensures { FreeOfRen }
{}

/// An instantiation of k variables by terms over n takes a term over k variables to one over n.
pub fn free_of_inst()
    ensures { FreeOfInst }
{}

/// A renaming keeps the height.
pub fn height_of_ren()
    ensures { HeightOfRen }
{}

/// The bounds on the height after an instantiation.
pub fn height_of_inst()
    ensures { HeightOfInst }
{}

/// A renaming keeps the sorts.
pub fn sorts_of_ren()
    ensures { SortsOfRen }
{}

/// An instantiation brings no sorts but those of its terms.
pub fn sorts_of_inst()
    ensures { SortsOfInst }
{}

/// An instantiation drops no sorts.
pub fn sorts_before_inst()
    ensures { SortsBeforeInst }
{}
