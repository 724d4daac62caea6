//! Laws of the choice of a position.
ghost use Rattle.tree_translation.specs.structural_rec.Laws.{AdmissionDecides, AtIsLeastUsable, ConstantIsCalled, FinitaryPartsAreLower, FitsDecides, FixedAreClosed, NotRecursiveIsExact, NotSmallerIsExact, OrderIsTelescope, PartsAreLower, PartsEnd};

/// The fixed positions are the parameters' variables, closed under those that their types mention.
pub fn fixed_are_closed()
    ensures { FixedAreClosed }
{}

/// A position admits recursion exactly where something is found that it rests on.
pub fn admission_decides()
    ensures { AdmissionDecides }
{}

/// A call passes the test exactly where it fits.
pub fn fits_decides()
    ensures { FitsDecides }
{}

/// There is a call exactly where the constant occurs in the term.
pub fn constant_is_called()
    ensures { ConstantIsCalled }
{}

/// `NotRecursive` is chosen exactly where the constant occurs in no right side and in no scrutinee.
pub fn not_recursive_is_exact()
    ensures { NotRecursiveIsExact }
{}

/// A position is chosen exactly where the function calls itself and the position is the least usable one.
pub fn at_is_least_usable()
    ensures { AtIsLeastUsable }
{}

/// `NotSmaller` is answered exactly where the function calls itself and no position is usable, with the first failing call of each
/// position that admits recursion.
pub fn not_smaller_is_exact()
    ensures { NotSmallerIsExact }
{}

/// A strict part is something lower than the whole, at arguments.
pub fn parts_are_lower()
    ensures { PartsAreLower }
{}

/// Where no recursive argument is a function, a strict part is itself lower.
pub fn finitary_parts_are_lower()
    ensures { FinitaryPartsAreLower }
{}

/// No chain of strict parts goes on for ever, unless a constructor is taken as a function.
pub fn parts_end()
    ensures { PartsEnd }
{}

/// The recursion order at a position that admits recursion has each position of the telescope once, and the types in it are a telescope.
pub fn order_is_telescope()
    ensures { OrderIsTelescope }
{}
