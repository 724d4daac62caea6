//! Laws of the checker's answers.
ghost use Rattle.kernel_check.specs.Laws.{InferIsSound, InferSortIsSound, CheckIsSound, InferIsLow, InferSortIsLow, CheckIsLow, InferSortIsSort, InferSpends, InferSortSpends, CheckSpends, InferScoped, InferSortScoped, CheckScoped};

/// A type that is inferred has a derivation, and is a sort or has one.
pub fn infer_is_sound()
    ensures { InferIsSound }
{}

/// A sort that is inferred has a derivation.
pub fn infer_sort_is_sound()
    ensures { InferSortIsSound }
{}

/// A term that is checked against a type has it.
pub fn check_is_sound()
    ensures { CheckIsSound }
{}

/// A type that is inferred is no higher than 2,000, and neither is its term.
pub fn infer_is_low()
    ensures { InferIsLow }
{}

/// A sort that is inferred is no higher than 2,000, and neither is its type.
pub fn infer_sort_is_low()
    ensures { InferSortIsLow }
{}

/// A term that is checked is no higher than 2,000, and neither is the type that is found.
pub fn check_is_low()
    ensures { CheckIsLow }
{}

/// The answer for a type is a sort.
pub fn infer_sort_is_sort()
    ensures { InferSortIsSort }
{}

/// Inference gives no units back.
pub fn infer_spends()
    ensures { InferSpends }
{}

/// Inference of a sort gives no units back.
pub fn infer_sort_spends()
    ensures { InferSortSpends }
{}

/// A check gives no units back.
pub fn check_spends()
    ensures { CheckSpends }
{}

/// Inference keeps terms scoped.
pub fn infer_scoped()
    ensures { InferScoped }
{}

/// Inference of a sort keeps terms scoped.
pub fn infer_sort_scoped()
    ensures { InferSortScoped }
{}

/// A check keeps terms scoped.
pub fn check_scoped()
    ensures { CheckScoped }
{}
