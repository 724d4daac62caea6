//! The laws of scoping: products and spines, the types that scoped records bring along, iota and steps.
ghost use Rattle.theory.specs.ScopeLaws.{FreeOfProducts, FreeOfApplied, FamilyTypeClosed, ConstructorTypeClosed, EliminatorTypeClosed, AxiomKTypeClosed, FreeOfIota, FreeOfStep, RecordsScoped};

/// Products are scoped exactly where their telescope and their end are.
pub fn free_of_products()
    ensures { FreeOfProducts }
{}

/// A spine is scoped exactly where its head and its arguments are.
pub fn free_of_applied()
    ensures { FreeOfApplied }
{}

/// The type of a scoped family is closed.
pub fn family_type_closed()
    ensures { FamilyTypeClosed }
{}

/// The type of a scoped constructor is closed.
pub fn constructor_type_closed()
    ensures { ConstructorTypeClosed }
{}

/// The types of the eliminators of a scoped family are closed.
pub fn eliminator_type_closed()
    ensures { EliminatorTypeClosed }
{}

/// The type of axiom K is closed.
pub fn axiom_k_type_closed()
    ensures { AxiomKTypeClosed }
{}

/// The right side of iota has no free variables but those of its terms.
pub fn free_of_iota()
    ensures { FreeOfIota }
{}

/// A step brings no free variable in.
pub fn free_of_step()
    ensures { FreeOfStep }
{}

/// The records of a typed signature are scoped.
pub fn records_scoped()
    ensures { RecordsScoped }
{}
