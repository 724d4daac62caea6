//! By definition no declaration runs out of memory.
ghost use Rattle.elim.specs.memory_laws.Laws.{AxiomKForeseen, CheckForeseen, ConvertibleForeseen, DeclareNeedsNoMemory, DeclaredNeedsNoMemory, DefinitionForeseen, ElaborateNeedsNoMemory, EliminatorForeseen, EnterNeedsNoMemory, EntryReadForeseen, FamilyForeseen, FunctionForeseen, HeadReadForeseen, InferForeseen, InferSortForeseen, MeantForeseen, NormalForeseen, ReadEntryNeedsNoMemory, SubtypeForeseen, WhnfForeseen};

/// A head form is refused only out of units or for a height.
pub fn whnf_is_foreseen()
    ensures { WhnfForeseen }
{}

/// So is a normal form.
pub fn normal_is_foreseen()
    ensures { NormalForeseen }
{}

/// So is whether terms are convertible.
pub fn convertible_is_foreseen()
    ensures { ConvertibleForeseen }
{}

/// So is whether a term is below another one.
pub fn subtype_is_foreseen()
    ensures { SubtypeForeseen }
{}

/// So is the type of a term, beside the checker's rejections.
pub fn infer_is_foreseen()
    ensures { InferForeseen }
{}

/// So is the sort of a type.
pub fn infer_sort_is_foreseen()
    ensures { InferSortForeseen }
{}

/// So is whether a term has a wanted type.
pub fn check_is_foreseen()
    ensures { CheckForeseen }
{}

/// A family is refused out of units, for a height, or for a cause of its own.
pub fn family_is_foreseen()
    ensures { FamilyForeseen }
{}

/// So is a definition.
pub fn definition_is_foreseen()
    ensures { DefinitionForeseen }
{}

/// So is an eliminator, and never for a name.
pub fn eliminator_is_foreseen()
    ensures { EliminatorForeseen }
{}

/// So is axiom K.
pub fn axiom_k_is_foreseen()
    ensures { AxiomKForeseen }
{}

/// The head lines of a core file are never refused as out of memory.
pub fn head_read_is_foreseen()
    ensures { HeadReadForeseen }
{}

/// The next entry of a core file is never refused so when it is read.
pub fn entry_read_is_foreseen()
    ensures { EntryReadForeseen }
{}

/// An entry is never refused so, unless it is the eliminator of an entry that is no family.
pub fn enter_needs_no_memory()
    ensures { EnterNeedsNoMemory }
{}

/// No entry that is read from a core file is refused so.
pub fn read_entry_needs_no_memory()
    ensures { ReadEntryNeedsNoMemory }
{}

/// A function by clauses is refused out of units, for a height, or for a cause of its own.
pub fn function_is_foreseen()
    ensures { FunctionForeseen }
{}

/// So is a function as it is meant, which the code answers unless something is too high.
pub fn meant_is_foreseen()
    ensures { MeantForeseen }
{}

/// A definition or a family is never refused as out of memory.
pub fn declare_needs_no_memory()
    ensures { DeclareNeedsNoMemory }
{}

/// Nor is a function.
pub fn elaborate_needs_no_memory()
    ensures { ElaborateNeedsNoMemory }
{}

/// No declaration in a session is, a decision of equality neither, nor families that refer to each other.
pub fn declared_needs_no_memory()
    ensures { DeclaredNeedsNoMemory }
{}
