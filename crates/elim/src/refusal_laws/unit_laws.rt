//! More units change no answer of the kernel but out of units.
ghost use Rattle.elim.specs.refusal_laws.unit_laws.Laws.{AxiomKSteady, CheckSteady, ConvertibleSteady, DeclareSteady, DefineSteady, HeadStepSteady, InferSortSteady, InferSteady, InstanceSteady, NormalSteady, SubtypeSteady, TidySteady, WhnfSteady};

/// A head step is the same with more units.
pub fn head_step_is_steady()
    ensures { HeadStepSteady }
{}

/// A head form is the same with more units.
pub fn whnf_is_steady()
    ensures { WhnfSteady }
{}

/// A term is shown the same with more units.
pub fn tidy_is_steady()
    ensures { TidySteady }
{}

/// A normal form is the same with more units.
pub fn normal_is_steady()
    ensures { NormalSteady }
{}

/// Whether terms are found convertible is the same with more units.
pub fn convertible_is_steady()
    ensures { ConvertibleSteady }
{}

/// Whether a term is found below another one is the same with more units.
pub fn subtype_is_steady()
    ensures { SubtypeSteady }
{}

/// The type of a term, or its rejection, is the same with more units.
pub fn infer_is_steady()
    ensures { InferSteady }
{}

/// The sort of a type, or its rejection, is the same with more units.
pub fn infer_sort_is_steady()
    ensures { InferSortSteady }
{}

/// Whether a term has a wanted type is the same with more units.
pub fn check_is_steady()
    ensures { CheckSteady }
{}

/// A family enters or is refused the same with more units.
pub fn declare_is_steady()
    ensures { DeclareSteady }
{}

/// An eliminator is instanced or refused the same with more units.
pub fn instance_is_steady()
    ensures { InstanceSteady }
{}

/// Axiom K is instanced or refused the same with more units.
pub fn axiom_k_is_steady()
    ensures { AxiomKSteady }
{}

/// A definition enters or is refused the same with more units.
pub fn define_is_steady()
    ensures { DefineSteady }
{}
