//! Laws of entering: the signature stays well formed, and units are spent.
ghost use Rattle.family_check.specs.Laws.{DeclareKeepsWellFormed, InstanceKeepsWellFormed, AxiomKKeepsWellFormed, DefineKeepsWellFormed, DeclareSpends, InstanceSpends, AxiomKSpends, DefineSpends, DeclareKeepsSettled, InstanceKeepsSettled, AxiomKKeepsSettled, DefineKeepsSettled, DeclareEntersGiven, PreludeIsSettled, SameOffender};

/// A signature stays well formed where a family enters.
pub fn declare_keeps_well_formed()
    ensures { DeclareKeepsWellFormed }
{}

/// A signature stays well formed where an eliminator enters.
pub fn instance_keeps_well_formed()
    ensures { InstanceKeepsWellFormed }
{}

/// A signature stays well formed where axiom K enters.
pub fn axiom_k_keeps_well_formed()
    ensures { AxiomKKeepsWellFormed }
{}

/// A signature stays well formed where a definition enters.
pub fn define_keeps_well_formed()
    ensures { DefineKeepsWellFormed }
{}

/// A declaration gives no units back.
pub fn declare_spends()
    ensures { DeclareSpends }
{}

/// An instance gives no units back.
pub fn instance_spends()
    ensures { InstanceSpends }
{}

/// Axiom K gives no units back.
pub fn axiom_k_spends()
    ensures { AxiomKSpends }
{}

/// A definition gives no units back.
pub fn define_spends()
    ensures { DefineSpends }
{}

/// A declaration keeps a settled signature settled, and its denials are scoped.
pub fn declare_keeps_settled()
    ensures { DeclareKeepsSettled }
{}

/// An instance keeps a settled signature settled, and its denials are scoped.
pub fn instance_keeps_settled()
    ensures { InstanceKeepsSettled }
{}

/// Axiom K keeps a settled signature settled, and its denials are scoped.
pub fn axiom_k_keeps_settled()
    ensures { AxiomKKeepsSettled }
{}

/// A definition keeps a settled signature settled, and its denials are scoped.
pub fn define_keeps_settled()
    ensures { DefineKeepsSettled }
{}

/// A family enters as it is declared.
pub fn declare_enters_given()
    ensures { DeclareEntersGiven }
{}

/// Entries may enter the prelude.
pub fn prelude_is_settled()
    ensures { PreludeIsSettled }
{}

/// The first violation of positivity in a declared type is also that of the record that is made of it.
pub fn same_offender()
    ensures { SameOffender }
{}
