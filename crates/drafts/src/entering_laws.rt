//! The signatures that drafts may enter: the prelude is one, and a signature that is one stays one when entries are
//! added.
ghost use Rattle.drafts.specs.entering_laws.Laws.{AxiomKKeepsOpen, DeclareKeepsOpen, DefineKeepsOpen, DefinitionKeepsOpen, EnteredIsOpen, FamilyKeepsOpen, InstanceKeepsOpen, NamesStayUnmarked, PreludeIsOpen, WellFormedIsOpen};

/// Drafts may enter the prelude.
pub fn prelude_is_open()
    ensures { PreludeIsOpen }
{}

/// Drafts may enter an open signature to which a scoped definition has gone, whatever its name is.
pub fn definition_keeps_open()
    ensures { DefinitionKeepsOpen }
{}

/// Drafts may enter an open signature to which a family has gone, where no family's and no constructor's name holds a `!`.
pub fn family_keeps_open()
    ensures { FamilyKeepsOpen }
{}

/// Names stay without a `!` where other entries than families go to the end.
pub fn names_stay_unmarked()
    ensures { NamesStayUnmarked }
{}

/// Drafts may enter a well-formed signature that begins with the prelude, where no family's and no constructor's name holds a `!`.
pub fn well_formed_is_open()
    ensures { WellFormedIsOpen }
{}

/// Where a draft enters a well-formed and open signature, the new one is again so, and has no family more.
pub fn entered_is_open()
    ensures { EnteredIsOpen }
{}

/// An open signature stays open where a family is declared whose names hold no `!`.
pub fn declare_keeps_open()
    ensures { DeclareKeepsOpen }
{}

/// An open signature stays open where a definition enters.
pub fn define_keeps_open()
    ensures { DefineKeepsOpen }
{}

/// An open signature stays open where an eliminator is instanced.
pub fn instance_keeps_open()
    ensures { InstanceKeepsOpen }
{}

/// An open signature stays open where axiom K is instanced.
pub fn axiom_k_keeps_open()
    ensures { AxiomKKeepsOpen }
{}
