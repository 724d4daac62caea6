//! Laws of one declaration: what it keeps, and what is accepted.
ghost use Rattle.elab_session.specs.Laws.{DeclareExtends, DeclareKeepsReady, DeclaresAsWritten, EnterAdds, EnterExtends, EnterKeepsReady};

/// Earlier entries stay.
pub fn declare_extends()
    ensures { DeclareExtends }
{}

/// The signature of a session stays well formed, settled, and begins with the prelude.
pub fn declare_keeps_ready()
    ensures { DeclareKeepsReady }
{}

/// An accepted declaration is the written one, and has its type by the typing rules over the entries before it.
pub fn declares_as_written()
    ensures { DeclaresAsWritten }
{}

/// Earlier entries stay where an entry of a core file enters.
pub fn enter_extends()
    ensures { EnterExtends }
{}

/// An entry of a core file that is accepted is added, unless it is an instance that is there.
pub fn enter_adds()
    ensures { EnterAdds }
{}

/// The signature of a session stays well formed, settled, and begins with the prelude.
pub fn enter_keeps_ready()
    ensures { EnterKeepsReady }
{}
