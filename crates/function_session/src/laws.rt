//! The laws of one declaration: the signature stays that of a session, and an accepted declaration is as written.
ghost use Rattle.function_session.specs.Laws.{DeclareHoldsDecisions, DeclareKeepsReady, DeclaresAsWritten, ElaborateKeepsReady, ElaboratesAsWritten};

/// Earlier entries stay, and the signature of a session stays well formed, settled, and begins with the prelude.
pub fn elaborate_keeps_ready()
    ensures { ElaborateKeepsReady }
{}

/// An accepted declaration is as it is written, and is formed by the rules over the entries before it.
pub fn elaborates_as_written()
    ensures { ElaboratesAsWritten }
{}

/// In a session earlier entries stay too, and so does what is said of its signature, whatever is declared.
pub fn declare_keeps_ready()
    ensures { DeclareKeepsReady }
{}

/// The decisions of equality that a session accepted are definitions whose types say what is decided, and stay so.
pub fn declare_holds_decisions()
    ensures { DeclareHoldsDecisions }
{}

/// A declaration that a session accepts is as it is written, a decision of equality too.
pub fn declares_as_written()
    ensures { DeclaresAsWritten }
{}
