//! Each entry that an accepted declaration adds is accepted by the checker, with units of its own.
ghost use Rattle.elim.specs.refusal_laws.accepted_laws.Laws.{DeclareIsChecked, ElaborateIsChecked, EnteringIsChecked, FamilyIsChecked, FunctionIsChecked, ReportIsChecked};

/// A declared family is accepted as its line shows it.
pub fn family_is_checked()
    ensures { FamilyIsChecked }
{}

/// Where a draft enters, each new entry is accepted by itself.
pub fn entering_is_checked()
    ensures { EnteringIsChecked }
{}

/// Where a clause is reported, each new entry is accepted by itself.
pub fn report_is_checked()
    ensures { ReportIsChecked }
{}

/// The entries of a function by clauses are accepted one by one.
pub fn function_is_checked()
    ensures { FunctionIsChecked }
{}

/// The new entries of each declaration are accepted one by one.
pub fn elaborate_is_checked()
    ensures { ElaborateIsChecked }
{}

/// So are those of each declaration in a session, a decision of equality too.
pub fn declare_is_checked()
    ensures { DeclareIsChecked }
{}
