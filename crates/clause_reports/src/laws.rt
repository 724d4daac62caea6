//! The laws of entering and of reports.
ghost use Rattle.clause_reports.specs.Laws.{EnteringSpends, EnteringAdds, EnteringKeepsWellFormed, ReportSpends, ReportKeepsWellFormed, DefinitionalConverts, ProvedHasType, ShadowedMatches, AbsurdIsAbsurd};

/// No units are given back when a draft enters.
pub fn entering_spends()
    ensures { EnteringSpends }
{}

/// A draft that enters extends the signature, and its entry is the last one.
pub fn entering_adds()
    ensures { EnteringAdds }
{}

/// A well-formed signature stays well formed when a draft enters.
pub fn entering_keeps_well_formed()
    ensures { EnteringKeepsWellFormed }
{}

/// Reports give no units back.
pub fn report_spends()
    ensures { ReportSpends }
{}

/// A well-formed signature stays well formed when a clause is reported.
pub fn report_keeps_well_formed()
    ensures { ReportKeepsWellFormed }
{}

/// The sides of a definitional equation convert.
pub fn definitional_converts()
    ensures { DefinitionalConverts }
{}

/// The entry that proves an equation is a definition of the closed equation type.
pub fn proved_has_type()
    ensures { ProvedHasType }
{}

/// A shadowed clause and an earlier one match the same arguments, and its equation converts at all its leaves.
pub fn shadowed_matches()
    ensures { ShadowedMatches }
{}

/// The line of a clause is `absurd` exactly where the clause has `( )`.
pub fn absurd_is_absurd()
    ensures { AbsurdIsAbsurd }
{}
