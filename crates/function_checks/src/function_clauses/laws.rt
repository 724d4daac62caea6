//! The laws of the own part of a function.
ghost use Rattle.function_checks.specs.function_clauses.Laws.{OwnPartColumns, OwnPartFits};

/// The clauses of a resolved function can be walked from its own part.
pub fn own_part_fits()
    ensures { OwnPartFits }
{}

/// The own part of a resolved function has as many columns as its telescope has types.
pub fn own_part_columns()
    ensures { OwnPartColumns }
{}
