ghost use Rattle.std.specs.Prelude.{◌≡◌, ◌+◌, map, Err, IfOk, OnErr};
ghost use Rattle.clause_lines.specs.LineMeanings.{line_of};
ghost use Rattle.core_terms.specs.declared.stop.Stop.TheVariants.{Memory};
ghost use Rattle.elim.specs.elim_program.Works as spec;
ghost use Rattle.function_session.specs.function_lines.LineMeanings.{clause_line_of};

use clause_lines::Line;
use core_terms::{Stop, next};
use function_session::function_lines::ClauseLine;

/// How many declarations are accepted, and how many clauses have each line.
#[derive(Clone, Copy, Debug, PartialEq, Eq)]
pub(crate) struct Counts {
    pub accepted: u32,
    pub definitional: u32,
    pub proved: u32,
    pub shadowed: u32,
    pub absurd: u32,
}

/// Nothing counted yet.
pub(crate) fn none_counted() -> Counts
    ensures { result ≡ spec.none_counted }
{
    Counts {
        accepted: 0,
        definitional: 0,
        proved: 0,
        shadowed: 0,
        absurd: 0,
    }
}

/// Counts a clause.
fn counted(counts: Counts, line: &Line) -> Result<Counts, Stop>
    ensures ok { IfOk result (λ c. c ≡ spec.counted counts (line_of line.now)) }
    ensures memory { OnErr result (result ≡ Err Memory) }
{
    match line {
        Line::Definitional => Ok(Counts {
            definitional: next(counts.definitional)?,
            ..counts
        }),
        Line::Proved(_) => Ok(Counts {
            proved: next(counts.proved)?,
            ..counts
        }),
        Line::Shadowed { .. } => Ok(Counts {
            shadowed: next(counts.shadowed)?,
            ..counts
        }),
        Line::Absurd => Ok(Counts {
            absurd: next(counts.absurd)?,
            ..counts
        }),
    }
}

/// Counts clauses.
fn all_counted(counts: Counts, lines: &[ClauseLine]) -> Result<Counts, Stop>
    ensures ok { IfOk result (λ c. c ≡ spec.all_counted counts (map clause_line_of lines.now)) }
    ensures memory { OnErr result (result ≡ Err Memory) }
{
    match lines {
        [] => Ok(counts),
        [first, rest @ ..] => all_counted(counted(counts, &first.line)?, rest),
    }
}

/// Counts a declaration that is accepted, and its clauses.
pub(crate) fn with_accepted(counts: Counts, lines: &[ClauseLine]) -> Result<Counts, Stop>
    ensures ok { IfOk result (λ c. c ≡ spec.all_counted (spec.one_accepted counts) (map clause_line_of lines.now)) }
    ensures memory { OnErr result (result ≡ Err Memory) }
{
    let more = Counts {
        accepted: next(counts.accepted)?,
        ..counts
    };
    all_counted(more, lines)
}
