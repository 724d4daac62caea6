ghost use Rattle.std.specs.Prelude.{◌≡◌, Ok, map, option_map};
ghost use Rattle.core_terms.specs.Answers.{Gives};
ghost use Rattle.core_terms.specs.PatternMeanings.{pat_of, pats_of};
ghost use Rattle.case_trees.specs.pattern_vectors.Meeting as spec;

use core_terms::{Items, Pat, Stop, copy_pat};
use std::alloc::Global;

/// The pattern whose instances are those of both.
#[cycle(meeting)]
fn meet_pattern(alloc: Global, a: &Pat, b: &Pat) -> Result<Option<Pat>, Stop>
    ensures { Gives (option_map pat_of) result (Ok (spec.meet (pat_of a.now) (pat_of b.now))) }
{
    match (a, b) {
        (Pat::Absurd, _) | (_, Pat::Absurd) => Ok(None),
        (Pat::Con(n, number, pats), Pat::Con(m, k, others)) => {
            if n != m || number != k {
                return Ok(None);
            }
            let both = meet_columns(alloc, pats.as_slice(), others.as_slice(), Items::new(alloc))?;
            Ok(both.map(|pats| Pat::Con(*n, *number, pats)))
        }
        (Pat::Con(_, _, _), _) => Ok(Some(copy_pat(alloc, a)?)),
        _ => Ok(Some(copy_pat(alloc, b)?)),
    }
}

/// Column by column, after those that are made.
#[cycle(meeting)]
fn meet_columns(
    alloc: Global,
    a: &[Pat],
    b: &[Pat],
    mut made: Items<Pat>,
) -> Result<Option<Items<Pat>>, Stop>
    ensures { Gives (option_map pats_of) result (Ok (spec.onto (map pat_of made) (spec.meet_all (pats_of a.now) (pats_of b.now)))) }
{
    match a {
        [first, a @ ..] => match b {
            [second, b @ ..] => match meet_pattern(alloc, first, second)? {
                Some(both) => {
                    made.push(both)?;
                    meet_columns(alloc, a, b, made)
                }
                None => Ok(None),
            },
            [] => Ok(None),
        },
        [] if b.is_empty() => Ok(Some(made)),
        [] => Ok(None),
    }
}

/// The list of patterns whose instances are those of both, which have one length; None exactly where some column clashes.
pub fn meet(alloc: Global, a: &Items<Pat>, b: &Items<Pat>) -> Result<Option<Items<Pat>>, Stop>
    ensures { Gives (option_map pats_of) result (Ok (spec.meet_all (pats_of a.now) (pats_of b.now))) }
{
    meet_columns(alloc, a.as_slice(), b.as_slice(), Items::new(alloc))
}
