//! Tests of what walks and trees ask of their arguments.
ghost use Rattle.std.specs.Prelude.{◌≡◌, ◌≤◌, All, IsTrue, length, true};
ghost use Rattle.core_terms.specs.Meanings.{tele_of, tree_of};
ghost use Rattle.core_terms.specs.PatternMeanings.{clause_of, clauses_of, pats_of};
ghost use Rattle.theory.specs.SignatureScopes.{IsScoped, IsScopedTelescope};
ghost use Rattle.case_trees.specs.pattern_vectors.Matching.{is_as_long};
ghost use Rattle.unification.specs.ScopedStates.{IsReady};
ghost use Rattle.problems.specs.Conditions.{most_levels};
ghost use Rattle.case_trees.specs.Laws.{IsGiven};
ghost use Rattle.case_trees.specs.Scoped.{AreClausesFor, IsClauseOf};

use crate::patterns::{are_scoped_patterns, are_whole, without_all};
use core_sig::{Signature, is_scoped};
use core_terms::{Clause, Pat, Tele, Term};

/// More variables than any context may have that walks and trees begin with.
const MOST_LEVELS: usize = 2_147_400_000;

/// Whether each type of a telescope after `n` variables is over these and the types before it.
fn is_scoped_telescope(sig: &Signature, n: u32, tele: &[Term]) -> bool
    ensures { IsTrue result → IsScopedTelescope sig.now n (tele_of tele.now) }
{
    match tele {
        [a, rest @ ..] => {
            n < u32::MAX && is_scoped(sig, n, a) && is_scoped_telescope(sig, n + 1, rest)
        }
        [] => true,
    }
}

/// Whether terms are over `n` variables.
fn are_scoped(sig: &Signature, n: u32, terms: &[Term]) -> bool
    ensures { IsTrue result → All (IsScoped sig.now n) (tele_of terms.now) }
{
    match terms {
        [t, rest @ ..] => is_scoped(sig, n, t) && are_scoped(sig, n, rest),
        [] => true,
    }
}

/// Whether a context isn't too long for walks and trees.
pub fn is_short(ctx: &Tele) -> bool
    ensures { IsTrue result → length ctx.now ≤ most_levels }
{
    ctx.as_slice().len() <= MOST_LEVELS
}

/// Whether a context, a goal and the terms of columns are scoped.
pub fn are_given(sig: &Signature, ctx: &Tele, goal: &Term, terms: &Tele) -> bool
    requires ready { IsReady sig.now }
    requires short { length ctx.now ≤ most_levels }
    ensures { IsTrue result → IsGiven sig.now (tele_of ctx.now) (tree_of goal.now) (tele_of terms.now) }
{
    let n = ctx.as_slice().len() as u32;
    if !is_scoped_telescope(sig, 0, ctx.as_slice()) || !is_scoped(sig, n, goal) {
        return false;
    }
    are_scoped(sig, n, terms.as_slice())
}

/// Whether there are as many patterns as terms.
fn are_as_many(pats: &[Pat], terms: &[Term]) -> bool
    ensures { IsTrue result → is_as_long (pats_of pats.now) (tele_of terms.now) ≡ true }
{
    match pats {
        [_, pats @ ..] => match terms {
            [_, terms @ ..] => are_as_many(pats, terms),
            [] => false,
        },
        [] => terms.is_empty(),
    }
}

/// Whether a clause has a pattern for each term, all arguments in its constructors, and the number of its variables.
pub fn is_clause_for(sig: &Signature, terms: &Tele, clause: &Clause) -> bool
    ensures { IsTrue result → IsClauseOf sig.now (tele_of terms.now) (clause_of clause.now) }
{
    let pats = clause.pats.as_slice();
    are_as_many(pats, terms.as_slice())
        && are_whole(sig, pats)
        && without_all(pats, clause.binds) == Some(0)
        && are_scoped_patterns(sig, clause.binds, pats)
}

/// The same of each of some clauses.
pub fn are_clauses_for(sig: &Signature, terms: &Tele, clauses: &[Clause]) -> bool
    ensures { IsTrue result → AreClausesFor sig.now (tele_of terms.now) (clauses_of clauses.now) }
{
    match clauses {
        [clause, rest @ ..] => {
            is_clause_for(sig, terms, clause) && are_clauses_for(sig, terms, rest)
        }
        [] => true,
    }
}
