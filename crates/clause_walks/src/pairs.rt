ghost use Rattle.std.specs.Prelude.{◌≡◌, Ok};
ghost use Rattle.core_terms.specs.Answered.{shown};
ghost use Rattle.core_terms.specs.Answers.{Gives};
ghost use Rattle.core_terms.specs.Meanings.{tree_of, tele_of};
ghost use Rattle.core_terms.specs.PatternMeanings.{pat_of, pats_of};
ghost use Rattle.case_trees.specs.Pairs as spec;
ghost use Rattle.clause_walks.specs.AnsweredPairs.{of_term};
ghost use Rattle.clause_walks.specs.Meanings.{pair_of, pairs_of, behind};

use core_terms::{Items, Pat, Stop, Tele, Term, copy_tele, copy_whole};
use std::alloc::Global;

/// A pattern of a clause with a term of the current context, as far as they are worked.
///
/// `Waits`: the pattern is not worked yet, or it asks for a constructor, and the head form of the term is none. `Binds`: a
/// variable has the term. `Passes`: a wildcard took the term, which nothing reads. `Keeps`: what is written in a dot, with the term
/// that it is to be. `Builds`: the term is the constructor of the pattern, with its family and number, at its parameters and the
/// pairs of its arguments. `Clashes`: the term is another constructor, or any constructor against the absurd pattern.
#[derive(Debug, Drop)]
pub enum Pair<'a> {
    Waits(&'a Pat, Term),
    Binds(Term),
    Passes(Term),
    Keeps(&'a Term, Term),
    Builds(u32, u32, Tele, Items<Pair<'a>>),
    Clashes(&'a Pat, Term),
}

/// The patterns of a clause with as many terms: so it starts.
pub fn waiting<'a>(alloc: Global, pats: &'a [Pat], terms: &[Term]) -> Result<Items<Pair<'a>>, Stop>
    ensures { Gives pairs_of result (Ok (spec.waiting (pats_of pats.now) (tele_of terms.now))) }
{
    waiting_after(alloc, pats, terms, Items::new(alloc))
}

pub(crate) fn waits<'a>(alloc: Global, pat: &'a Pat, t: &Term) -> Result<Pair<'a>, Stop>
    ensures { Gives pair_of result (Ok (spec.Waits (pat_of pat.now) (tree_of t.now))) }
{
    waits_with(pat, copy_whole(alloc, t))
}

/// A pattern that waits with a term that is answered.
pub(crate) fn waits_with<'a>(pat: &'a Pat, t: Result<Term, Stop>) -> Result<Pair<'a>, Stop>
    ensures { Gives pair_of result (of_term (spec.Waits (pat_of pat.now)) (shown t)) }
{
    Ok(Pair::Waits(pat, t?))
}

/// A variable that has a term that is answered.
pub(crate) fn binds_with<'a>(t: Result<Term, Stop>) -> Result<Pair<'a>, Stop>
    ensures { Gives pair_of result (of_term spec.Binds (shown t)) }
{
    Ok(Pair::Binds(t?))
}

/// A wildcard with a term that is answered.
pub(crate) fn passes_with<'a>(t: Result<Term, Stop>) -> Result<Pair<'a>, Stop>
    ensures { Gives pair_of result (of_term spec.Passes (shown t)) }
{
    Ok(Pair::Passes(t?))
}

/// The written term of a dot, with a term that is answered.
pub(crate) fn keeps_with<'a>(written: &'a Term, t: Result<Term, Stop>) -> Result<Pair<'a>, Stop>
    ensures { Gives pair_of result (of_term (spec.Keeps (tree_of written.now)) (shown t)) }
{
    Ok(Pair::Keeps(written, t?))
}

/// A pattern that clashes with a term that is answered.
pub(crate) fn clashes_with<'a>(pat: &'a Pat, t: Result<Term, Stop>) -> Result<Pair<'a>, Stop>
    ensures { Gives pair_of result (of_term (spec.Clashes (pat_of pat.now)) (shown t)) }
{
    Ok(Pair::Clashes(pat, t?))
}

/// Patterns that wait at their terms, after pairs that are already there.
pub(crate) fn waiting_after<'a>(
    alloc: Global,
    pats: &'a [Pat],
    terms: &[Term],
    mut made: Items<Pair<'a>>,
) -> Result<Items<Pair<'a>>, Stop>
    ensures { Gives pairs_of result (Ok (behind made.entry (spec.waiting (pats_of pats.now) (tele_of terms.now)))) }
{
    match pats {
        [pat, pats @ ..] => match terms {
            [t, terms @ ..] => {
                made.push(waits(alloc, pat, t)?)?;
                waiting_after(alloc, pats, terms, made)
            }
            [] => Ok(made),
        },
        [] => Ok(made),
    }
}

#[cycle(clashing)]
pub(crate) fn clashes(pair: &Pair) -> bool
    ensures { result ≡ spec.clashes (pair_of pair.now) }
{
    match pair {
        Pair::Builds(_, _, _, pairs) => some_clashes(pairs.as_slice()),
        Pair::Clashes(_, _) => true,
        _ => false,
    }
}

/// Whether a pair clashes, so that the clause is dropped.
#[cycle(clashing)]
pub fn some_clashes(pairs: &[Pair]) -> bool
    ensures { result ≡ spec.some_clashes (pairs_of pairs.now) }
{
    match pairs {
        [] => false,
        [pair, rest @ ..] => clashes(pair) || some_clashes(rest),
    }
}

/// A copy of a pair.
#[cycle(copying)]
pub(crate) fn copy_pair<'a>(alloc: Global, pair: &Pair<'a>) -> Result<Pair<'a>, Stop>
    ensures { Gives pair_of result (Ok (pair_of pair.now)) }
{
    match pair {
        Pair::Waits(pat, t) => waits_with(*pat, copy_whole(alloc, t)),
        Pair::Binds(t) => binds_with(copy_whole(alloc, t)),
        Pair::Passes(t) => passes_with(copy_whole(alloc, t)),
        Pair::Keeps(written, t) => keeps_with(*written, copy_whole(alloc, t)),
        Pair::Builds(n, number, ps, pairs) => {
            let copies = copy_after(alloc, pairs.as_slice(), Items::new(alloc))?;
            copied_builds(alloc, *n, *number, ps, copies)
        }
        Pair::Clashes(pat, t) => clashes_with(*pat, copy_whole(alloc, t)),
    }
}

/// Copies of pairs after those that are already there.
#[cycle(copying)]
pub(crate) fn copy_after<'a>(
    alloc: Global,
    pairs: &[Pair<'a>],
    mut made: Items<Pair<'a>>,
) -> Result<Items<Pair<'a>>, Stop>
    ensures { Gives pairs_of result (Ok (behind made.entry (pairs_of pairs.now))) }
{
    match pairs {
        [] => Ok(made),
        [pair, rest @ ..] => {
            made.push(copy_pair(alloc, pair)?)?;
            copy_after(alloc, rest, made)
        }
    }
}

/// A constructor at a copy of its parameters.
pub(crate) fn copied_builds<'a>(
    alloc: Global,
    n: u32,
    number: u32,
    ps: &Tele,
    pairs: Items<Pair<'a>>,
) -> Result<Pair<'a>, Stop>
    ensures { Gives pair_of result (Ok (spec.Builds n number (tele_of ps.now) (pairs_of pairs.entry))) }
{
    let ps = copy_tele(alloc, ps.as_slice())?;
    Ok(Pair::Builds(n, number, ps, pairs))
}
