//! Parts of the pairs of a clause: clashes, open pairs, dots and bindings.
ghost use Rattle.std.specs.Prelude.{◌≡◌, ◌++◌, ◌+◌, Ok, OnOk, OnErr, Err, option_map, map};
ghost use Rattle.core_terms.specs.Answers.{Gives};
ghost use Rattle.core_terms.specs.Meanings.{tree_of, tele_of};
ghost use Rattle.core_terms.specs.PatternMeanings.{pat_of, pats_of};
ghost use Rattle.core_terms.specs.declared.stop.Stop.TheVariants.{Memory};
ghost use Rattle.case_trees.specs.Pairs as spec;
ghost use Rattle.clause_walks.specs.Meanings.{pair_of, pairs_of};
ghost use Rattle.clause_walks.specs.CodeDots.{bound_of};
ghost use Rattle.clause_walks.specs.OpenPairs.{open_of, all_open_of};
ghost use Rattle.clause_walks.specs.Parts.{all_forced};

use crate::{OpenPair, Pair};
use core_terms::{Items, Pat, Stop, Tele, Term, applied, copy_tele, copy_whole};
use std::alloc::Global;

/// The written term of a dot, with the term that it is to be.
#[derive(Clone, Copy)]
pub struct Forced<'a> {
    pub written: &'a Term,
    pub term: &'a Term,
}

#[cycle(first_clash)]
fn clash_in<'a>(pair: &'a Pair) -> Option<OpenPair<'a>>
    ensures { option_map open_of result ≡ spec.clash_in (pair_of pair.now) }
{
    match pair {
        Pair::Builds(_, _, _, pairs) => first_clash(pairs.as_slice()),
        Pair::Clashes(pat, term) => Some(OpenPair { pat: *pat, term }),
        _ => None,
    }
}

/// The pattern and the term that clash.
#[cycle(first_clash)]
pub fn first_clash<'a>(pairs: &'a [Pair]) -> Option<OpenPair<'a>>
    ensures { option_map open_of result ≡ spec.first_clash (pairs_of pairs.now) }
{
    match pairs {
        [] => None,
        [pair, rest @ ..] => match clash_in(pair) {
            Some(clash) => Some(clash),
            None => first_clash(rest),
        },
    }
}

#[cycle(opening)]
fn add_open<'a>(pair: &'a Pair, found: &mut Items<OpenPair<'a>>) -> Result<(), Stop>
    ensures ok { OnOk result (all_open_of found.new ≡ all_open_of found.old ++ spec.open_in (pair_of pair.now)) }
    ensures err { OnErr result (result ≡ Err Memory) }
{
    match pair {
        Pair::Waits(pat, term) => {
            found.push(OpenPair { pat: *pat, term })?;
            Ok(())
        }
        Pair::Builds(_, _, _, pairs) => add_all_open(pairs.as_slice(), found),
        _ => Ok(()),
    }
}

#[cycle(opening)]
fn add_all_open<'a>(pairs: &'a [Pair], found: &mut Items<OpenPair<'a>>) -> Result<(), Stop>
    ensures ok { OnOk result (all_open_of found.new ≡ all_open_of found.old ++ spec.all_open (pairs_of pairs.now)) }
    ensures err { OnErr result (result ≡ Err Memory) }
{
    match pairs {
        [] => Ok(()),
        [pair, rest @ ..] => {
            add_open(pair, found)?;
            add_all_open(rest, found)
        }
    }
}

/// The pairs that wait, from the left.
pub fn all_open<'a>(alloc: Global, pairs: &'a [Pair]) -> Result<Items<OpenPair<'a>>, Stop>
    ensures { Gives all_open_of result (Ok (spec.all_open (pairs_of pairs.now))) }
{
    let mut found = Items::new(alloc);
    add_all_open(pairs, &mut found)?;
    Ok(found)
}

#[cycle(unbound)]
fn add_unbound<'a>(pat: &Pat, found: &mut Vec<Option<&'a Term>>) -> Result<(), Stop>
    ensures ok { OnOk result (bound_of found.new.items ≡ bound_of found.old.items ++ spec.unbound (pat_of pat.now)) }
    ensures err { OnErr result (result ≡ Err Memory) }
{
    match pat {
        Pat::Bind => {
            found.push(None)?;
            Ok(())
        }
        Pat::Con(_, _, pats) => add_all_unbound(pats.as_slice(), found),
        _ => Ok(()),
    }
}

#[cycle(unbound)]
fn add_all_unbound<'a>(pats: &[Pat], found: &mut Vec<Option<&'a Term>>) -> Result<(), Stop>
    ensures ok { OnOk result (bound_of found.new.items ≡ bound_of found.old.items ++ spec.all_unbound (pats_of pats.now)) }
    ensures err { OnErr result (result ≡ Err Memory) }
{
    match pats {
        [] => Ok(()),
        [pat, rest @ ..] => {
            add_unbound(pat, found)?;
            add_all_unbound(rest, found)
        }
    }
}

#[cycle(bound)]
fn add_bound<'a>(pair: &'a Pair, found: &mut Vec<Option<&'a Term>>) -> Result<(), Stop>
    ensures ok { OnOk result (bound_of found.new.items ≡ bound_of found.old.items ++ spec.bound_in (pair_of pair.now)) }
    ensures err { OnErr result (result ≡ Err Memory) }
{
    match pair {
        Pair::Waits(pat, _) | Pair::Clashes(pat, _) => add_unbound(pat, found),
        Pair::Binds(t) => {
            found.push(Some(t))?;
            Ok(())
        }
        Pair::Builds(_, _, _, pairs) => add_all_bound(pairs.as_slice(), found),
        Pair::Passes(_) | Pair::Keeps(_, _) => Ok(()),
    }
}

#[cycle(bound)]
fn add_all_bound<'a>(pairs: &'a [Pair], found: &mut Vec<Option<&'a Term>>) -> Result<(), Stop>
    ensures ok { OnOk result (bound_of found.new.items ≡ bound_of found.old.items ++ spec.all_bound (pairs_of pairs.now)) }
    ensures err { OnErr result (result ≡ Err Memory) }
{
    match pairs {
        [] => Ok(()),
        [pair, rest @ ..] => {
            add_bound(pair, found)?;
            add_all_bound(rest, found)
        }
    }
}

/// The terms of the clause's variables, in the order in which they are written; None if a variable has no term yet.
pub fn all_bound<'a>(alloc: Global, pairs: &'a [Pair]) -> Result<Vec<Option<&'a Term>>, Stop>
    ensures { Gives (λ found. bound_of found.items) result (Ok (spec.all_bound (pairs_of pairs.now))) }
{
    let mut found = Vec::new(alloc);
    add_all_bound(pairs, &mut found)?;
    Ok(found)
}

#[cycle(dots)]
fn add_dots<'a>(pair: &'a Pair, found: &mut Vec<Forced<'a>>) -> Result<(), Stop>
    ensures ok { OnOk result (all_forced found.new.items ≡ all_forced found.old.items ++ spec.dots_in (pair_of pair.now)) }
    ensures err { OnErr result (result ≡ Err Memory) }
{
    match pair {
        Pair::Keeps(written, term) => {
            found.push(Forced {
                written: *written,
                term,
            })?;
            Ok(())
        }
        Pair::Builds(_, _, _, pairs) => add_all_dots(pairs.as_slice(), found),
        _ => Ok(()),
    }
}

#[cycle(dots)]
fn add_all_dots<'a>(pairs: &'a [Pair], found: &mut Vec<Forced<'a>>) -> Result<(), Stop>
    ensures ok { OnOk result (all_forced found.new.items ≡ all_forced found.old.items ++ spec.all_dots (pairs_of pairs.now)) }
    ensures err { OnErr result (result ≡ Err Memory) }
{
    match pairs {
        [] => Ok(()),
        [pair, rest @ ..] => {
            add_dots(pair, found)?;
            add_all_dots(rest, found)
        }
    }
}

/// The dots that are kept, from the left.
pub fn all_dots<'a>(alloc: Global, pairs: &'a [Pair]) -> Result<Vec<Forced<'a>>, Stop>
    ensures { Gives (λ found. all_forced found.items) result (Ok (spec.all_dots (pairs_of pairs.now))) }
{
    let mut found = Vec::new(alloc);
    add_all_dots(pairs, &mut found)?;
    Ok(found)
}

#[cycle(patterns)]
fn patterns_in(pat: &Pat) -> Result<u64, Stop>
    ensures { Gives (λ n. n) result (Ok (spec.patterns_in (pat_of pat.now))) }
{
    match pat {
        Pat::Con(_, _, pats) => sum(1, all_patterns(pats.as_slice())?),
        Pat::Absurd => Ok(1),
        _ => Ok(0),
    }
}

#[cycle(patterns)]
fn all_patterns(pats: &[Pat]) -> Result<u64, Stop>
    ensures { Gives (λ n. n) result (Ok (spec.all_patterns (pats_of pats.now))) }
{
    match pats {
        [] => Ok(0),
        [pat, rest @ ..] => sum(patterns_in(pat)?, all_patterns(rest)?),
    }
}

/// The sum, or Memory where no number has room for it.
pub fn sum(a: u64, b: u64) -> Result<u64, Stop>
    ensures { Gives (λ n. n) result (Ok (a + b)) }
{
    match a.checked_add(b) {
        Some(n) => Ok(n),
        None => Err(Stop::Memory),
    }
}

#[cycle(left)]
fn left_in(pair: &Pair) -> Result<u64, Stop>
    ensures { Gives (λ n. n) result (Ok (spec.left_in (pair_of pair.now))) }
{
    match pair {
        Pair::Waits(pat, _) => patterns_in(pat),
        Pair::Builds(_, _, _, pairs) => all_left(pairs.as_slice()),
        _ => Ok(0),
    }
}

/// The constructor and absurd patterns that are left, or Memory where no number has room for them.
#[cycle(left)]
pub fn all_left(pairs: &[Pair]) -> Result<u64, Stop>
    ensures { Gives (λ n. n) result (Ok (spec.all_left (pairs_of pairs.now))) }
{
    match pairs {
        [] => Ok(0),
        [pair, rest @ ..] => sum(left_in(pair)?, all_left(rest)?),
    }
}

/// The term of a pair. Nothing tests its height.
#[cycle(terms)]
pub(crate) fn term_in(alloc: Global, pair: &Pair) -> Result<Term, Stop>
    ensures { Gives tree_of result (Ok (spec.term_in (pair_of pair.now))) }
{
    match pair {
        Pair::Waits(_, t)
        | Pair::Binds(t)
        | Pair::Passes(t)
        | Pair::Keeps(_, t)
        | Pair::Clashes(_, t) => copy_whole(alloc, t),
        Pair::Builds(n, number, ps, pairs) => {
            let ps = copy_tele(alloc, ps.as_slice())?;
            let terms = terms_after(alloc, pairs.as_slice(), ps)?;
            applied(alloc, Term::Con(*n, *number), terms.into_vec())
        }
    }
}

/// The terms of pairs after those that are made.
#[cycle(terms)]
pub(crate) fn terms_after(alloc: Global, pairs: &[Pair], mut made: Tele) -> Result<Tele, Stop>
    ensures { Gives tele_of result (Ok (tele_of made ++ spec.terms_in (pairs_of pairs.now))) }
{
    match pairs {
        [] => Ok(made),
        [pair, rest @ ..] => {
            made.push(term_in(alloc, pair)?)?;
            terms_after(alloc, rest, made)
        }
    }
}
