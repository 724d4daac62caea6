ghost use Rattle.std.specs.Prelude.{◌≡◌, ◌++◌, map, OnOk, OnErr, option_map};
ghost use Rattle.core_terms.specs.PatternMeanings.{pat_of, pats_of};
ghost use Rattle.surface_syntax.specs.Trees as surf;
ghost use Rattle.surface_syntax.specs.TreeMeanings as written;
ghost use Rattle.resolve.specs.Answers.{Gives};
ghost use Rattle.resolve.specs.Patterns as spec;
ghost use Rattle.resolve.specs.PatternMeanings.{constructor_of};
ghost use Rattle.resolve.specs.Scopes.{names_of, known_of};
ghost use Rattle.resolve.specs.declared.stop.ResolveStop.TheVariants.{Memory};

use crate::ResolveStop;
use crate::constructors::{Constructor, find_constructor};
use crate::scope::Scope;
use crate::symbols::Symbols;
use crate::terms::resolve;
use crate::variables::Variables;
use core_sig::{NameSet, Signature};
use core_terms::{Items, Pat, copy_name};
use std::alloc::Global;
use surface_syntax::{SurfPat, Word};

/// How many patterns there are.
#[tactic(auto, using(crate::proofs::Counts::count_written))]
fn count(pats: &[SurfPat]) -> usize
    ensures { result ≡ spec.count (surf.pats (map written.pat_of pats.now)) }
{
    pats.len()
}

/// Adds the name where, with so many arguments, it is a variable.
fn add_variable(
    sig: &Signature,
    arguments: usize,
    x: &Word,
    names: &mut Variables,
) -> Result<(), ResolveStop>
    ensures names { OnOk result (names.new ≡ names.old ++ spec.variable arguments x.now (spec.constructor sig.now x.now.text)) }
    ensures memory { OnErr result (result ≡ Err Memory) }
{
    if find_constructor(sig, &x.text).is_none() && arguments == 0 {
        names.push(&x.text)?;
    }
    Ok(())
}

/// Adds the variables that the pattern binds, in source order.
#[cycle(variables)]
fn add_variables_of(
    sig: &Signature,
    pat: &SurfPat,
    names: &mut Variables,
) -> Result<(), ResolveStop>
    ensures names { OnOk result (names.new ≡ names.old ++ spec.bound sig.now (written.pat_of pat.now)) }
    ensures memory { OnErr result (result ≡ Err Memory) }
{
    match pat {
        SurfPat::Named(x) => add_variable(sig, 0, x, names),
        SurfPat::Con(x, args) => {
            add_variable(sig, count(args.as_slice()), x, names)?;
            add_variables(sig, args.as_slice(), names)
        }
        SurfPat::Wild => Ok(()),
        SurfPat::Dot(_) => Ok(()),
        SurfPat::Absurd => Ok(()),
    }
}

/// Adds the variables that the patterns bind, in source order.
#[cycle(variables)]
pub(crate) fn add_variables(
    sig: &Signature,
    pats: &[SurfPat],
    names: &mut Variables,
) -> Result<(), ResolveStop>
    ensures names { OnOk result (names.new ≡ names.old ++ spec.bound_all sig.now (surf.pats (map written.pat_of pats.now))) }
    ensures memory { OnErr result (result ≡ Err Memory) }
{
    for pat in pats {
        add_variables_of(sig, pat, names)?;
    }
    Ok(())
}

/// The constructor that a name with so many arguments is, or `None` where it is a variable, which is added to those
/// before it.
fn head(
    alloc: Global,
    sig: &Signature,
    arguments: usize,
    before: &mut NameSet,
    x: &Word,
) -> Result<Option<Constructor>, ResolveStop>
    ensures head { Gives (option_map constructor_of) result (spec.head arguments before.old x.now (spec.constructor sig.now x.now.text)) }
    ensures before { OnOk result (before.new ≡ before.old ++ spec.variable arguments x.now (spec.constructor sig.now x.now.text)) }
{
    if let Some(found) = find_constructor(sig, &x.text) {
        if found.arguments == arguments {
            return Ok(Some(found));
        }
        return Err(ResolveStop::WrongArity(x.start, copy_name(alloc, &x.text)?));
    }
    if arguments > 0 {
        return Err(ResolveStop::UnknownName(x.start, copy_name(alloc, &x.text)?));
    }
    if before.insert(&x.text)? {
        Ok(None)
    } else {
        Err(ResolveStop::NotLinear(x.start, copy_name(alloc, &x.text)?))
    }
}

/// The constructor with its arguments, or a variable.
fn headed(found: Option<Constructor>, args: Items<Pat>) -> Pat
    ensures { pat_of result ≡ spec.headed (option_map constructor_of found) (pats_of args) }
{
    match found {
        Some(c) => Pat::Con(c.family, c.number, args),
        None => Pat::Bind,
    }
}

/// The pattern that a written pattern stands for. Its variables are added to those before it; the scope has all of the
/// clause.
#[cycle(pattern)]
fn pattern(
    alloc: Global,
    known: &Symbols,
    scope: &Scope,
    before: &mut NameSet,
    pat: &SurfPat,
) -> Result<Pat, ResolveStop>
    ensures pattern { Gives pat_of result (spec.pattern known.now.sig.now (known_of known.now) (names_of scope.now) before.old (written.pat_of pat.now)) }
    ensures before { OnOk result (before.new ≡ before.old ++ spec.bound known.now.sig.now (written.pat_of pat.now)) }
{
    match pat {
        SurfPat::Named(x) => {
            let found = head(alloc, known.sig, 0, before, x)?;
            Ok(headed(found, Items::new(alloc)))
        }
        SurfPat::Con(x, args) => {
            let found = head(alloc, known.sig, count(args.as_slice()), before, x)?;
            let args = patterns(alloc, known, scope, before, args.as_slice())?;
            Ok(headed(found, args))
        }
        SurfPat::Wild => Ok(Pat::Wild),
        SurfPat::Dot(t) => Ok(Pat::Dot(resolve(alloc, known, t, scope)?.term)),
        SurfPat::Absurd => Ok(Pat::Absurd),
    }
}

/// The patterns that written patterns stand for.
#[cycle(pattern)]
pub(crate) fn patterns(
    alloc: Global,
    known: &Symbols,
    scope: &Scope,
    before: &mut NameSet,
    pats: &[SurfPat],
) -> Result<Items<Pat>, ResolveStop>
    ensures patterns { Gives pats_of result (spec.patterns known.now.sig.now (known_of known.now) (names_of scope.now) before.old (surf.pats (map written.pat_of pats.now))) }
    ensures before { OnOk result (before.new ≡ before.old ++ spec.bound_all known.now.sig.now (surf.pats (map written.pat_of pats.now))) }
{
    let mut resolved = Items::new(alloc);
    for pat in pats {
        resolved.push(pattern(alloc, known, scope, before, pat)?)?;
    }
    Ok(resolved)
}
