ghost use Rattle.std.specs.Prelude.{◌≡◌, ◌<◌, ◌≤◌, ◌+◌, ◌^◌, [], map, length, Some, Ok, IfOk};
ghost use Rattle.theory.specs.Signatures.{Signature, IsPrefix};
ghost use Rattle.theory.specs.SignatureScopes.{IsConstantNumber};
ghost use Rattle.theory.specs.Terms as tree;
ghost use Rattle.core_terms.specs.Answers.{and_then};
ghost use Rattle.core_terms.specs.Bounds.{most_height};
ghost use Rattle.core_terms.specs.Clauses as core;
ghost use Rattle.core_terms.specs.Meanings.{tree_of};
ghost use Rattle.core_terms.specs.PatternMeanings.{clause_of, clauses_of, right_of};
ghost use Rattle.surface_syntax.specs.Trees as surf;
ghost use Rattle.surface_syntax.specs.TreeMeanings as written;
ghost use Rattle.surface_syntax.specs.TreeMeanings.{surf_of, decl_of};
ghost use Rattle.resolve.specs.Answers.{Gives};
ghost use Rattle.resolve.specs.DeclaredNames.{IsNewName, declared_word};
ghost use Rattle.resolve.specs.Functions as spec;
ghost use Rattle.resolve.specs.Names.{scope_of};
ghost use Rattle.resolve.specs.Patterns as pattern;
ghost use Rattle.resolve.specs.PatternMeanings.{fun_of};
ghost use Rattle.resolve.specs.Scoping.{IsResolvedFunction};
ghost use Rattle.resolve.specs.Scopes.{names_of, known_of};

use crate::names::declare;
use crate::patterns::{add_variables, patterns};
use crate::scope::Scope;
use crate::symbols::{Own, Symbols};
use crate::terms::resolve;
use crate::variables::Variables;
use crate::{FunCore, ResolveStop};
use core_sig::{NameSet, Signature};
use core_terms::{Clause, Items, Name, Right, Term, copy_name, number_of};
use std::alloc::Global;
use surface_syntax::{Decl, Surf, SurfClause, SurfPat, SurfRight, Word};

/// The function that a declaration of a function stands for.
pub fn resolve_fun(alloc: Global, sig: &Signature, d: &Decl) -> Result<FunCore, ResolveStop>
    requires { spec.IsFun (decl_of d.now) }
    ensures answer { Gives fun_of result (spec.resolve_fun sig.now (decl_of d.now)) }
    ensures named { IfOk result (λ f. IsNewName sig.now (declared_word (decl_of d.now)) f.name) }
    ensures scoped { (T : Signature) → IsPrefix sig.now T → IsConstantNumber T (length sig.now.entries) → IfOk result (λ f. IsResolvedFunction sig.now T (fun_of f)) }
{
    match d {
        Decl::Fun { name, ty, clauses } => function(alloc, sig, name, ty, clauses.as_slice()),
        _ => unreachable!(),
    }
}

fn function<'a>(
    alloc: Global,
    sig: &'a Signature,
    x: &'a Word,
    ty: &Surf,
    list: &[SurfClause],
) -> Result<FunCore, ResolveStop>
    ensures { Gives fun_of result (spec.function sig.now x.now (surf_of ty.now) (surf.clauses (map written.clause_of list.now))) }
{
    let mut declared = NameSet::new(alloc);
    let name = declare(alloc, sig, &mut declared, x)?;
    let unnamed = Symbols {
        sig,
        own: Own::Unnamed,
    };
    let ty = resolve(alloc, &unnamed, ty, &Scope::Given(&Variables::new(alloc)))?;
    let arity = arity_of(&ty.term, list);
    let known = Symbols {
        sig,
        own: Own::Function(&x.text),
    };
    let allowed = allowed_by(&ty.term, arity);
    let clauses = clauses(alloc, &known, &x.text, allowed, list)?;
    Ok(FunCore {
        name,
        ty: ty.term,
        arity: number_of(arity)?,
        clauses,
    })
}

/// How many products the type begins with.
fn product_count(ty: &Term) -> usize
    requires { tree.height (tree_of ty.now) ≤ most_height }
    ensures count { result ≡ spec.product_count (tree_of ty.now) }
    ensures bound { result < tree.height (tree_of ty.now) }
{
    match ty {
        Term::Pi(_, codomain) => 1 + product_count(codomain),
        _ => 0,
    }
}

/// The number of patterns of the first clause, or without clauses that of the products of the type.
fn arity_of(ty: &Term, list: &[SurfClause]) -> usize
    requires { tree.height (tree_of ty.now) ≤ most_height }
    ensures { result ≡ spec.arity_of (tree_of ty.now) (surf.clauses (map written.clause_of list.now)) }
{
    match list.first() {
        Some(clause) => clause.pats.as_slice().len(),
        None => product_count(ty),
    }
}

/// The number of patterns of each clause, or `None` where the type has too few products.
fn allowed_by(ty: &Term, arity: usize) -> Option<usize>
    requires { tree.height (tree_of ty.now) ≤ most_height }
    ensures { result ≡ spec.allowed_by (tree_of ty.now) arity }
{
    (arity <= product_count(ty)).then_some(arity)
}

/// Refuses a clause that is not headed by the function, or that has another number of patterns.
fn check_head(
    alloc: Global,
    own: &Name,
    allowed: Option<usize>,
    patterns: usize,
    x: &Word,
) -> Result<usize, ResolveStop>
    ensures head { Gives (λ n. n) result (spec.clause_head own.now allowed patterns x.now) }
    ensures same { IfOk result (λ n. n ≡ patterns) }
{
    if own.as_slice() != x.text.as_slice() {
        return Err(ResolveStop::UnknownName(x.start, copy_name(alloc, &x.text)?));
    }
    if allowed == Some(patterns) {
        Ok(patterns)
    } else {
        Err(ResolveStop::WrongArity(x.start, copy_name(alloc, &x.text)?))
    }
}

/// The clause that a written clause stands for.
#[cycle(clause)]
fn clause(
    alloc: Global,
    known: &Symbols,
    own: &Name,
    allowed: Option<usize>,
    given: &SurfClause,
) -> Result<Clause, ResolveStop>
    ensures { Gives clause_of result (spec.clause known.now.sig.now (known_of known.now) own.now allowed (written.clause_of given.now)) }
{
    let pats = given.pats.as_slice();
    let count = check_head(alloc, own, allowed, pats.len(), &given.head)?;
    let mut names = Variables::new(alloc);
    add_variables(known.sig, pats, &mut names)?;
    clause_over(alloc, known, own, &names, count, pats, &given.right)
}

/// The clause with the variables, so many patterns and the right side.
#[cycle(clause)]
fn clause_over(
    alloc: Global,
    known: &Symbols,
    own: &Name,
    names: &Variables,
    count: usize,
    pats: &[SurfPat],
    right: &SurfRight,
) -> Result<Clause, ResolveStop>
    requires { count + 1 < 2 ^ 64 }
    ensures { Gives clause_of result (and_then (pattern.patterns known.now.sig.now (known_of known.now) (scope_of names.now) [] (surf.pats (map written.pat_of pats.now))) (λ qs. and_then (spec.right_side known.now.sig.now (known_of known.now) own.now (scope_of names.now) count (written.right_of right.now)) (λ r. Ok (core.Is qs (length names.now) r)))) }
{
    let binds = number_of(names.len())?;
    let scope = Scope::Given(names);
    let mut before = NameSet::new(alloc);
    let pats = patterns(alloc, known, &scope, &mut before, pats)?;
    let right = right_side(alloc, known, own, &scope, count, right)?;
    Ok(Clause { pats, binds, right })
}

/// The right side after so many patterns.
#[cycle(clause)]
fn right_side(
    alloc: Global,
    known: &Symbols,
    own: &Name,
    scope: &Scope,
    patterns: usize,
    right: &SurfRight,
) -> Result<Right, ResolveStop>
    requires { patterns + 1 < 2 ^ 64 }
    ensures { Gives right_of result (spec.right_side known.now.sig.now (known_of known.now) own.now (names_of scope.now) patterns (written.right_of right.now)) }
{
    match right {
        SurfRight::Side(t) => Ok(Right::Side(resolve(alloc, known, t, scope)?.term)),
        SurfRight::With(t, list) => {
            let scrutinee = resolve(alloc, known, t, scope)?;
            let allowed = Some(patterns + 1);
            let inner = clauses(alloc, known, own, allowed, list.as_slice())?;
            Ok(Right::With(scrutinee.term, inner))
        }
        SurfRight::Absurd => Ok(Right::Absurd),
    }
}

/// The clauses that written clauses stand for.
#[cycle(clause)]
fn clauses(
    alloc: Global,
    known: &Symbols,
    own: &Name,
    allowed: Option<usize>,
    list: &[SurfClause],
) -> Result<Items<Clause>, ResolveStop>
    ensures { Gives clauses_of result (spec.clauses known.now.sig.now (known_of known.now) own.now allowed (surf.clauses (map written.clause_of list.now))) }
{
    let mut resolved = Items::new(alloc);
    for given in list {
        resolved.push(clause(alloc, known, own, allowed, given)?)?;
    }
    Ok(resolved)
}
