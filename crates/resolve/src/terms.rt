ghost use Rattle.std.specs.Prelude.{◌≡◌, Ok, map, length, IfOk};
ghost use Rattle.theory.specs.Terms as tree;
ghost use Rattle.core_terms.specs.Meanings.{tree_of};
ghost use Rattle.surface_syntax.specs.Trees as surf;
ghost use Rattle.surface_syntax.specs.TreeMeanings.{surf_of, binder_of};
ghost use Rattle.resolve.specs.Answers.{Gives};
ghost use Rattle.resolve.specs.Binding.{IsBound, closed};
ghost use Rattle.core_terms.specs.Low.{low_of};
ghost use Rattle.resolve.specs.Forms.{former};
ghost use Rattle.resolve.specs.Names.{named};
ghost use Rattle.resolve.specs.Resolving as spec;
ghost use Rattle.resolve.specs.Scoping.{IsResolved};
ghost use Rattle.resolve.specs.Scopes.{names_of, known_of};

use crate::ResolveStop;
use crate::binders::Binders;
use crate::forming::{Form, application, binding, local};
use crate::scope::Scope;
use crate::symbols::{Own, Symbols};
use crate::variables::named_variables;
use core_sig::Signature;
use core_terms::{Items, Low, Name, Term, copy_name};
use std::alloc::Global;
use surface_syntax::{Binder, Surf, Word};

/// The term that a written term stands for, under names that are listed from the outermost on.
pub fn resolve_term(
    alloc: Global,
    sig: &Signature,
    scope: &Items<Name>,
    t: &Surf,
) -> Result<Term, ResolveStop>
    ensures answer { Gives tree_of result (spec.resolve_term sig.now scope.now (surf_of t.now)) }
    ensures scoped { IfOk result (λ t. IsResolved sig.now (length scope.now) (tree_of t)) }
{
    let known = Symbols {
        sig,
        own: Own::Unnamed,
    };
    let variables = named_variables(alloc, scope.as_slice())?;
    let low = resolve(alloc, &known, t, &Scope::Given(&variables))?;
    Ok(low.term)
}

/// The term that a written term stands for.
#[cycle(resolve)]
pub(crate) fn resolve(
    alloc: Global,
    known: &Symbols,
    t: &Surf,
    scope: &Scope,
) -> Result<Low, ResolveStop>
    ensures { Gives low_of result (spec.resolve (known_of known.now) (surf_of t.now) (names_of scope.now)) }
{
    match t {
        Surf::Lam(binders, body) => telescope(alloc, known, Form::Lam, binders, body, scope),
        Surf::Pi(binders, body) => telescope(alloc, known, Form::Pi, binders, body, scope),
        Surf::Arrow(a, b) => {
            let domain = resolve(alloc, known, a, scope)?;
            let codomain = resolve(alloc, known, b, &Scope::Under(None, &*scope))?;
            binding(alloc, Form::Pi, domain, codomain)
        }
        Surf::App(f, args) => {
            let f = resolve(alloc, known, f, scope)?;
            applied(alloc, known, f, args.as_slice(), &*scope)
        }
        Surf::Let(x, ty, value, body) => {
            let ty = resolve(alloc, known, ty, scope)?;
            let value = resolve(alloc, known, value, scope)?;
            let body = resolve(alloc, known, body, &Scope::Under(Some(&x.text), &*scope))?;
            local(alloc, ty, value, body)
        }
        Surf::Sort(i) => Ok(Low::leaf(Term::Sort(*i))),
        Surf::Named(x) => named(alloc, known, x, scope),
    }
}

/// `f` applied to the arguments one by one.
#[cycle(resolve)]
fn applied(
    alloc: Global,
    known: &Symbols,
    f: Low,
    args: &[Surf],
    scope: &Scope,
) -> Result<Low, ResolveStop>
    ensures { Gives low_of result (spec.applied (known_of known.now) (surf.surfs (map surf_of args.now)) (names_of scope.now) (low_of f)) }
{
    let mut made = f;
    for arg in args {
        made = application(alloc, made, resolve(alloc, known, arg, scope)?)?;
    }
    Ok(made)
}

/// The body under the binders of a telescope.
#[cycle(resolve)]
fn telescope(
    alloc: Global,
    known: &Symbols,
    form: Form,
    binders: &Items<Binder>,
    body: &Surf,
    scope: &Scope,
) -> Result<Low, ResolveStop>
    ensures { Gives low_of result (spec.telescope (known_of known.now) (former form) (surf.binders (map binder_of binders.now)) (spec.resolve (known_of known.now) (surf_of body.now)) (names_of scope.now)) }
{
    let mut under = Binders::new(alloc);
    let mut types = Vec::new(alloc);
    for binder in binders.as_slice() {
        group(alloc, known, form, binder, scope, &mut under, &mut types)?;
    }
    let inner = resolve(alloc, known, body, &Scope::Behind(&under, &*scope))?;
    bind(alloc, form, types, inner)
}

/// Adds the names of a binder to those before it, and for each of them its type.
#[cycle(resolve)]
fn group(
    alloc: Global,
    known: &Symbols,
    form: Form,
    binder: &Binder,
    scope: &Scope,
    under: &mut Binders,
    types: &mut Vec<Low>,
) -> Result<(), ResolveStop>
    ensures { IsBound (former form) (spec.group (former form) binder.now.names (spec.resolve (known_of known.now) (surf_of binder.now.ty))) (names_of scope.now) (map low_of types.old.items) under.old (map low_of types.new.items) under.new result }
{
    for x in binder.names.as_slice() {
        let ty = resolve(alloc, known, &binder.ty, &Scope::Behind(&*under, &*scope))?;
        types.push(ty)?;
        under.push(x)?;
    }
    Ok(())
}

/// The products or the functions of the types, the last of which is bound nearest to what is under them.
fn bind(alloc: Global, form: Form, types: Vec<Low>, inner: Low) -> Result<Low, ResolveStop>
    ensures { Gives low_of result (closed (former form) (map low_of types.items) (Ok (low_of inner))) }
{
    let mut types = types;
    let mut made = inner;
    while let Some(ty) = types.pop() {
        made = binding(alloc, form, ty, made)?;
    }
    Ok(made)
}

/// The variable that has the name, or what else it stands for.
fn named(alloc: Global, known: &Symbols, x: &Word, scope: &Scope) -> Result<Low, ResolveStop>
    ensures { Gives low_of result (named (known_of known.now) (names_of scope.now) x.now) }
{
    if let Some(n) = scope.variable(x.text.as_slice())? {
        return Ok(Low::leaf(Term::Var(n)));
    }
    match known.find(x.text.as_slice()) {
        Some(symbol) => Ok(Low::leaf(symbol)),
        None => Err(ResolveStop::UnknownName(x.start, copy_name(alloc, &x.text)?)),
    }
}
