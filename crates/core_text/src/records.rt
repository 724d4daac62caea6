ghost use Rattle.std.specs.Prelude.{◌≡◌, ◌<◌, ◌+◌, ◌++◌, ◌^◌, ℕ, true, false, map, length, All, IfOk, IfErr, OnOk, OnErr};
ghost use Rattle.std.specs.List.{list_all};
ghost use Rattle.theory.specs.Telescopes.{applied};
ghost use Rattle.theory.specs.Terms as tree;
ghost use Rattle.core_terms.specs.Meanings.{tree_of, tele_of};
ghost use Rattle.core_terms.specs.Telescopes.{domains_of, end_of};
ghost use Rattle.core_sig.specs.KindTests.{is_at_parameters, is_variable};
ghost use Rattle.core_sig.specs.Kinds.{HasKind, HasKinds, HaveKinds};
ghost use Rattle.core_sig.specs.Meanings.{family_of};
ghost use Rattle.core_sig.specs.Raw.{raw_constructor_of, raw_of};
ghost use Rattle.core_sig.specs.declared.family.ArgKind.TheVariants.{Plain};
ghost use Rattle.core_text.specs.RawEntries as spec;
ghost use Rattle.core_text.specs.Records.{HasLevelsZero, with_level_zero, constructor_shown, typed};
ghost use Rattle.core_terms.specs.Answers.{Unless};
ghost use Rattle.core_text.specs.Reading.{IsUnforeseen};
ghost use Rattle.core_text.specs.declared.halt.Halt.TheVariants.{Memory, Wrong};

use crate::halt::Halt;
use core_sig::{Arg, ArgKind, Constructor, Family, RawCon, RawFamily, kind_of};
use core_terms::{Items, MAX_HEIGHT, TOP, Term};
use std::alloc::Global;

/// The level of the sort in which the type ends, where a family may have it.
fn end_level(ty: &Term) -> Option<u8>
    ensures { result ≡ spec.end_level (tree_of ty.now) }
{
    match ty {
        Term::Pi(_, codomain) => end_level(codomain),
        Term::Sort(level) => (*level < TOP).then_some(*level),
        _ => None,
    }
}

fn is_variable(t: &Term, number: u32) -> bool
    ensures { result ≡ is_variable number (tree_of t.now) }
{
    match t {
        Term::Var(n) => *n == number,
        _ => false,
    }
}

/// Whether the term is the family at `count` variables, the last of which is variable `at`.
fn is_at_parameters(family: u32, count: u32, at: u32, t: &Term) -> bool
    requires { at + count < 2 ^ 32 }
    ensures { result ≡ is_at_parameters family count at (tree_of t.now) }
{
    match t {
        Term::Fam(f) => count == 0 && *f == family,
        Term::App(function, argument) => {
            count > 0
                && is_variable(argument, at)
                && is_at_parameters(family, count - 1, at + 1, function)
        }
        _ => false,
    }
}

/// Whether the term is the family at its parameters, after `at` binders, and at `targets` terms more.
fn is_at_targets(family: u32, params: u32, targets: usize, at: u32, t: &Term) -> bool
    requires { at + params < 2 ^ 32 }
    ensures { result ≡ spec.is_at_targets family params targets at (tree_of t.now) }
{
    if targets == 0 {
        return is_at_parameters(family, params, at, t);
    }
    match t {
        Term::App(function, _) => is_at_targets(family, params, targets - 1, at, function),
        _ => false,
    }
}

/// Whether the type is products, after `at` others, that end in the family at its parameters and at `targets` terms.
fn ends_in_family(family: u32, params: u32, targets: usize, at: u32, ty: &Term) -> bool
    requires { at + params + tree.height (tree_of ty.now) < 2 ^ 32 }
    ensures { result ≡ spec.ends_in_family family params targets at (tree_of ty.now) }
{
    match ty {
        Term::Pi(_, codomain) => ends_in_family(family, params, targets, at + 1, codomain),
        end => is_at_targets(family, params, targets, at, end),
    }
}

/// Whether the constructor's type ends in the family, or Memory where its height or a place has too large a number.
fn shows_constructor(family: u32, f: &Family, con: &RawCon) -> Result<bool, Halt>
    ensures ok { IfOk result (λ b. b ≡ spec.ends_in_family family (length f.now.params) (length f.now.indices) 0 (tree_of con.now.ty)) }
    ensures memory { OnErr result (result ≡ Err Memory) }
{
    let params = f.params.as_slice().len();
    if params > 4_000_000_000 || con.ty.height() > MAX_HEIGHT {
        return Err(Halt::Memory);
    }
    let targets = f.indices.as_slice().len();
    Ok(ends_in_family(family, params as u32, targets, 0, &con.ty))
}

/// Whether the types of all constructors end in the family.
fn show_constructors(family: u32, f: &Family, cons: &[RawCon]) -> Result<bool, Halt>
    ensures ok { IfOk result (λ b. b ≡ list_all (λ c. spec.ends_in_family family (length f.now.params) (length f.now.indices) 0 c.type) (map raw_constructor_of cons.now)) }
    ensures memory { OnErr result (result ≡ Err Memory) }
{
    for con in cons {
        if !shows_constructor(family, f, con)? {
            return Ok(false);
        }
    }
    Ok(true)
}

/// Adds the domains of the leading products of the term as indices, with levels 0.
fn index_types(indices: &mut Items<Arg>, t: Term) -> Result<(), Halt>
    ensures types { OnOk result (map typed indices.new ≡ map typed indices.old ++ map with_level_zero (domains_of (tree_of t))) }
    ensures kinds { OnOk result (All (λ a. a.kind ≡ Plain) indices.old → All (λ a. a.kind ≡ Plain) indices.new) }
    ensures memory { OnErr result (result ≡ Err Memory) }
{
    match t {
        Term::Pi(domain, codomain) => {
            indices.push(Arg {
                ty: Box::into_inner(domain),
                level: 0,
                kind: ArgKind::Plain,
            })?;
            index_types(indices, Box::into_inner(codomain))
        }
        _ => Ok(()),
    }
}

/// The kind of an argument, or Memory where its place or its height has too large a number.
fn kind(family: u32, f: &Family, at: usize, ty: &Term) -> Result<ArgKind, Halt>
    ensures ok { IfOk result (λ k. HasKind family (family_of f.now) at k (tree_of ty.now)) }
    ensures memory { OnErr result (result ≡ Err Memory) }
{
    let few = at <= 100_000_000 && f.params.as_slice().len() <= 4_000_000_000;
    if !few || ty.height() > MAX_HEIGHT {
        return Err(Halt::Memory);
    }
    Ok(kind_of(family, f, at as u32, ty))
}

/// Adds the domains of the leading products of the term as arguments, with levels 0, and answers the term after them.
fn arguments(family: u32, f: &Family, args: &mut Items<Arg>, t: Term) -> Result<Term, Halt>
    ensures types { OnOk result (map typed args.new ≡ map typed args.old ++ map with_level_zero (domains_of (tree_of t))) }
    ensures kinds { OnOk result (HaveKinds family (family_of f.now) 0 args.old → HaveKinds family (family_of f.now) 0 args.new) }
    ensures end { IfOk result (λ end. tree_of end ≡ end_of (tree_of t)) }
    ensures memory { OnErr result (result ≡ Err Memory) }
{
    match t {
        Term::Pi(domain, codomain) => {
            let ty = Box::into_inner(domain);
            let kind = kind(family, f, args.as_slice().len(), &ty)?;
            args.push(Arg { ty, level: 0, kind })?;
            arguments(family, f, args, Box::into_inner(codomain))
        }
        end => Ok(end),
    }
}

/// The last `count` arguments, and the term that is applied to them.
fn split_targets(alloc: Global, t: Term, count: usize) -> Result<(Term, Vec<Term>), Halt>
    ensures whole { IfOk result (λ p. applied (tree_of p.0) (tele_of p.1.items) ≡ tree_of t) }
    ensures head { IfOk result (λ p. (n k at : ℕ) → spec.is_at_targets n k count at (tree_of t) ≡ true → is_at_parameters n k at (tree_of p.0) ≡ true) }
    ensures memory { OnErr result (result ≡ Err Memory) }
{
    if count == 0 {
        return Ok((t, Vec::new(alloc)));
    }
    match t {
        Term::App(function, argument) => {
            let (head, mut targets) = split_targets(alloc, Box::into_inner(function), count - 1)?;
            targets.push(Box::into_inner(argument))?;
            Ok((head, targets))
        }
        other => Ok((other, Vec::new(alloc))),
    }
}

/// A constructor with levels 0.
fn constructor(alloc: Global, family: u32, f: &Family, raw: RawCon) -> Result<Constructor, Halt>
    ensures shown { IfOk result (λ c. spec.ends_in_family family (length f.now.params) (length f.now.indices) 0 (tree_of raw.ty) ≡ true → constructor_shown family (length f.now.params) c ≡ raw_constructor_of raw) }
    ensures kinds { IfOk result (λ c. HaveKinds family (family_of f.now) 0 c.args) }
    ensures levels { IfOk result (λ c. All (λ a. a.level ≡ 0) c.args) }
    ensures memory { OnErr result (result ≡ Err Memory) }
{
    let RawCon { name, ty } = raw;
    let mut args = Items::new(alloc);
    let end = arguments(family, f, &mut args, ty)?;
    let (_head, targets) = split_targets(alloc, end, f.indices.as_slice().len())?;
    let targets = Items::from_vec(targets);
    Ok(Constructor {
        name,
        args,
        targets,
    })
}

/// The constructors with levels 0.
fn constructors(
    alloc: Global,
    family: u32,
    f: &Family,
    raw: Items<RawCon>,
) -> Result<Items<Constructor>, Halt>
    ensures shown { IfOk result (λ cons. list_all (λ c. spec.ends_in_family family (length f.now.params) (length f.now.indices) 0 c.type) (map raw_constructor_of raw) ≡ true → map (constructor_shown family (length f.now.params)) cons ≡ map raw_constructor_of raw) }
    ensures kinds { IfOk result (All (λ c. HaveKinds family (family_of f.now) 0 c.args)) }
    ensures levels { IfOk result (All (λ c. All (λ a. a.level ≡ 0) c.args)) }
    ensures memory { OnErr result (result ≡ Err Memory) }
{
    let mut cons = Items::new(alloc);
    for con in raw.into_vec() {
        cons.push(constructor(alloc, family, f, con)?)?;
    }
    Ok(cons)
}

/// The family that the line of family number `n` shows, or the place where the line begins, by the bytes left there.
pub(crate) fn family_record(
    alloc: Global,
    n: u32,
    raw: RawFamily,
    line: usize,
) -> Result<Family, Halt>
    ensures is_shown { IfOk result (λ f. spec.shows_record n (raw_of raw) ≡ true) }
    ensures shown { IfOk result (λ f. spec.family_shown n (family_of f) ≡ raw_of raw) }
    ensures kinds { IfOk result (HasKinds n) }
    ensures levels { IfOk result (λ f. HasLevelsZero (family_of f)) }
    ensures err { IfErr result (λ e. Unless (IsUnforeseen e) ((e ≡ Wrong line) × (spec.shows_record n (raw_of raw) ≡ false))) }
{
    let RawFamily {
        name,
        params,
        ty,
        cons,
    } = raw;
    let Some(level) = end_level(&ty) else {
        return Err(Halt::Wrong(line));
    };
    let mut indices = Items::new(alloc);
    index_types(&mut indices, ty)?;
    let bare = Family {
        name,
        params,
        indices,
        level,
        cons: Items::new(alloc),
    };
    if !show_constructors(n, &bare, cons.as_slice())? {
        return Err(Halt::Wrong(line));
    }
    let cons = constructors(alloc, n, &bare, cons)?;
    Ok(with_constructors(bare, cons))
}

/// The family with these constructors in place of its own.
fn with_constructors(f: Family, cons: Items<Constructor>) -> Family
    ensures name { result.name ≡ f.name }
    ensures params { result.params ≡ f.params }
    ensures indices { result.indices ≡ f.indices }
    ensures level { result.level ≡ f.level }
    ensures cons { result.cons ≡ cons }
{
    Family {
        name: f.name,
        params: f.params,
        indices: f.indices,
        level: f.level,
        cons,
    }
}
