ghost use Rattle.std.specs.Prelude.{◌≡◌, ◌≤◌, ◌<◌, ◌+◌, ◌^◌, ◌++◌, length, map, min, IfOk, IfErr, OnOk, OnErr};
ghost use Rattle.theory.specs.Spines.{head_of, spine_of};
ghost use Rattle.theory.specs.Telescopes as spec;
ghost use Rattle.core_terms.specs.Answers.{Gives, bounded};
ghost use Rattle.core_terms.specs.Bounds.{most_height};
ghost use Rattle.core_terms.specs.Meanings.{tree_of, tele_of};
ghost use Rattle.core_terms.specs.Telescopes.{domains_of, end_of};
ghost use Rattle.core_terms.specs.declared.stop.Stop.TheVariants.{Deep, Memory};

use crate::{MAX_HEIGHT, Stop, Term};
use std::alloc::Global;

/// A number of binders or of arguments, or Deep where a term with so many is too high.
pub fn few(len: usize) -> Result<u32, Stop>
    ensures ok { IfOk result (λ n. (n ≡ len) × (len ≤ most_height)) }
    ensures deep { IfErr result (λ e. (e ≡ Deep) × (2000 < len)) }
{
    if len > MAX_HEIGHT as usize {
        return Err(Stop::Deep);
    }
    Ok(len as u32)
}

/// The term itself, or Deep.
pub fn checked(t: Term) -> Result<Term, Stop>
    ensures { Gives tree_of result (bounded (tree_of t)) }
{
    if t.height() > MAX_HEIGHT {
        return Err(Stop::Deep);
    }
    Ok(t)
}

/// The product of `body` over the telescope. Its height is not tested.
pub fn products(alloc: Global, mut tele: Vec<Term>, body: Term) -> Result<Term, Stop>
    ensures { Gives tree_of result (Ok (spec.products (tele_of tele.items) (tree_of body))) }
{
    let mut whole = body;
    while let Some(ty) = tele.pop() {
        whole = Term::new_pi(alloc, ty, whole)?;
    }
    Ok(whole)
}

/// The function with `body` over the telescope. Its height is not tested.
pub fn functions(alloc: Global, mut tele: Vec<Term>, body: Term) -> Result<Term, Stop>
    ensures { Gives tree_of result (Ok (spec.functions (tele_of tele.items) (tree_of body))) }
{
    let mut whole = body;
    while let Some(ty) = tele.pop() {
        whole = Term::new_lam(alloc, ty, whole)?;
    }
    Ok(whole)
}

/// Adds the domains of the leading products of the term to the types, and answers the term after them.
pub fn split_products(types: &mut Vec<Term>, t: Term) -> Result<Term, Stop>
    ensures domains { OnOk result (tele_of types.new.items ≡ tele_of types.old.items ++ domains_of (tree_of t)) }
    ensures end { IfOk result (λ end. tree_of end ≡ end_of (tree_of t)) }
    ensures memory { OnErr result (result ≡ Err Memory) }
{
    match t {
        Term::Pi(domain, codomain) => {
            types.push(Box::into_inner(domain))?;
            split_products(types, Box::into_inner(codomain))
        }
        end => Ok(end),
    }
}

/// `head` applied to the arguments; nothing tests the height.
pub fn applied(alloc: Global, head: Term, spine: Vec<Term>) -> Result<Term, Stop>
    ensures { Gives tree_of result (Ok (spec.applied (tree_of head) (tele_of spine.items))) }
{
    let mut whole = head;
    for arg in spine {
        whole = Term::new_app(alloc, whole, arg)?;
    }
    Ok(whole)
}

/// `head` applied to `count` variables, the last of which is numbered `from`.
pub fn applied_to_variables(alloc: Global, head: Term, from: u32, count: u32) -> Result<Term, Stop>
    requires { from + count < 2 ^ 32 }
    ensures { Gives tree_of result (Ok (spec.applied (tree_of head) (map (spec.weaken_by from) (spec.variables count)))) }
{
    let mut whole = head;
    for at in (0..count).rev() {
        whole = Term::new_app(alloc, whole, Term::Var(from + at))?;
    }
    Ok(whole)
}

/// `head` applied to the nearest `count` variables, the outermost one first.
#[tactic(auto, using(crate::proofs::Builders::variable_laws))]
pub fn applied_to_nearest(alloc: Global, head: Term, count: u32) -> Result<Term, Stop>
    ensures { Gives tree_of result (Ok (spec.applied (tree_of head) (spec.variables count))) }
{
    applied_to_variables(alloc, head, 0, count)
}

/// The arguments of a term's head, the first one first.
pub fn into_spine(alloc: Global, t: Term) -> Result<Vec<Term>, Stop>
    ensures { Gives (λ v. tele_of v.items) result (Ok (spine_of (tree_of t))) }
{
    match t {
        Term::App(f, a) => {
            let mut spine = into_spine(alloc, Box::into_inner(f))?;
            spine.push(Box::into_inner(a))?;
            Ok(spine)
        }
        _ => Ok(Vec::new(alloc)),
    }
}

/// The head of a term, which is applied to its arguments.
pub fn head(t: &Term) -> &Term
    ensures { tree_of result.now ≡ head_of (tree_of t.now) }
{
    match t {
        Term::App(f, _) => head(f),
        _ => t,
    }
}

/// How many arguments the head is applied to, or 2,001 if there are more than 2,000.
#[tactic(auto, using(crate::proofs::Builders::length_snoc))]
pub fn spine_len(t: &Term) -> u32
    ensures { result ≡ min (length (spine_of (tree_of t.now))) 2001 }
{
    match t {
        Term::App(f, _) => (spine_len(f) + 1).min(2001),
        _ => 0,
    }
}
