ghost use Rattle.std.specs.Prelude.{◌++◌, flat_map, option_map, IfOk, IfSome, Ok};
ghost use Rattle.core_terms.specs.Answers.{Gives};
ghost use Rattle.core_terms.specs.Meanings.{tree_of, tele_of};
ghost use Rattle.case_trees.specs.Problems as members;
ghost use Rattle.problems.specs.MemberMeanings.{member_meant};
ghost use Rattle.tele_eq.specs.Items.{AreSmallTerms, IsSmall};
ghost use Rattle.tree_translation.specs.structural_rec.Meanings.{admission_of};
ghost use Rattle.tree_translation.specs.structural_rec.Orders as orders;
ghost use Rattle.lex_recursion.specs.Following as spec;

use core_sig::Signature;
use core_terms::{Stop, Term};
use problems::{Member, member_of};
use std::alloc::Global;
use tele_eq::is_among;
use tree_translation::structural_rec::{
    Admission, admission_from, fixed_below, positions_of, small_term_at, unless_among,
};

/// The admission at position `k`, if it follows the first positions.
pub fn following(
    alloc: Global,
    sig: &Signature,
    tele: &[Term],
    first: &[u32],
    k: u32,
) -> Result<Option<Admission>, Stop>
    requires { AreSmallTerms (tele_of tele.now) }
    ensures { Gives (option_map admission_of) result (Ok (spec.following sig.now (tele_of tele.now) first.now k)) }
{
    if is_among(k, first) {
        return Ok(None);
    }
    match small_term_at(tele, k) {
        Some(ty) => following_of(alloc, sig, tele, first, k, ty),
        None => Ok(None),
    }
}

/// The admission with the type `ty` at position `k`.
fn following_of(
    alloc: Global,
    sig: &Signature,
    tele: &[Term],
    first: &[u32],
    k: u32,
    ty: &Term,
) -> Result<Option<Admission>, Stop>
    requires tele { AreSmallTerms (tele_of tele.now) }
    requires ty { IsSmall (tree_of ty.now) }
    ensures { Gives (option_map admission_of) result (Ok (spec.following_of sig.now (tele_of tele.now) first.now k (tree_of ty.now))) }
{
    match small_member(alloc, sig, ty)? {
        Some(m) => following_with(alloc, tele, first, k, &m),
        None => Ok(None),
    }
}

/// A small type as a family with all its parameters and indices. The parameters are small.
fn small_member<'a>(
    alloc: Global,
    sig: &'a Signature,
    ty: &Term,
) -> Result<Option<Member<'a>>, Stop>
    requires { IsSmall (tree_of ty.now) }
    ensures answer { Gives (option_map member_meant) result (Ok (members.member_of sig.now (tree_of ty.now))) }
    ensures small { IfOk result (λ found. IfSome found (λ m. AreSmallTerms (tele_of m.params))) }
{
    member_of(alloc, sig, ty)
}

/// The admission where the type is a family with these arguments.
fn following_with(
    alloc: Global,
    tele: &[Term],
    first: &[u32],
    k: u32,
    m: &Member,
) -> Result<Option<Admission>, Stop>
    requires tele { AreSmallTerms (tele_of tele.now) }
    requires params { AreSmallTerms (tele_of m.now.params) }
    ensures { Gives (option_map admission_of) result (Ok (spec.following_with (tele_of tele.now) first.now k (member_meant m.now))) }
{
    match positions_of(alloc, k, m.indices.as_slice())? {
        Some(indices) => {
            let fixed = with_fixed_behind(alloc, tele, first, k, m.params.as_slice())?;
            Ok(admission_from(tele, m.number, fixed, indices))
        }
        None => Ok(None),
    }
}

/// The first positions, and those of the rest that stay fixed.
fn with_fixed_behind(
    alloc: Global,
    tele: &[Term],
    first: &[u32],
    k: u32,
    params: &[Term],
) -> Result<Vec<u32>, Stop>
    requires tele { AreSmallTerms (tele_of tele.now) }
    requires params { AreSmallTerms (tele_of params.now) }
    ensures { Gives (λ v. v.items) result (Ok (first.now ++ spec.fixed_behind (tele_of tele.now) first.now k (tele_of params.now))) }
{
    let found = fixed_below(tele, k, params, k, Vec::new(alloc))?;
    let mut positions = Vec::new(alloc);
    positions.extend_from_slice(first)?;
    with_others(positions, first, found.as_slice())
}

/// Positions with those of the others after them that are not among the first.
fn with_others(positions: Vec<u32>, first: &[u32], others: &[u32]) -> Result<Vec<u32>, Stop>
    ensures { Gives (λ v. v.items) result (Ok (positions.items ++ flat_map (orders.unless_among first.now) others.now)) }
{
    match others {
        [] => Ok(positions),
        [i, rest @ ..] => {
            let positions = unless_among(positions, first, *i)?;
            with_others(positions, first, rest)
        }
    }
}
