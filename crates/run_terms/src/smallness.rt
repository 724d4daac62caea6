ghost use Rattle.std.specs.Prelude.{◌≡◌, ◌≤◌, ◌^◌, true, false, IfErr, OnOk, length};
ghost use Rattle.core_terms.specs.Answers.{Gives, IsUnforeseen, Unless, are_low, is_low};
ghost use Rattle.core_terms.specs.Meanings.{tree_of, tele_of};
ghost use Rattle.core_terms.specs.declared.stop.Stop.TheVariants.{Deep};
ghost use Rattle.tele_eq.specs.Items.{AreSmall, AreSmallTerms, IsSmall, items_of};
ghost use Rattle.theory.specs.Terms as tree;
ghost use Rattle.unification.specs.Heights.{are_low_items};
ghost use Rattle.run_terms.specs.Made as spec;

use core_terms::{Items, MAX_HEIGHT, Stop, Tele, Term};
use std::alloc::Global;
use tele_eq::{Item, cong_whole, refl_list_whole, tele_equations_whole};

/// How many variables may be free in a small term.
const MOST_VARIABLES: u64 = 2147483648;

/// One more than the greatest variable that is free in a term, or 0.
pub fn free_of(t: &Term) -> u64
    ensures is { result ≡ tree.free_of (tree_of t.now) }
    ensures bound { result ≤ 2 ^ 32 }
{
    match t {
        Term::Var(n) => *n as u64 + 1,
        Term::Pi(first, second) | Term::Lam(first, second) => {
            free_of(first).max(free_of(second).saturating_sub(1))
        }
        Term::App(first, second) => free_of(first).max(free_of(second)),
        Term::Let(ty, value, rest) => {
            free_of(ty).max(free_of(value).max(free_of(rest).saturating_sub(1)))
        }
        _ => 0,
    }
}

/// Deep where a term is too high, and Memory where its variables have too great numbers.
pub fn small_term(t: &Term) -> Result<(), Stop>
    ensures small { OnOk result (IsSmall (tree_of t.now)) }
    ensures low { OnOk result (is_low (tree_of t.now) ≡ true) }
    ensures deep { IfErr result (λ e. Unless (IsUnforeseen e) ((e ≡ Deep) × (is_low (tree_of t.now) ≡ false))) }
{
    if t.height() > MAX_HEIGHT {
        return Err(Stop::Deep);
    }
    if free_of(t) > MOST_VARIABLES {
        return Err(Stop::Memory);
    }
    Ok(())
}

/// Deep if a term of the list is too high, and Memory if its variables have too great numbers.
pub fn small_terms(terms: &[Term]) -> Result<(), Stop>
    ensures small { OnOk result (AreSmallTerms (tele_of terms.now)) }
    ensures low { OnOk result (are_low (tele_of terms.now) ≡ true) }
    ensures deep { IfErr result (λ e. Unless (IsUnforeseen e) ((e ≡ Deep) × (are_low (tele_of terms.now) ≡ false))) }
{
    match terms {
        [] => Ok(()),
        [t, rest @ ..] => {
            small_term(t)?;
            small_terms(rest)
        }
    }
}

/// Deep if a type of the telescope is too high, and Memory if its variables have too great numbers.
fn small_items(tele: &[Item]) -> Result<(), Stop>
    ensures small { OnOk result (AreSmall (items_of tele.now)) }
    ensures low { OnOk result (are_low_items (items_of tele.now) ≡ true) }
    ensures deep { IfErr result (λ e. Unless (IsUnforeseen e) ((e ≡ Deep) × (are_low_items (items_of tele.now) ≡ false))) }
{
    match tele {
        [] => Ok(()),
        [x, rest @ ..] => {
            small_term(&x.ty)?;
            small_items(rest)
        }
    }
}

/// The equations between two lists of terms, or Deep where there are too many or something in them is too high.
pub fn equations_made(
    alloc: Global,
    tele: &Items<Item>,
    left: &Tele,
    right: &Tele,
) -> Result<Tele, Stop>
    ensures { Gives tele_of result (spec.equations_made (items_of tele.now) (tele_of left.now) (tele_of right.now)) }
{
    if tele.as_slice().len() > 1000 {
        return Err(Stop::Deep);
    }
    small_items(tele.as_slice())?;
    small_terms(left.as_slice())?;
    small_terms(right.as_slice())?;
    tele_equations_whole(alloc, tele, left, right)
}

/// Reflexivities of terms, or Deep where there are too many or something in them is too high.
pub fn reflexivities_made(alloc: Global, tele: &Items<Item>, terms: &Tele) -> Result<Tele, Stop>
    ensures { Gives tele_of result (spec.reflexivities_made (items_of tele.now) (tele_of terms.now)) }
{
    if tele.as_slice().len() > 1000 {
        return Err(Stop::Deep);
    }
    small_items(tele.as_slice())?;
    small_terms(terms.as_slice())?;
    refl_list_whole(alloc, tele, terms)
}

/// Whether two telescopes and terms over the first one are few, and small.
fn small_map(from: &[Item], to: &[Item], terms: &[Term]) -> Result<(), Stop>
    ensures from { OnOk result (AreSmall (items_of from.now)) }
    ensures to { OnOk result (AreSmall (items_of to.now)) }
    ensures terms { OnOk result (AreSmallTerms (tele_of terms.now)) }
    ensures few_from { OnOk result (length from.now ≤ 1000) }
    ensures few_to { OnOk result (length to.now ≤ 1000) }
    ensures low { OnOk result (spec.is_low_map (items_of from.now) (items_of to.now) (tele_of terms.now) ≡ true) }
    ensures deep { IfErr result (λ e. Unless (IsUnforeseen e) ((e ≡ Deep) × (spec.is_low_map (items_of from.now) (items_of to.now) (tele_of terms.now) ≡ false))) }
{
    if from.len() > 1000 || to.len() > 1000 {
        return Err(Stop::Deep);
    }
    small_items(from)?;
    small_items(to)?;
    small_terms(terms)
}

/// Whether the sides that congruences go between, and what goes between them, are small.
fn small_sides(left: &[Term], right: &[Term], eqs: &[Term]) -> Result<(), Stop>
    ensures left { OnOk result (AreSmallTerms (tele_of left.now)) }
    ensures right { OnOk result (AreSmallTerms (tele_of right.now)) }
    ensures eqs { OnOk result (AreSmallTerms (tele_of eqs.now)) }
    ensures low { OnOk result (spec.are_low_sides (tele_of left.now) (tele_of right.now) (tele_of eqs.now) ≡ true) }
    ensures deep { IfErr result (λ e. Unless (IsUnforeseen e) ((e ≡ Deep) × (spec.are_low_sides (tele_of left.now) (tele_of right.now) (tele_of eqs.now) ≡ false))) }
{
    small_terms(left)?;
    small_terms(right)?;
    small_terms(eqs)
}

/// Congruences, or Deep where there are too many or something in them is too high.
pub fn congruences_made(
    alloc: Global,
    from: &Items<Item>,
    to: &Items<Item>,
    terms: &Tele,
    left: &Tele,
    right: &Tele,
    eqs: &Tele,
) -> Result<Tele, Stop>
    ensures { Gives tele_of result (spec.congruences_made (items_of from.now) (items_of to.now) (tele_of terms.now) (tele_of left.now) (tele_of right.now) (tele_of eqs.now)) }
{
    small_map(from.as_slice(), to.as_slice(), terms.as_slice())?;
    small_sides(left.as_slice(), right.as_slice(), eqs.as_slice())?;
    cong_whole(alloc, from, to, terms, left, right, eqs)
}
