ghost use Rattle.std.specs.Prelude.{◌≡◌, ◌+◌, Ok, length, option_map};
ghost use Rattle.theory.specs.Spines.{spine_of};
ghost use Rattle.core_sig.specs.Meanings.{family_of};
ghost use Rattle.core_terms.specs.Answers.{Gives};
ghost use Rattle.core_terms.specs.Meanings.{tree_of, tele_of};
ghost use Rattle.tele_eq.specs.Items.{AreSmallTerms, IsSmall};
ghost use Rattle.tree_translation.specs.structural_rec.Meanings.{admission_of};
ghost use Rattle.tree_translation.specs.structural_rec.Positions as spec;

use crate::structural_rec::positions::{
    are_different, are_in_order, are_independent, fixed_below, positions_of,
};
use crate::structural_rec::terms::small_term_at;
use core_sig::{Family, Signature};
use core_terms::{Stop, Term, copy_whole, head, into_spine};
use kernel_reduce::family;
use std::alloc::Global;

/// An admission of recursion at a position: the number of the family of its type, the fixed positions in the order of the
/// telescope, and the positions of the indices in the order of the family.
#[derive(Debug, Drop)]
pub struct Admission {
    pub number: u32,
    pub fixed: Vec<u32>,
    pub indices: Vec<u32>,
}

/// The admission at position `j`, if it admits recursion.
pub fn find_admission(
    alloc: Global,
    sig: &Signature,
    tele: &[Term],
    j: u32,
) -> Result<Option<Admission>, Stop>
    requires { AreSmallTerms (tele_of tele.now) }
    ensures { Gives (option_map admission_of) result (Ok (spec.admission sig.now (tele_of tele.now) j)) }
{
    match small_term_at(tele, j) {
        Some(ty) => admission_at_type(alloc, sig, tele, j, ty),
        None => Ok(None),
    }
}

/// The admission with the type `ty` at position `j`.
fn admission_at_type(
    alloc: Global,
    sig: &Signature,
    tele: &[Term],
    j: u32,
    ty: &Term,
) -> Result<Option<Admission>, Stop>
    requires tele { AreSmallTerms (tele_of tele.now) }
    requires ty { IsSmall (tree_of ty.now) }
    ensures { Gives (option_map admission_of) result (Ok (spec.admission_of sig.now (tele_of tele.now) j (tree_of ty.now))) }
{
    match head(ty) {
        Term::Fam(n) => match family(sig, *n) {
            Some(f) => {
                let spine = into_spine(alloc, copy_whole(alloc, ty)?)?;
                admission_with(alloc, tele, j, *n, spine.as_slice(), f)
            }
            None => Ok(None),
        },
        _ => Ok(None),
    }
}

/// The admission where the type is family `n` applied to `spine`.
fn admission_with(
    alloc: Global,
    tele: &[Term],
    j: u32,
    n: u32,
    spine: &[Term],
    f: &Family,
) -> Result<Option<Admission>, Stop>
    requires tele { AreSmallTerms (tele_of tele.now) }
    requires spine { AreSmallTerms (tele_of spine.now) }
    ensures { Gives (option_map admission_of) result (Ok (spec.admission_with (tele_of tele.now) j n (tele_of spine.now) (family_of f.now))) }
{
    let count = f.params.as_slice().len();
    let indices = f.indices.as_slice().len();
    if spine.len() as u128 != count as u128 + indices as u128 {
        return Ok(None);
    }
    admission_at(alloc, tele, j, n, &spine[..count], &spine[count..])
}

/// The admission where the type is family `n` at these parameters and indices.
fn admission_at(
    alloc: Global,
    tele: &[Term],
    j: u32,
    n: u32,
    params: &[Term],
    indices: &[Term],
) -> Result<Option<Admission>, Stop>
    requires tele { AreSmallTerms (tele_of tele.now) }
    requires params { AreSmallTerms (tele_of params.now) }
    ensures { Gives (option_map admission_of) result (Ok (spec.admission_at (tele_of tele.now) j n (tele_of params.now) (tele_of indices.now))) }
{
    match positions_of(alloc, j, indices)? {
        Some(indices) => {
            let fixed = fixed_below(tele, j, params, j, Vec::new(alloc))?;
            Ok(admission_from(tele, n, fixed, indices))
        }
        None => Ok(None),
    }
}

/// The admission from the fixed positions and those of the indices.
pub fn admission_from(
    tele: &[Term],
    n: u32,
    fixed: Vec<u32>,
    indices: Vec<u32>,
) -> Option<Admission>
    requires { AreSmallTerms (tele_of tele.now) }
    ensures { option_map admission_of result ≡ spec.admission_from (tele_of tele.now) n fixed.items indices.items }
{
    if are_different(indices.as_slice())
        && are_in_order(tele, indices.as_slice())
        && are_independent(
            tele,
            fixed.as_slice(),
            indices.as_slice(),
            indices.as_slice(),
        )
    {
        Some(Admission {
            number: n,
            fixed,
            indices,
        })
    } else {
        None
    }
}
