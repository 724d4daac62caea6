ghost use Rattle.std.specs.Prelude.{◌≡◌, ◌&&◌, true, false, IfErr, OnOk};
ghost use Rattle.core_terms.specs.Answers.{IsUnforeseen, Unless, are_low, is_low};
ghost use Rattle.core_terms.specs.Meanings.{tree_of, tele_of};
ghost use Rattle.core_terms.specs.declared.stop.Stop.TheVariants.{Deep};
ghost use Rattle.function_plans.specs.CodePlans.{are_low_uses};
ghost use Rattle.tree_translation.specs.structural_rec.Conditions.{AreSmallUses, IsSmallTelescope};
ghost use Rattle.tree_translation.specs.structural_rec.Meanings.{uses_of};
ghost use Rattle.tele_eq.specs.Items.{AreSmallTerms, IsSmall};

use core_terms::{Stop, Term};
use run_terms::{small_term, small_terms};
use tree_translation::structural_rec::Use;

/// Deep where a type of a telescope is too high, and Memory where its variables have too great numbers. Memory is short too where the
/// telescope has more than 2,000 types, since a type of so many is too high.
pub(crate) fn small_telescope(tele: &[Term]) -> Result<(), Stop>
    ensures small { OnOk result (IsSmallTelescope (tele_of tele.now)) }
    ensures low { OnOk result (are_low (tele_of tele.now) ≡ true) }
    ensures deep { IfErr result (λ e. Unless (IsUnforeseen e) ((e ≡ Deep) × (are_low (tele_of tele.now) ≡ false))) }
{
    if tele.len() > 2000 {
        return Err(Stop::Memory);
    }
    small_terms(tele)
}

/// Deep where a right side or a scrutinee, or a term of its clause, is too high, and Memory where variables have too
/// great numbers.
fn small_use(u: &Use) -> Result<(), Stop>
    ensures small { OnOk result (AreSmallTerms (tele_of u.now.terms) × IsSmall (tree_of u.now.body)) }
    ensures low { OnOk result ((are_low (tele_of u.now.terms) && is_low (tree_of u.now.body)) ≡ true) }
    ensures deep { IfErr result (λ e. Unless (IsUnforeseen e) ((e ≡ Deep) × ((are_low (tele_of u.now.terms) && is_low (tree_of u.now.body)) ≡ false))) }
{
    small_terms(u.terms.as_slice())?;
    small_term(&u.body)
}

/// Deep where a term of some use is too high, and Memory where variables have too great numbers.
pub(crate) fn small_uses(uses: &[Use]) -> Result<(), Stop>
    ensures small { OnOk result (AreSmallUses (uses_of uses.now)) }
    ensures low { OnOk result (are_low_uses (uses_of uses.now) ≡ true) }
    ensures deep { IfErr result (λ e. Unless (IsUnforeseen e) ((e ≡ Deep) × (are_low_uses (uses_of uses.now) ≡ false))) }
{
    match uses {
        [] => Ok(()),
        [u, rest @ ..] => {
            small_use(u)?;
            small_uses(rest)
        }
    }
}
