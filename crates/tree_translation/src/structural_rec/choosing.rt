ghost use Rattle.std.specs.Prelude.{◌≡◌, ◌≤◌, ◌+◌, Ok, length, option_map};
ghost use Rattle.core_terms.specs.Answers.{Gives};
ghost use Rattle.core_terms.specs.Bounds.{most_height};
ghost use Rattle.core_terms.specs.Meanings.{tele_of};
ghost use Rattle.tree_translation.specs.structural_rec.Choices as spec;
ghost use Rattle.tree_translation.specs.structural_rec.Conditions.{AreSmallUses, IsSmallTelescope};
ghost use Rattle.tree_translation.specs.structural_rec.Meanings.{choice_of, failing_of, uses_of};

use crate::structural_rec::admission::find_admission;
use crate::structural_rec::failing::first_failing;
use crate::structural_rec::fitting::Place;
use crate::structural_rec::occurrence::calls_itself;
use crate::structural_rec::{Choice, Failing, Use};
use core_sig::Signature;
use core_terms::{Items, Stop, Tele, Term};
use std::alloc::Global;

/// The position at which the function with the constant `own` is recursive, over the telescope of its arity.
pub fn choose_position(
    alloc: Global,
    sig: &Signature,
    tele: &Tele,
    own: u32,
    uses: &Items<Use>,
) -> Result<Choice, Stop>
    requires tele { IsSmallTelescope (tele_of tele.now) }
    requires uses { AreSmallUses (uses_of uses.now) }
    ensures { Gives choice_of result (Ok (spec.choose sig.now (tele_of tele.now) own (uses_of uses.now))) }
{
    if !calls_itself(own, uses.as_slice()) {
        return Ok(Choice::NotRecursive);
    }
    let tele = tele.as_slice();
    first_usable(alloc, sig, tele, own, uses.as_slice(), 0, tele)
}

/// For a position that admits recursion, the row of the first call that does not fit, if there is one.
fn failing_at(
    alloc: Global,
    sig: &Signature,
    tele: &[Term],
    own: u32,
    uses: &[Use],
    j: u32,
) -> Result<Option<Option<Failing>>, Stop>
    requires tele { IsSmallTelescope (tele_of tele.now) }
    requires uses { AreSmallUses (uses_of uses.now) }
    ensures { Gives (option_map (option_map failing_of)) result (Ok (spec.failing_at sig.now (tele_of tele.now) own (uses_of uses.now) j)) }
{
    match find_admission(alloc, sig, tele, j)? {
        Some(a) => {
            let p = Place {
                sig,
                own,
                count: tele.len() as u32,
                position: j,
                admission: &a,
            };
            Ok(Some(first_failing(alloc, &p, uses)?))
        }
        None => Ok(None),
    }
}

/// The first usable position from `j` on, where `rest` has the types from there on.
fn first_usable(
    alloc: Global,
    sig: &Signature,
    tele: &[Term],
    own: u32,
    uses: &[Use],
    j: u32,
    rest: &[Term],
) -> Result<Choice, Stop>
    requires tele { IsSmallTelescope (tele_of tele.now) }
    requires uses { AreSmallUses (uses_of uses.now) }
    requires rest { j + length rest.now ≤ most_height }
    ensures { Gives choice_of result (Ok (spec.first_usable sig.now (tele_of tele.now) own (uses_of uses.now) j (tele_of rest.now))) }
{
    match rest {
        [] => Ok(Choice::NotSmaller(Items::new(alloc))),
        [_, others @ ..] => match failing_at(alloc, sig, tele, own, uses, j)? {
            Some(None) => Ok(Choice::At(j)),
            Some(Some(row)) => {
                let later = first_usable(alloc, sig, tele, own, uses, j + 1, others)?;
                with_row(row, later)
            }
            None => first_usable(alloc, sig, tele, own, uses, j + 1, others),
        },
    }
}

/// The choice with a row before its rows, where it has rows.
fn with_row(row: Failing, later: Choice) -> Result<Choice, Stop>
    ensures { Gives choice_of result (Ok (spec.with_row (failing_of row) (choice_of later))) }
{
    match later {
        Choice::NotSmaller(rows) => {
            let mut rows = rows.into_vec();
            rows.insert(0, row)?;
            Ok(Choice::NotSmaller(Items::from_vec(rows)))
        }
        other => Ok(other),
    }
}
