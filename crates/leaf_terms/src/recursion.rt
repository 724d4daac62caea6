ghost use Rattle.std.specs.Prelude.{◌≡◌, Ok, map, option_map};
ghost use Rattle.std.specs.Option.{option_copied};
ghost use Rattle.core_terms.specs.Answers.{Gives};
ghost use Rattle.core_terms.specs.Meanings.{tele_of};
ghost use Rattle.kernel_reduce.specs.Entries.{family_at};
ghost use Rattle.tree_translation.specs.structural_rec.Meanings.{admission_of};
ghost use Rattle.tele_eq.specs.Items.{AreSmallTerms};
ghost use Rattle.tree_translation.specs.Plans.{own_part};
ghost use Rattle.tree_translation.specs.Recursion as spec;
ghost use Rattle.leaf_terms.specs.PlanMeanings.{plan_of};
ghost use Rattle.leaf_terms.specs.RecursionMade.{recursion_at_made, recursion_made};
ghost use Rattle.leaf_terms.specs.RecursionMeanings.{named_of, recursion_of};

use crate::plan::Plan;
use core_sig::{Family, Signature};
use core_terms::{Name, Stop, Term};
use kernel_reduce::family;
use run_terms::small_terms;
use std::alloc::Global;
use tree_translation::structural_rec::{Admission, find_admission};

/// A position at which a function is recursive, the fixed positions and the indices of recursion there, and the family
/// of its type.
#[derive(Drop)]
pub struct Recursion<'a> {
    pub position: u32,
    pub admission: Admission,
    pub family: &'a Family,
}

/// One of the recursions of a function, each inside those before it: the name of its motive, which is over the fixed terms, and the places
/// of the earlier below values among these.
#[derive(Clone, Copy)]
pub struct NamedRecursion<'a> {
    pub recursion: &'a Recursion<'a>,
    pub motive: &'a Name,
    pub places: &'a [u32],
}

/// Recursion at one position, if there is recursion, with a motive of this name.
pub fn recursions_named<'a>(
    alloc: Global,
    motive: &'a Name,
    r: Option<&'a Recursion<'a>>,
) -> Result<Vec<NamedRecursion<'a>>, Stop>
    ensures { Gives (λ v. map named_of v.items) result (Ok (spec.recursions_named motive.now (option_map recursion_of (option_copied r.entry)))) }
{
    let mut made = Vec::new(alloc);
    if let Some(recursion) = r {
        made.push(NamedRecursion {
            recursion,
            motive,
            places: &[],
        })?;
    }
    Ok(made)
}

/// The telescope of a function's own part.
pub fn own_tele(plan: &Plan) -> &[Term]
    ensures { tele_of result.now ≡ (own_part (plan_of plan.now)).tele }
{
    match plan.parts.as_slice() {
        [] => &[],
        [part, ..] => part.tele.as_slice(),
    }
}

/// Recursion at position `j`, with its fixed positions and its indices, where its family is known.
pub fn with_family<'a>(sig: &'a Signature, j: u32, admission: Admission) -> Option<Recursion<'a>>
    ensures { option_map recursion_of result ≡ option_map (spec.recursion_with j (admission_of admission)) (family_at sig.now (admission_of admission).number) }
{
    match family(sig, admission.number) {
        Some(family) => Some(Recursion {
            position: j,
            admission,
            family,
        }),
        None => None,
    }
}

/// Recursion at position `j` of a telescope whose types are small, where it is admitted.
fn admitted_at<'a>(
    alloc: Global,
    sig: &'a Signature,
    tele: &[Term],
    j: u32,
) -> Result<Option<Recursion<'a>>, Stop>
    requires { AreSmallTerms (tele_of tele.now) }
    ensures { Gives (option_map recursion_of) result (Ok (spec.recursion_at sig.now (tele_of tele.now) j)) }
{
    match find_admission(alloc, sig, tele, j)? {
        Some(admission) => Ok(with_family(sig, j, admission)),
        None => Ok(None),
    }
}

/// Recursion at position `j` of a telescope, where it is admitted, or Deep where a type of the telescope is too high.
pub fn recursion_at<'a>(
    alloc: Global,
    sig: &'a Signature,
    tele: &[Term],
    j: u32,
) -> Result<Option<Recursion<'a>>, Stop>
    ensures { Gives (option_map recursion_of) result (recursion_at_made sig.now (tele_of tele.now) j) }
{
    small_terms(tele)?;
    admitted_at(alloc, sig, tele, j)
}

/// Recursion at the position of a plan, or none where it has no position.
pub fn recursion_of<'a>(
    alloc: Global,
    sig: &'a Signature,
    plan: &Plan,
) -> Result<Option<Recursion<'a>>, Stop>
    ensures { Gives (option_map recursion_of) result (recursion_made sig.now (plan_of plan.now)) }
{
    match plan.position {
        Some(j) => recursion_at(alloc, sig, own_tele(plan), j),
        None => Ok(None),
    }
}
