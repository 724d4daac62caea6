ghost use Rattle.std.specs.Prelude.{◌≡◌, ◌≤◌, ◌+◌, option_map, IfOk, slice_get, Some};
ghost use Rattle.core_terms.specs.Answers.{Runs};
ghost use Rattle.unification.specs.Deletions as spec;
ghost use Rattle.problems.specs.Meanings.{equation_of, state_of, turn_of};
ghost use Rattle.problems.specs.Conditions.{IsKept, LeadsToRoomWhere};
ghost use Rattle.unification.specs.ScopedStates.{IsReady};

use crate::Why;
use crate::solving::delete;
use crate::trials::{single, sticks, tidied, type_in};
use core_sig::Signature;
use core_terms::{Rule, Stop};
use kernel_check::Kernel;
use problems::{Equation, State, Turn};
use std::alloc::Global;

/// Deletion of the first equation, which needs K.
pub(crate) fn deletion_trial(
    alloc: Global,
    sig: &Signature,
    s: &State,
    e: &Equation,
    kernel: &mut Kernel<'_>,
) -> Result<Option<Turn>, Stop>
    requires kernel { kernel.old.signature ≡ sig.now }
    requires ready { IsReady sig.now }
    requires state { IsKept sig.now (state_of s.now) }
    requires first { slice_get (state_of s.now).equations 0 ≡ Some (equation_of e.now) }
    ensures answer { Runs (option_map turn_of) result kernel.new.left (spec.deletion_trial sig.now (state_of s.now) (equation_of e.now) kernel.old.left) }
    ensures sum { kernel.new.left + kernel.new.spent ≡ kernel.old.left + kernel.old.spent }
    ensures spends { kernel.new.left ≤ kernel.old.left }
    ensures kernel { kernel.new.signature ≡ sig.now }
    ensures room { IfOk result (λ found. LeadsToRoomWhere (option_map turn_of found)) }
{
    if !kernel.convertible(&e.left, &e.right)? {
        return Ok(None);
    }
    if !sig.k() {
        return sticks(Why::NeedsK, &e.left, &e.right, kernel);
    }
    let ty = type_in(alloc, &e.ty)?;
    let ty = kernel.tidy(&ty)?;
    let (left, right) = tidied(&e.left, &e.right, kernel)?;
    let next = delete(alloc, s, e.place.level, &ty, &left)?;
    let step = single(Rule::Delete, ty, left, right);
    Ok(Some(Turn::Goes(step, next)))
}
