ghost use Rattle.std.specs.Prelude.{◌≡◌, Ok};
ghost use Rattle.core_terms.specs.Answers.{Gives, Unless};
ghost use Rattle.core_terms.specs.declared.stop.Stop.TheVariants.{Memory};
ghost use Rattle.clause_reports.specs.elaboration.Refusals as spec;
ghost use Rattle.function_checks.specs.function_refusals.RefusalMeanings.{IsUnforeseen, owner_meant, refusal_of};
ghost use Rattle.function_checks.specs.declared.function_refusals.refusal.FunctionRefusal.TheVariants as refused;

use core_terms::{Items, Name, Place, Stop, number_of};
use std::alloc::{AllocError, AllocFailed, Global};
use unification::Why;

/// Core text of terms, contexts or reasons.
pub type Text = Items<u8>;

/// A clause: the function or helper that it belongs to, by name, and its number, counted from 1.
#[derive(Debug, Drop)]
pub struct Owner {
    pub function: Name,
    pub clause: u32,
}

/// The written part that the checker rejects.
#[derive(Debug, Drop)]
pub enum WrittenPart {
    Type,
    Dot(Owner),
    Side(Owner),
    With(Owner),
    Goal(Owner),
}

/// A call that does not fit a position, counted from 1.
#[derive(Debug, Drop)]
pub struct FailingCall {
    pub position: u32,
    pub owner: Owner,
    pub call: Text,
}

/// Why a function by clauses is refused.
///
/// `Stop`: units, heights or memory ran out. The other forms hold their evidence: names, and core text over the
/// signature in which the refusal arose. `IllTyped`: the checker rejects a written part. `Stuck`: unification is stuck
/// at each variable that a clause asks for. `Uncovered`: terms for which no clause is left. `NotAbsurd`: a constructor
/// that can be there, where the clause says that none can. `Impossible`: sides that show that the clause's constructor
/// can't be there. `DotMismatch`: a written term that is not the forced one. `SelfInType`: the type of a scrutinee
/// mentions the function. `NotSmaller`: for each position that admits recursion, a call that is not smaller there.
/// `Rejected`: the checker rejects an entry.
#[derive(Debug, Drop)]
pub enum FunctionRefusal {
    Stop(Stop),
    IllTyped {
        part: WrittenPart,
        place: Place,
        ctx: Text,
        reason: Text,
    },
    WrongConstructor {
        owner: Owner,
        ctx: Text,
        ty: Text,
    },
    Stuck {
        owner: Owner,
        ctx: Text,
        left: Text,
        right: Text,
        why: Why,
    },
    Uncovered {
        function: Name,
        ctx: Text,
        vector: Text,
    },
    NotAbsurd {
        owner: Owner,
        con: Text,
    },
    Impossible {
        owner: Owner,
        ctx: Text,
        left: Text,
        right: Text,
    },
    DotMismatch {
        owner: Owner,
        ctx: Text,
        written: Text,
        forced: Text,
    },
    SelfInType(Owner),
    NotSmaller(Items<FailingCall>),
    Rejected {
        entry: Name,
        line: Text,
        place: Place,
        ctx: Text,
        reason: Text,
    },
}

impl From<Stop> for FunctionRefusal {
    ghost use Rattle.std.specs.Prelude.{◌≡◌};

    ghost from_gives = { λ e r. r ≡ refused.Stop e };

    fn from(stop: Stop) -> FunctionRefusal {
        FunctionRefusal::Stop(stop)
    }
}

impl From<AllocError> for FunctionRefusal {
    ghost use Rattle.std.specs.Prelude.{◌≡◌};

    ghost from_gives = { λ _ r. r ≡ refused.Stop Memory };

    fn from(_error: AllocError) -> FunctionRefusal {
        FunctionRefusal::Stop(Stop::Memory)
    }
}

impl<T: Drop> From<AllocFailed<T>> for FunctionRefusal {
    ghost use Rattle.std.specs.Prelude.{◌≡◌};

    ghost from_gives = { λ _ r. r ≡ refused.Stop Memory };

    fn from(_failed: AllocFailed<T>) -> FunctionRefusal {
        FunctionRefusal::Stop(Stop::Memory)
    }
}

/// The clause with a number, counted from 0, of a function or helper.
pub fn owner_of(alloc: Global, function: &[u8], clause: u32) -> Result<Owner, Stop>
    ensures { Gives owner_meant result (Ok (spec.owner_of function.now clause)) }
{
    let clause = number_of(clause as usize + 1)?;
    Ok(Owner {
        function: Name::from_vec(function.to_vec(alloc)?),
        clause,
    })
}

/// The refusal itself, or Memory where there is none for it.
pub fn or_memory(made: Result<FunctionRefusal, Stop>) -> FunctionRefusal
    ensures { (meant : spec.Refusal) → Gives refusal_of made (Ok meant) → Unless (IsUnforeseen result) (refusal_of result ≡ meant) }
{
    match made {
        Ok(refusal) => refusal,
        Err(_) => FunctionRefusal::Stop(Stop::Memory),
    }
}
