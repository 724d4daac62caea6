ghost use Rattle.std.specs.Prelude.{◌≡◌};
ghost use Rattle.elab_session.specs.Refusals.{unresolved};
ghost use Rattle.elab_session.specs.declared.refusal.Refusal.TheVariants.{Memory};

use core_terms::{Items, Name, Place};
use resolve::ResolveStop;
use std::alloc::AllocError;
use unification::Why;

/// Core text of terms, contexts or reasons.
pub type Text = Items<u8>;

/// The written part that the checker rejects. Parameters are counted from 1, constructors have their names. A part of a clause
/// has the function or helper, and the number of the clause, counted from 1.
#[derive(Debug, Drop)]
pub enum PartName {
    Ty,
    Body,
    Param(u32),
    Con(Name),
    Dot(Name, u32),
    Side(Name, u32),
    With(Name, u32),
    Goal(Name, u32),
}

/// A call that does not fit a position, counted from 1, in a clause of a function or helper.
#[derive(Debug, Drop)]
pub struct FailingCall {
    pub positions: Items<u32>,
    pub function: Name,
    pub clause: u32,
    pub call: Text,
}

/// Why a declaration is refused.
///
/// `Fuel` has the units that a declaration may spend, `Deep` is a term higher than 2,000 or kernel calls nested deeper than
/// that. `UnknownName`, `Duplicate`, `WrongArity` and `NotLinear` have an offset and the name that is there. `NotPositive` has
/// a constructor and its argument, counted from 1, or 0 for its result; `IndexTooLarge` has a constructor and its argument, or
/// an index where there is no constructor. `IllTyped`: the checker rejects a written part.
///
/// `NotPlainFamily`, `NotDecision` and `NotFirstOrder` are reasons of decisions of equality: the name is that of nothing whose equality
/// can be decided, or of nothing into which it can be; `NotFirstOrder` has the first constructor and its first argument, counted from 1,
/// for whose equality nothing stands.
///
/// `TagCount`, `MemberLevel` and `Unequal` are reasons of families that refer to each other. `TagCount` has the number of members, which is
/// not that of the tags; `MemberLevel` the first member, counted from 1, whose level is not that of the first one, or the first one where
/// this leaves no room above it. `Unequal`: the sides of the equation of a member's constructor do not convert.
///
/// The others are reasons of functions by clauses, with the function or helper and the number of its clause, counted from 1.
/// `Stuck`: unification is stuck at each variable that a clause asks for. `Uncovered`: terms for which no clause is left.
/// `NotAbsurd`: a constructor that can be there, where the clause says that none can. `Impossible`: sides that show that the
/// clause's constructor can't be there. `DotMismatch`: a written term that is not the forced one. `SelfInType`: the type of a
/// scrutinee mentions the function. `NotSmaller`: for each position that admits recursion, a call that is not smaller there.
/// `Rejected`: the checker rejects an entry.
///
/// Texts are printed over the signature in which the refusal arose.
#[derive(Debug, Drop)]
pub enum Refusal {
    Memory,
    Fuel(u64),
    Deep,
    UnknownName(u32, Name),
    Duplicate(u32, Name),
    WrongArity(u32, Name),
    NotLinear(u32, Name),
    BadFamily,
    NotPositive(Name, u32),
    IndexTooLarge(Option<Name>, u32),
    NotPlainFamily(Name),
    NotDecision(Name),
    NotFirstOrder(Name, u32),
    TagCount(u32),
    MemberLevel(u32),
    Unequal {
        member: Name,
        con: Name,
        ctx: Text,
        left: Text,
        right: Text,
    },
    IllTyped {
        part: PartName,
        place: Place,
        ctx: Text,
        reason: Text,
    },
    WrongConstructor {
        function: Name,
        clause: u32,
        ctx: Text,
        ty: Text,
    },
    Stuck {
        function: Name,
        clause: u32,
        ctx: Text,
        left: Text,
        right: Text,
        why: Why,
    },
    Uncovered {
        function: Name,
        ctx: Text,
        terms: Text,
    },
    NotAbsurd {
        function: Name,
        clause: u32,
        con: Name,
    },
    Impossible {
        function: Name,
        clause: u32,
        ctx: Text,
        left: Text,
        right: Text,
    },
    DotMismatch {
        function: Name,
        clause: u32,
        ctx: Text,
        written: Text,
        forced: Text,
    },
    SelfInType {
        function: Name,
        clause: u32,
    },
    NotSmaller(Items<FailingCall>),
    Rejected {
        entry: Name,
        line: Text,
        place: Place,
        ctx: Text,
        reason: Text,
    },
}

impl From<AllocError> for Refusal {
    ghost from_gives = { λ _ r. r ≡ Memory };

    fn from(_error: AllocError) -> Refusal {
        Refusal::Memory
    }
}

impl From<ResolveStop> for Refusal {
    ghost from_gives = { λ e r. r ≡ unresolved e };

    fn from(stop: ResolveStop) -> Refusal {
        match stop {
            ResolveStop::Memory => Refusal::Memory,
            ResolveStop::Deep => Refusal::Deep,
            ResolveStop::UnknownName(offset, word) => Refusal::UnknownName(offset, word),
            ResolveStop::Duplicate(offset, word) => Refusal::Duplicate(offset, word),
            ResolveStop::WrongArity(offset, word) => Refusal::WrongArity(offset, word),
            ResolveStop::NotLinear(offset, word) => Refusal::NotLinear(offset, word),
        }
    }
}
