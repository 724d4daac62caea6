ghost use Rattle.std.specs.Prelude.{◌≡◌, ◌≤◌, ◌+◌, ◌++◌, ◌∷◌, [], IfErr, IfOk, IsTrue, OnOk};
ghost use Rattle.theory.specs.Terms as tree;
ghost use Rattle.core_terms.specs.declared.stop.Stop.TheVariants.{Memory};
ghost use Rattle.term_pool.specs.Held.{AddsParts, Extends, IsFullFor, Makes};
ghost use Rattle.term_pool.specs.Instantiation.{AreValues};
ghost use Rattle.kernel_check.specs.Checking as checking;
ghost use Rattle.kernel_check.specs.Opened.{filled_tree};
ghost use Rattle.kernel_check.specs.Verdicts.{AnswersIn, IsLiveVerdict, verdict_in};

use crate::verdict::VerdictIn;
use core_terms::{MAX_HEIGHT, Stop};
use std::alloc::Global;
use term_pool::{TermStore, subst_all_in};

/// Arguments that the type of an application is to be filled with, the last one for its nearest variable, and a bound of their heights.
#[derive(Drop)]
pub(crate) struct Filled<I> {
    pub(crate) args: Vec<I>,
    pub(crate) highest: u32,
}

impl<I: Copy> Filled<I> {
    pub(crate) fn new(alloc: Global) -> Filled<I>
        ensures { result.args.items ≡ [] }
    {
        Filled {
            args: Vec::new(alloc),
            highest: 0,
        }
    }

    fn is_empty(&self) -> bool
        ensures { IsTrue result → self.now.args.items ≡ [] }
    {
        self.args.is_empty()
    }

    /// A bound of the heights of the arguments and of one more, which is as high as this.
    pub(crate) fn highest_with(&self, height: u32) -> u32
        ensures filled { self.now.highest ≤ result }
        ensures more { height ≤ result }
    {
        if self.highest < height {
            height
        } else {
            self.highest
        }
    }

    /// One argument more, with a bound of the heights of all.
    pub(crate) fn push(&mut self, arg: I, highest: u32) -> Result<(), Stop>
        ensures args { OnOk result (self.new.args.items ≡ self.old.args.items ++ (arg ∷ [])) }
        ensures highest { OnOk result (self.new.highest ≡ highest) }
        ensures memory { IfErr result (λ e. e ≡ Memory) }
    {
        self.args.push(arg)?;
        self.highest = highest;
        Ok(())
    }

    pub(crate) fn clear(&mut self)
        ensures { self.new.args.items ≡ [] }
    {
        self.args.clear();
    }
}

/// Whether a type stays low when it is filled with arguments that are no higher than `highest`.
pub(crate) fn stays_low<S: TermStore>(store: &S, ty: S::Id, highest: u32) -> bool
    requires live { IsTrue ((S.held store.now).live ty) }
    ensures { IsTrue result → tree.height ((S.held store.now).tree ty) + highest ≤ 2000 }
{
    highest <= MAX_HEIGHT - store.height(&ty)
}

/// A type, from one over the variables that the arguments fill.
pub(crate) fn closed_type<S: TermStore>(
    alloc: Global,
    store: &mut S,
    filled: &Filled<S::Id>,
    ty: S::Id,
) -> Result<S::Id, Stop>
    requires live { IsTrue ((S.held store.old).live ty) }
    requires values { AreValues (S.held store.old) filled.now.args.items }
    ensures makes { Makes (S.held store.new) result (filled_tree (S.held store.old) filled.now.args.items ((S.held store.old).tree ty)) }
    ensures full { IsFullFor (S.held store.new) result (filled_tree (S.held store.old) filled.now.args.items ((S.held store.old).tree ty)) }
    ensures extends { Extends (S.held store.old) (S.held store.new) }
    ensures adds { AddsParts (S.held store.old) (S.held store.new) (filled_tree (S.held store.old) filled.now.args.items ((S.held store.old).tree ty)) }
{
    if filled.is_empty() {
        let _low = store.height(&ty);
        return Ok(ty);
    }
    subst_all_in(alloc, store, filled.args.as_slice(), ty)
}

/// The type of an application, from one over the variables that its arguments fill.
pub(crate) fn close<S: TermStore>(
    alloc: Global,
    store: &mut S,
    filled: &Filled<S::Id>,
    ty: S::Id,
) -> Result<VerdictIn<S::Id>, Stop>
    requires live { IsTrue ((S.held store.old).live ty) }
    requires values { AreValues (S.held store.old) filled.now.args.items }
    ensures answer { AnswersIn (verdict_in (S.held store.new).tree) result (checking.typed (filled_tree (S.held store.old) filled.now.args.items ((S.held store.old).tree ty))) }
    ensures live { IfOk result (IsLiveVerdict (S.held store.new)) }
    ensures extends { Extends (S.held store.old) (S.held store.new) }
    ensures adds { AddsParts (S.held store.old) (S.held store.new) (filled_tree (S.held store.old) filled.now.args.items ((S.held store.old).tree ty)) }
    ensures full { IsFullFor (S.held store.new) result (filled_tree (S.held store.old) filled.now.args.items ((S.held store.old).tree ty)) }
{
    Ok(VerdictIn::Yes(closed_type(alloc, store, filled, ty)?))
}
