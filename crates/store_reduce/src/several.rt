//! Several head steps at once: where the arguments of an application fill binders of the function at its head, they are put for all of its
//! variables in one pass over its body.
ghost use Rattle.std.specs.Prelude.{◌≡◌, ◌≤◌, ◌<◌, ◌+◌, Some, IsTrue, IfSome, false, length, take, drop};
ghost use Rattle.std.specs.List.{All};
ghost use Rattle.core_terms.specs.Bounds.{most_inner_variables};
ghost use Rattle.core_sig.specs.EntryIds.{Stands};
ghost use Rattle.store_reduce.specs.Additions.{AddsOnly, IsFullOf};
ghost use Rattle.store_reduce.specs.Arguments.{AreLive};
ghost use Rattle.store_reduce.specs.Formed.{IsPartOnTheWay, Reaches};
ghost use Rattle.store_reduce.specs.Forms.{IsForm, IfGoes, IfRests, TurnsIn};
ghost use Rattle.store_reduce.specs.Places.{whnf_at};
ghost use Rattle.store_reduce.specs.Several.{AreTaken, IsFilling, below, filled_with};
ghost use Rattle.term_pool.specs.Held.{AddsParts, Extends, IsFullFor, Makes};
ghost use Rattle.term_pool.specs.Instantiation.{AreValues, trees_of};
ghost use Rattle.theory.specs.SignatureScopes.{IsScoped};
ghost use Rattle.theory.specs.Spines.{head_of, spine_of};
ghost use Rattle.theory.specs.Substitutions.{fill, inst};
ghost use Rattle.theory.specs.Telescopes.{applied};
ghost use Rattle.theory.specs.Terms as tree;

use crate::form::Turn;
use crate::lookup::body_in;
use crate::spines::{applied_in, arguments_in};
use core_sig::{EntryIds, Signature};
use core_terms::{MAX_HEIGHT, Stop, Units};
use std::alloc::Global;
use term_pool::{Node, TermStore, subst_all_in};

/// A function at the head of an application: its id, its body below the binders that the arguments fill, their number, and how many steps
/// it takes to fill them, where delta is one of these.
#[derive(Clone, Copy)]
pub(crate) struct Filling<I> {
    pub function: I,
    pub body: I,
    pub filled: u32,
    pub steps: u32,
}

/// The steps that an application takes at once at its head, of which all but a first delta put an argument for a variable. None where there
/// are no two of them, where a term on the way may be too high, or where so many units are lacking; and where the application is not whole.
#[tactic(auto, using(kernel_reduce::proofs::SpineLengths::spine_fits))]
pub(crate) fn filling_at<S: TermStore>(
    store: &S,
    sig: &Signature,
    ids: &EntryIds<S::Id>,
    t: S::Id,
    delta: bool,
    depth: u32,
    whole: bool,
    left: u64,
) -> Option<Filling<S::Id>>
    requires ids { Stands (S.held store.now) sig.now.entries ids.now }
    requires live { IsTrue ((S.held store.now).live t) }
    requires low { depth + tree.height ((S.held store.now).tree t) ≤ 2000 }
    ensures { IfSome result (AreTaken sig.now delta depth (S.held store.now) ((S.held store.now).tree t) left) }
{
    if !whole {
        return None;
    }
    let (head, count) = head_in(store, t);
    let filling = filling_in(store, sig, ids, head, count, delta)?;
    if filling.steps < 2 || left < filling.steps as u64 {
        return None;
    }
    let height = store.height(&filling.function);
    let highest = highest_in(store, t);
    if MAX_HEIGHT < depth + count + height + highest {
        return None;
    }
    Some(filling)
}

/// An application after the steps that it takes at once.
#[tactic(auto, using(crate::proofs::ManySteps::taken_laws))]
pub(crate) fn several_turn<S: TermStore>(
    alloc: Global,
    store: &mut S,
    sig: &Signature,
    t: S::Id,
    filling: Filling<S::Id>,
    delta: bool,
    depth: u32,
    units: &mut Units,
) -> Result<Turn<S::Id>, Stop>
    requires live { IsTrue ((S.held store.old).live t) }
    requires scoped { IsScoped sig.now most_inner_variables ((S.held store.old).tree t) }
    requires taken { AreTaken sig.now delta depth (S.held store.old) ((S.held store.old).tree t) units.old.left filling }
    ensures answer { TurnsIn (S.held store.new).tree (whnf_at sig.now delta depth) result units.new.left (whnf_at sig.now delta depth units.old.left ((S.held store.old).tree t)) }
    ensures form { IfRests result (IsForm (S.held store.new)) }
    ensures stays { IfRests result (λ f. f.moved ≡ false → f.id ≡ t) }
    ensures goes { IfGoes result (λ id. IsTrue ((S.held store.new).live id)) }
    ensures goes_low { IfGoes result (λ id. tree.height ((S.held store.new).tree id) ≤ 2000) }
    ensures reaches { IfGoes result (λ id. Reaches sig.now delta ((S.held store.old).tree t) ((S.held store.new).tree id)) }
    ensures less { IfGoes result (λ id. units.new.left < units.old.left) }
    ensures extends { Extends (S.held store.old) (S.held store.new) }
    ensures adds { AddsOnly (IsPartOnTheWay sig.now delta ((S.held store.old).tree t)) (S.held store.old) (S.held store.new) }
    ensures full { IsFullOf (IsPartOnTheWay sig.now delta ((S.held store.old).tree t)) (S.held store.new) result }
    ensures sum { units.new.left + units.new.spent ≡ units.old.left + units.old.spent }
    ensures spends { units.new.left ≤ units.old.left }
{
    let next = filled_in(alloc, store, t, filling)?;
    spend_all(units, filling.steps);
    Ok(Turn::Goes(next))
}

/// The head of a term, and the number of its arguments.
#[tactic(auto, using(kernel_reduce::proofs::SpineLengths::spine_fits))]
fn head_in<S: TermStore>(store: &S, t: S::Id) -> (S::Id, u32)
    requires { IsTrue ((S.held store.now).live t) }
    ensures live { IsTrue ((S.held store.now).live result.0) }
    ensures head { (S.held store.now).tree result.0 ≡ head_of ((S.held store.now).tree t) }
    ensures count { result.1 ≡ length (spine_of ((S.held store.now).tree t)) }
{
    match store.look(&t) {
        Node::App(f, _) => {
            let (head, count) = head_in(store, f);
            (head, count + 1)
        }
        _ => (t, 0),
    }
}

/// The height of the highest argument of a term, or 0.
fn highest_in<S: TermStore>(store: &S, t: S::Id) -> u32
    requires { IsTrue ((S.held store.now).live t) }
    ensures each { All (λ a. tree.height a ≤ result) (spine_of ((S.held store.now).tree t)) }
    ensures low { result ≤ 2000 }
{
    match store.look(&t) {
        Node::App(f, a) => store.height(&a).max(highest_in(store, f)),
        _ => 0,
    }
}

/// The function at the head of an application to so many arguments, where there is one.
fn filling_in<S: TermStore>(
    store: &S,
    sig: &Signature,
    ids: &EntryIds<S::Id>,
    head: S::Id,
    count: u32,
    delta: bool,
) -> Option<Filling<S::Id>>
    requires ids { Stands (S.held store.now) sig.now.entries ids.now }
    requires live { IsTrue ((S.held store.now).live head) }
    requires count { count ≤ 2000 }
    ensures { IfSome result (IsFilling sig.now delta (S.held store.now) ((S.held store.now).tree head) count) }
{
    match store.look(&head) {
        Node::Lam(_, _) => Some(filling_of(store, head, count, 0)),
        Node::Const(n) if delta => {
            let body = body_in(store, sig, ids, n)?;
            Some(filling_of(store, body, count, 1))
        }
        _ => None,
    }
}

/// The function with its binders at so many arguments, after so many steps.
fn filling_of<S: TermStore>(store: &S, function: S::Id, count: u32, before: u32) -> Filling<S::Id>
    requires live { IsTrue ((S.held store.now).live function) }
    requires few { before + count ≤ 4000 }
    ensures function { result.function ≡ function }
    ensures live { IsTrue ((S.held store.now).live result.body) }
    ensures body { below result.filled ((S.held store.now).tree function) ≡ Some ((S.held store.now).tree result.body) }
    ensures few { result.filled ≤ count }
    ensures steps { result.steps ≡ before + result.filled }
{
    let (body, filled) = below_binders(store, function, count);
    Filling {
        function,
        body,
        filled,
        steps: before + filled,
    }
}

/// The body of a function below its first binders, at most so many, and their number.
fn below_binders<S: TermStore>(store: &S, t: S::Id, most: u32) -> (S::Id, u32)
    requires { IsTrue ((S.held store.now).live t) }
    ensures live { IsTrue ((S.held store.now).live result.0) }
    ensures body { below result.1 ((S.held store.now).tree t) ≡ Some ((S.held store.now).tree result.0) }
    ensures few { result.1 ≤ most }
{
    if most == 0 {
        return (t, 0);
    }
    match store.look(&t) {
        Node::Lam(_, b) => {
            let (body, count) = below_binders(store, b, most - 1);
            (body, count + 1)
        }
        _ => (t, 0),
    }
}

/// The first values for the variables of a term.
fn put_first_in<S: TermStore>(
    alloc: Global,
    store: &mut S,
    args: &[S::Id],
    count: usize,
    body: S::Id,
) -> Result<S::Id, Stop>
    requires live { IsTrue ((S.held store.old).live body) }
    requires args { AreValues (S.held store.old) args.now }
    requires count { count ≤ length args.now }
    ensures makes { Makes (S.held store.new) result (inst (fill tree.Var (take count (trees_of (S.held store.old) args.now))) ((S.held store.old).tree body)) }
    ensures full { IsFullFor (S.held store.new) result (inst (fill tree.Var (take count (trees_of (S.held store.old) args.now))) ((S.held store.old).tree body)) }
    ensures extends { Extends (S.held store.old) (S.held store.new) }
    ensures adds { AddsParts (S.held store.old) (S.held store.new) (inst (fill tree.Var (take count (trees_of (S.held store.old) args.now))) ((S.held store.old).tree body)) }
{
    subst_all_in(alloc, store, &args[..count], body)
}

/// The term applied to the terms of a list behind the first ones.
fn applied_behind_in<S: TermStore>(
    store: &mut S,
    f: S::Id,
    args: &[S::Id],
    count: usize,
) -> Result<S::Id, Stop>
    requires live { IsTrue ((S.held store.old).live f) }
    requires low { tree.height ((S.held store.old).tree f) ≤ 2000 }
    requires args { AreLive (S.held store.old) args.now }
    requires count { count ≤ length args.now }
    ensures makes { Makes (S.held store.new) result (applied ((S.held store.old).tree f) (drop count (trees_of (S.held store.old) args.now))) }
    ensures full { IsFullFor (S.held store.new) result (applied ((S.held store.old).tree f) (drop count (trees_of (S.held store.old) args.now))) }
    ensures extends { Extends (S.held store.old) (S.held store.new) }
    ensures adds { AddsParts (S.held store.old) (S.held store.new) (applied ((S.held store.old).tree f) (drop count (trees_of (S.held store.old) args.now))) }
{
    applied_in(store, f, &args[count..])
}

/// The first values for the variables of a term, which is applied to the others.
#[tactic(auto, using(crate::proofs::SpineLaws::part_laws, kernel_reduce::proofs::CallHeights::height_applied))]
fn put_and_apply_in<S: TermStore>(
    alloc: Global,
    store: &mut S,
    args: &[S::Id],
    count: usize,
    body: S::Id,
) -> Result<S::Id, Stop>
    requires live { IsTrue ((S.held store.old).live body) }
    requires args { AreValues (S.held store.old) args.now }
    requires count { count ≤ length args.now }
    ensures makes { Makes (S.held store.new) result (filled_with count ((S.held store.old).tree body) (trees_of (S.held store.old) args.now)) }
    ensures full { IsFullFor (S.held store.new) result (filled_with count ((S.held store.old).tree body) (trees_of (S.held store.old) args.now)) }
    ensures extends { Extends (S.held store.old) (S.held store.new) }
    ensures adds { AddsParts (S.held store.old) (S.held store.new) (filled_with count ((S.held store.old).tree body) (trees_of (S.held store.old) args.now)) }
{
    let body = put_first_in(alloc, store, args, count, body)?;
    applied_behind_in(store, body, args, count)
}

/// The body of the function with the first arguments of the application for its variables, applied to the others.
fn filled_in<S: TermStore>(
    alloc: Global,
    store: &mut S,
    t: S::Id,
    filling: Filling<S::Id>,
) -> Result<S::Id, Stop>
    requires live { IsTrue ((S.held store.old).live t) }
    requires body_live { IsTrue ((S.held store.old).live filling.body) }
    requires few { filling.filled ≤ length (spine_of ((S.held store.old).tree t)) }
    requires free { tree.free_of ((S.held store.old).tree t) ≤ most_inner_variables }
    ensures makes { Makes (S.held store.new) result (filled_with filling.filled ((S.held store.old).tree filling.body) (spine_of ((S.held store.old).tree t))) }
    ensures full { IsFullFor (S.held store.new) result (filled_with filling.filled ((S.held store.old).tree filling.body) (spine_of ((S.held store.old).tree t))) }
    ensures extends { Extends (S.held store.old) (S.held store.new) }
    ensures adds { AddsParts (S.held store.old) (S.held store.new) (filled_with filling.filled ((S.held store.old).tree filling.body) (spine_of ((S.held store.old).tree t))) }
{
    let args = arguments_in(alloc, store, t)?;
    put_and_apply_in(
        alloc,
        store,
        args.as_slice(),
        filling.filled as usize,
        filling.body,
    )
}

/// Spends so many units, where that many are left.
fn spend_all(units: &mut Units, count: u32)
    requires { count ≤ units.old.left }
    ensures left { units.new.left + count ≡ units.old.left }
    ensures sum { units.new.left + units.new.spent ≡ units.old.left + units.old.spent }
{
    units.left -= count as u64;
    units.spent += count as u64;
}
