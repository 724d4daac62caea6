ghost use Rattle.std.specs.Prelude.{◌≡◌, ◌≤◌, ◌<◌, ◌+◌, ◌-◌, [], ◌∷◌, IsTrue, IfOk, None, nat_lt, max};
ghost use Rattle.core_terms.specs.Bounds.{most_inner_variables};
ghost use Rattle.term_pool.specs.Held.{Extends, AddsParts, Makes, IsFullFor};
ghost use Rattle.theory.specs.SignatureScopes.{IsScoped, IsScopedSignature};
ghost use Rattle.theory.specs.Terms as tree;
ghost use Rattle.kernel_reduce.specs.Reduction as pure;
ghost use Rattle.kernel_reduce.specs.Reduction.{nesting};
ghost use Rattle.kernel_reduce.specs.Steps.{step_of};
ghost use Rattle.store_reduce.specs.Additions.{AddsOnly, IsFullOf};
ghost use Rattle.core_sig.specs.EntryIds.{Stands};
ghost use Rattle.store_reduce.specs.Formed.{IsNormalPart};
ghost use Rattle.store_reduce.specs.Formers.{form_of};
ghost use Rattle.store_reduce.specs.Runs.{RunsIn};

use crate::form::Former;
use crate::head_forms::head_form_in;
use crate::nodes::pair_in;
use core_sig::{EntryIds, Signature};
use core_terms::{MAX_HEIGHT, Stop, Units};
use std::alloc::Global;
use term_pool::{Node, TermStore};

/// The head form of a term, and then the normal forms of its children, where `room` calls may be open.
#[cycle(normal)]
#[tactic(auto, using(crate::proofs::NormalAdding::normal_laws))]
pub(crate) fn normalise_in<S: TermStore>(
    alloc: Global,
    store: &mut S,
    sig: &Signature,
    ids: &EntryIds<S::Id>,
    t: S::Id,
    delta: bool,
    room: u32,
    units: &mut Units,
) -> Result<S::Id, Stop>
    requires room { room ≤ nesting }
    requires signature { IsScopedSignature sig.now }
    requires ids { Stands (S.held store.old) sig.now.entries ids.now }
    requires live { IsTrue ((S.held store.old).live t) }
    requires scoped { IsScoped sig.now (most_inner_variables - room) ((S.held store.old).tree t) }
    ensures answer { RunsIn (S.held store.new).tree result units.new.left (pure.normal_of sig.now delta room ((S.held store.old).tree t) units.old.left) }
    ensures live { IfOk result (λ id. IsTrue ((S.held store.new).live id)) }
    ensures extends { Extends (S.held store.old) (S.held store.new) }
    ensures adds { AddsOnly (IsNormalPart sig.now delta (((S.held store.old).tree t) ∷ [])) (S.held store.old) (S.held store.new) }
    ensures full { IsFullOf (IsNormalPart sig.now delta (((S.held store.old).tree t) ∷ [])) (S.held store.new) result }
    ensures sum { units.new.left + units.new.spent ≡ units.old.left + units.old.spent }
    ensures spends { units.new.left ≤ units.old.left }
{
    if room == 0 {
        return Err(Stop::Deep);
    }
    let t = head_form_in(alloc, store, sig, ids, t, delta, units)?;
    normal_children_in(alloc, store, sig, ids, t, delta, room - 1, units)
}

/// A term without a head step, with the normal forms of its children, where `room` calls more may be open.
#[cycle(normal)]
fn normal_children_in<S: TermStore>(
    alloc: Global,
    store: &mut S,
    sig: &Signature,
    ids: &EntryIds<S::Id>,
    t: S::Id,
    delta: bool,
    room: u32,
    units: &mut Units,
) -> Result<S::Id, Stop>
    requires room { room < nesting }
    requires signature { IsScopedSignature sig.now }
    requires ids { Stands (S.held store.old) sig.now.entries ids.now }
    requires live { IsTrue ((S.held store.old).live t) }
    requires scoped { IsScoped sig.now (most_inner_variables - (room + 1)) ((S.held store.old).tree t) }
    requires rests { step_of sig.now delta ((S.held store.old).tree t) ≡ None }
    requires low { tree.height ((S.held store.old).tree t) ≤ 2000 }
    ensures answer { RunsIn (S.held store.new).tree result units.new.left (pure.normal_children (pure.normal_of sig.now delta room) ((S.held store.old).tree t) units.old.left) }
    ensures live { IfOk result (λ id. IsTrue ((S.held store.new).live id)) }
    ensures extends { Extends (S.held store.old) (S.held store.new) }
    ensures adds { AddsOnly (IsNormalPart sig.now delta (((S.held store.old).tree t) ∷ [])) (S.held store.old) (S.held store.new) }
    ensures full { IsFullOf (IsNormalPart sig.now delta (((S.held store.old).tree t) ∷ [])) (S.held store.new) result }
    ensures sum { units.new.left + units.new.spent ≡ units.old.left + units.old.spent }
    ensures spends { units.new.left ≤ units.old.left }
{
    match pair_in(store, t) {
        Some(p) => normal_pair_in(
            alloc, store, sig, ids, p.former, p.first, p.second, delta, room, units,
        ),
        None => Ok(t),
    }
}

/// The term of two children with their normal forms, the first one first, where it takes no head step.
#[cycle(normal)]
#[tactic(auto, using(crate::proofs::NormalAdding::normal_laws))]
fn normal_pair_in<S: TermStore>(
    alloc: Global,
    store: &mut S,
    sig: &Signature,
    ids: &EntryIds<S::Id>,
    former: Former,
    a: S::Id,
    b: S::Id,
    delta: bool,
    room: u32,
    units: &mut Units,
) -> Result<S::Id, Stop>
    requires room { room < nesting }
    requires signature { IsScopedSignature sig.now }
    requires ids { Stands (S.held store.old) sig.now.entries ids.now }
    requires a_live { IsTrue ((S.held store.old).live a) }
    requires b_live { IsTrue ((S.held store.old).live b) }
    requires a { IsScoped sig.now (most_inner_variables - room) ((S.held store.old).tree a) }
    requires b { IsScoped sig.now (most_inner_variables - room) ((S.held store.old).tree b) }
    requires rests { step_of sig.now delta (form_of former ((S.held store.old).tree a) ((S.held store.old).tree b)) ≡ None }
    requires low { tree.height (form_of former ((S.held store.old).tree a) ((S.held store.old).tree b)) ≤ 2000 }
    ensures answer { RunsIn (S.held store.new).tree result units.new.left (pure.with_children (form_of former) (pure.normal_of sig.now delta room ((S.held store.old).tree a)) (pure.normal_of sig.now delta room ((S.held store.old).tree b)) units.old.left) }
    ensures live { IfOk result (λ id. IsTrue ((S.held store.new).live id)) }
    ensures extends { Extends (S.held store.old) (S.held store.new) }
    ensures adds { AddsOnly (IsNormalPart sig.now delta (form_of former ((S.held store.old).tree a) ((S.held store.old).tree b) ∷ [])) (S.held store.old) (S.held store.new) }
    ensures full { IsFullOf (IsNormalPart sig.now delta (form_of former ((S.held store.old).tree a) ((S.held store.old).tree b) ∷ [])) (S.held store.new) result }
    ensures sum { units.new.left + units.new.spent ≡ units.old.left + units.old.spent }
    ensures spends { units.new.left ≤ units.old.left }
{
    let a = normalise_in(alloc, store, sig, ids, a, delta, room, units)?;
    let b = normalise_in(alloc, store, sig, ids, b, delta, room, units)?;
    if fits_in(store, a, b) {
        make_of(store, former, a, b)
    } else {
        Err(Stop::Deep)
    }
}

/// Whether a term with two children is low enough.
fn fits_in<S: TermStore>(store: &S, a: S::Id, b: S::Id) -> bool
    requires a { IsTrue ((S.held store.now).live a) }
    requires b { IsTrue ((S.held store.now).live b) }
    ensures { result ≡ nat_lt (max (tree.height ((S.held store.now).tree a)) (tree.height ((S.held store.now).tree b))) 2000 }
{
    store.height(&a).max(store.height(&b)) < MAX_HEIGHT
}

/// The term of two children.
fn make_of<S: TermStore>(store: &mut S, former: Former, a: S::Id, b: S::Id) -> Result<S::Id, Stop>
    requires a { IsTrue ((S.held store.old).live a) }
    requires b { IsTrue ((S.held store.old).live b) }
    ensures makes { Makes (S.held store.new) result (form_of former ((S.held store.old).tree a) ((S.held store.old).tree b)) }
    ensures full { IsFullFor (S.held store.new) result (form_of former ((S.held store.old).tree a) ((S.held store.old).tree b)) }
    ensures extends { Extends (S.held store.old) (S.held store.new) }
    ensures adds { AddsParts (S.held store.old) (S.held store.new) (form_of former ((S.held store.old).tree a) ((S.held store.old).tree b)) }
{
    match former {
        Former::Pi => store.make(Node::Pi(a, b)),
        Former::Lam => store.make(Node::Lam(a, b)),
        Former::App => store.make(Node::App(a, b)),
    }
}
