ghost use Rattle.std.specs.Prelude.{◌≡◌, ◌≤◌, ◌<◌, ◌+◌, ◌||◌, IsTrue, IfOk, None, false, true};
ghost use Rattle.core_terms.specs.Bounds.{most_inner_variables};
ghost use Rattle.term_pool.specs.Held.{Extends};
ghost use Rattle.theory.specs.SignatureScopes.{IsScoped, IsScopedSignature};
ghost use Rattle.theory.specs.Spines.{head_of, spine_of};
ghost use Rattle.theory.specs.Terms as tree;
ghost use Rattle.kernel_reduce.specs.Steps.{awaits_scrutinee, step_of};
ghost use Rattle.store_reduce.specs.Additions.{AddsOnly, IsFullOf};
ghost use Rattle.core_sig.specs.EntryIds.{Stands};
ghost use Rattle.store_reduce.specs.Formed.{EndsIn, IsPartOnTheWay, Reaches};
ghost use Rattle.store_reduce.specs.Forms.{IsForm, IfGoes, IfRests, TurnsIn, function_body};
ghost use Rattle.store_reduce.specs.Places.{whnf_at};
ghost use Rattle.store_reduce.specs.Runs.{RunsIn};

use crate::form::{Form, Turn};
use crate::several::{filling_at, several_turn};
use crate::testing::awaits_scrutinee_in;
use crate::turns::{beta_turn, body_of_function, let_turn, meet_in, rest_turn, symbol, unfold_in};
use core_sig::{EntryIds, Signature};
use core_terms::{MAX_HEIGHT, Stop, Units};
use std::alloc::Global;
use term_pool::{Node, TermStore};

/// Takes head steps until there is none, in a term so many parts below the whole. Where it is not the function part of an application,
/// several steps may be taken at once.
#[cycle(reduce)]
pub(crate) fn reduce_in<S: TermStore>(
    alloc: Global,
    store: &mut S,
    sig: &Signature,
    ids: &EntryIds<S::Id>,
    t: S::Id,
    delta: bool,
    depth: u32,
    whole: bool,
    units: &mut Units,
) -> Result<Form<S::Id>, Stop>
    requires live { IsTrue ((S.held store.old).live t) }
    requires signature { IsScopedSignature sig.now }
    requires ids { Stands (S.held store.old) sig.now.entries ids.now }
    requires scoped { IsScoped sig.now most_inner_variables ((S.held store.old).tree t) }
    ensures answer { RunsIn (λ f. (S.held store.new).tree f.id) result units.new.left (whnf_at sig.now delta depth units.old.left ((S.held store.old).tree t)) }
    ensures form { IfOk result (IsForm (S.held store.new)) }
    ensures ends { IfOk result (λ f. EndsIn sig.now delta depth ((S.held store.old).tree t) ((S.held store.new).tree f.id)) }
    ensures stays { IfOk result (λ f. f.moved ≡ false → f.id ≡ t) }
    ensures extends { Extends (S.held store.old) (S.held store.new) }
    ensures adds { AddsOnly (IsPartOnTheWay sig.now delta ((S.held store.old).tree t)) (S.held store.old) (S.held store.new) }
    ensures full { IsFullOf (IsPartOnTheWay sig.now delta ((S.held store.old).tree t)) (S.held store.new) result }
    ensures sum { units.new.left + units.new.spent ≡ units.old.left + units.old.spent }
    ensures spends { units.new.left ≤ units.old.left }
{
    let mut moved = false;
    let mut whole = whole;
    let mut t = t;
    'turns: loop {
        let turn = turn_in(alloc, store, sig, ids, t, delta, depth, whole, units)?;
        match turn {
            Turn::Rests(form) => return Ok(moved_form(form, moved)),
            Turn::Goes(next) => {
                t = next;
                moved = true;
                whole = true;
            }
        }
    }
}

/// The form, where steps may have been taken before.
fn moved_form<I: Copy>(f: Form<I>, before: bool) -> Form<I>
    ensures { result ≡ record f { moved = before || f.moved } }
{
    Form {
        id: f.id,
        head: f.head,
        count: f.count,
        moved: before || f.moved,
    }
}

/// The term without a head step, or reduced up to and with the first contraction at its own head.
#[cycle(reduce)]
#[tactic(auto, using(crate::proofs::PlaceLaws::place_laws, crate::proofs::Ways::way_laws, crate::proofs::Adding::adding_laws))]
fn turn_in<S: TermStore>(
    alloc: Global,
    store: &mut S,
    sig: &Signature,
    ids: &EntryIds<S::Id>,
    t: S::Id,
    delta: bool,
    depth: u32,
    whole: bool,
    units: &mut Units,
) -> Result<Turn<S::Id>, Stop>
    requires live { IsTrue ((S.held store.old).live t) }
    requires signature { IsScopedSignature sig.now }
    requires ids { Stands (S.held store.old) sig.now.entries ids.now }
    requires scoped { IsScoped sig.now most_inner_variables ((S.held store.old).tree t) }
    ensures answer { TurnsIn (S.held store.new).tree (whnf_at sig.now delta depth) result units.new.left (whnf_at sig.now delta depth units.old.left ((S.held store.old).tree t)) }
    ensures form { IfRests result (IsForm (S.held store.new)) }
    ensures stays { IfRests result (λ f. f.moved ≡ false → f.id ≡ t) }
    ensures goes { IfGoes result (λ id. IsTrue ((S.held store.new).live id)) }
    ensures goes_low { IfGoes result (λ id. tree.height ((S.held store.new).tree id) ≤ 2000) }
    ensures reaches { IfGoes result (λ id. Reaches sig.now delta ((S.held store.old).tree t) ((S.held store.new).tree id)) }
    ensures less { IfGoes result (λ id. units.new.left < units.old.left) }
    ensures extends { Extends (S.held store.old) (S.held store.new) }
    ensures adds { AddsOnly (IsPartOnTheWay sig.now delta ((S.held store.old).tree t)) (S.held store.old) (S.held store.new) }
    ensures full { IsFullOf (IsPartOnTheWay sig.now delta ((S.held store.old).tree t)) (S.held store.new) result }
    ensures sum { units.new.left + units.new.spent ≡ units.old.left + units.old.spent }
    ensures spends { units.new.left ≤ units.old.left }
{
    if depth > MAX_HEIGHT - store.height(&t) {
        return Err(Stop::Deep);
    }
    match store.look(&t) {
        Node::App(f, u) => match filling_at(store, sig, ids, t, delta, depth, whole, units.left) {
            Some(filling) => several_turn(alloc, store, sig, t, filling, delta, depth, units),
            None => application_turn(alloc, store, sig, ids, t, f, u, delta, depth, units),
        },
        Node::Let(_, v, b) => let_turn(alloc, store, sig, t, v, b, delta, depth, units),
        Node::Const(n) => unfold_in(store, sig, ids, t, n, delta, depth, units),
        Node::Var(_)
        | Node::Sort(_)
        | Node::Pi(_, _)
        | Node::Lam(_, _)
        | Node::Fam(_)
        | Node::Con(_, _)
        | Node::Elim(_, _)
        | Node::AxiomK(_, _) => Ok(symbol(t)),
    }
}

/// An application, whose function part is reduced first.
#[cycle(reduce)]
#[tactic(auto, using(crate::proofs::Inside::inside_laws, crate::proofs::Ways::way_laws, crate::proofs::Forming::form_laws, crate::proofs::Standing::stands_laws))]
fn application_turn<S: TermStore>(
    alloc: Global,
    store: &mut S,
    sig: &Signature,
    ids: &EntryIds<S::Id>,
    t: S::Id,
    f: S::Id,
    u: S::Id,
    delta: bool,
    depth: u32,
    units: &mut Units,
) -> Result<Turn<S::Id>, Stop>
    requires signature { IsScopedSignature sig.now }
    requires ids { Stands (S.held store.old) sig.now.entries ids.now }
    requires live { IsTrue ((S.held store.old).live t) }
    requires f_live { IsTrue ((S.held store.old).live f) }
    requires u_live { IsTrue ((S.held store.old).live u) }
    requires whole { ((S.held store.old).tree t) ≡ (tree.App ((S.held store.old).tree f) ((S.held store.old).tree u)) }
    requires scoped { IsScoped sig.now most_inner_variables (tree.App ((S.held store.old).tree f) ((S.held store.old).tree u)) }
    requires low { depth + tree.height (tree.App ((S.held store.old).tree f) ((S.held store.old).tree u)) ≤ 2000 }
    ensures answer { TurnsIn (S.held store.new).tree (whnf_at sig.now delta depth) result units.new.left (whnf_at sig.now delta depth units.old.left (tree.App ((S.held store.old).tree f) ((S.held store.old).tree u))) }
    ensures form { IfRests result (IsForm (S.held store.new)) }
    ensures stays { IfRests result (λ f. f.moved ≡ false → f.id ≡ t) }
    ensures goes { IfGoes result (λ id. IsTrue ((S.held store.new).live id)) }
    ensures goes_low { IfGoes result (λ id. tree.height ((S.held store.new).tree id) ≤ 2000) }
    ensures reaches { IfGoes result (λ id. Reaches sig.now delta (tree.App ((S.held store.old).tree f) ((S.held store.old).tree u)) ((S.held store.new).tree id)) }
    ensures less { IfGoes result (λ id. units.new.left < units.old.left) }
    ensures extends { Extends (S.held store.old) (S.held store.new) }
    ensures adds { AddsOnly (IsPartOnTheWay sig.now delta (tree.App ((S.held store.old).tree f) ((S.held store.old).tree u))) (S.held store.old) (S.held store.new) }
    ensures full { IsFullOf (IsPartOnTheWay sig.now delta (tree.App ((S.held store.old).tree f) ((S.held store.old).tree u))) (S.held store.new) result }
    ensures sum { units.new.left + units.new.spent ≡ units.old.left + units.old.spent }
    ensures spends { units.new.left ≤ units.old.left }
{
    let form = reduce_in(alloc, store, sig, ids, f, delta, depth + 1, false, units)?;
    apply_in(alloc, store, sig, ids, t, form, u, delta, depth, units)
}

/// The application of a form to `u`; as long as no step was taken it is `t`.
#[cycle(reduce)]
#[tactic(auto, using(crate::proofs::Turning::turn_laws))]
fn apply_in<S: TermStore>(
    alloc: Global,
    store: &mut S,
    sig: &Signature,
    ids: &EntryIds<S::Id>,
    t: S::Id,
    f: Form<S::Id>,
    u: S::Id,
    delta: bool,
    depth: u32,
    units: &mut Units,
) -> Result<Turn<S::Id>, Stop>
    requires signature { IsScopedSignature sig.now }
    requires ids { Stands (S.held store.old) sig.now.entries ids.now }
    requires live { IsTrue ((S.held store.old).live t) }
    requires f { IsForm (S.held store.old) f }
    requires u_live { IsTrue ((S.held store.old).live u) }
    requires whole { f.moved ≡ false → ((S.held store.old).tree t) ≡ (tree.App ((S.held store.old).tree f.id) ((S.held store.old).tree u)) }
    requires scoped { IsScoped sig.now most_inner_variables (tree.App ((S.held store.old).tree f.id) ((S.held store.old).tree u)) }
    requires rests { step_of sig.now delta ((S.held store.old).tree f.id) ≡ None }
    requires low { depth + tree.height (tree.App ((S.held store.old).tree f.id) ((S.held store.old).tree u)) ≤ 2000 }
    ensures answer { TurnsIn (S.held store.new).tree (whnf_at sig.now delta depth) result units.new.left (whnf_at sig.now delta depth units.old.left (tree.App ((S.held store.old).tree f.id) ((S.held store.old).tree u))) }
    ensures form { IfRests result (IsForm (S.held store.new)) }
    ensures stays { IfRests result (λ f. f.moved ≡ false → f.id ≡ t) }
    ensures goes { IfGoes result (λ id. IsTrue ((S.held store.new).live id)) }
    ensures goes_low { IfGoes result (λ id. tree.height ((S.held store.new).tree id) ≤ 2000) }
    ensures reaches { IfGoes result (λ id. Reaches sig.now delta (tree.App ((S.held store.old).tree f.id) ((S.held store.old).tree u)) ((S.held store.new).tree id)) }
    ensures less { IfGoes result (λ id. units.new.left < units.old.left) }
    ensures extends { Extends (S.held store.old) (S.held store.new) }
    ensures adds { AddsOnly (IsPartOnTheWay sig.now delta (tree.App ((S.held store.old).tree f.id) ((S.held store.old).tree u))) (S.held store.old) (S.held store.new) }
    ensures full { IsFullOf (IsPartOnTheWay sig.now delta (tree.App ((S.held store.old).tree f.id) ((S.held store.old).tree u))) (S.held store.new) result }
    ensures sum { units.new.left + units.new.spent ≡ units.old.left + units.old.spent }
    ensures spends { units.new.left ≤ units.old.left }
{
    match body_of_function(store, f.id) {
        Some(b) => beta_turn(alloc, store, sig, t, f.id, b, u, delta, depth, units),
        None => eliminate_at(alloc, store, sig, ids, t, f, u, delta, depth, units),
    }
}

/// The application of a form that is no function to `u`.
#[cycle(reduce)]
#[tactic(auto, using(crate::proofs::Turning::turn_laws))]
fn eliminate_at<S: TermStore>(
    alloc: Global,
    store: &mut S,
    sig: &Signature,
    ids: &EntryIds<S::Id>,
    t: S::Id,
    f: Form<S::Id>,
    u: S::Id,
    delta: bool,
    depth: u32,
    units: &mut Units,
) -> Result<Turn<S::Id>, Stop>
    requires signature { IsScopedSignature sig.now }
    requires ids { Stands (S.held store.old) sig.now.entries ids.now }
    requires live { IsTrue ((S.held store.old).live t) }
    requires f { IsForm (S.held store.old) f }
    requires u_live { IsTrue ((S.held store.old).live u) }
    requires whole { f.moved ≡ false → ((S.held store.old).tree t) ≡ (tree.App ((S.held store.old).tree f.id) ((S.held store.old).tree u)) }
    requires scoped { IsScoped sig.now most_inner_variables (tree.App ((S.held store.old).tree f.id) ((S.held store.old).tree u)) }
    requires rests { step_of sig.now delta ((S.held store.old).tree f.id) ≡ None }
    requires plain { function_body ((S.held store.old).tree f.id) ≡ None }
    requires low { depth + tree.height (tree.App ((S.held store.old).tree f.id) ((S.held store.old).tree u)) ≤ 2000 }
    ensures answer { TurnsIn (S.held store.new).tree (whnf_at sig.now delta depth) result units.new.left (whnf_at sig.now delta depth units.old.left (tree.App ((S.held store.old).tree f.id) ((S.held store.old).tree u))) }
    ensures form { IfRests result (IsForm (S.held store.new)) }
    ensures stays { IfRests result (λ f. f.moved ≡ false → f.id ≡ t) }
    ensures goes { IfGoes result (λ id. IsTrue ((S.held store.new).live id)) }
    ensures goes_low { IfGoes result (λ id. tree.height ((S.held store.new).tree id) ≤ 2000) }
    ensures reaches { IfGoes result (λ id. Reaches sig.now delta (tree.App ((S.held store.old).tree f.id) ((S.held store.old).tree u)) ((S.held store.new).tree id)) }
    ensures less { IfGoes result (λ id. units.new.left < units.old.left) }
    ensures extends { Extends (S.held store.old) (S.held store.new) }
    ensures adds { AddsOnly (IsPartOnTheWay sig.now delta (tree.App ((S.held store.old).tree f.id) ((S.held store.old).tree u))) (S.held store.old) (S.held store.new) }
    ensures full { IsFullOf (IsPartOnTheWay sig.now delta (tree.App ((S.held store.old).tree f.id) ((S.held store.old).tree u))) (S.held store.new) result }
    ensures sum { units.new.left + units.new.spent ≡ units.old.left + units.old.spent }
    ensures spends { units.new.left ≤ units.old.left }
{
    if awaits_scrutinee_in(store, sig, f) {
        scrutinee_turn(alloc, store, sig, ids, t, f, u, delta, depth, units)
    } else {
        rest_turn(store, sig, t, f, u, f.moved, delta, depth, units)
    }
}

/// A form that awaits its scrutinee, at a term that is reduced first.
#[cycle(reduce)]
#[tactic(auto, using(crate::proofs::Inside::inside_laws, crate::proofs::Ways::way_laws, crate::proofs::Forming::form_laws, crate::proofs::Standing::stands_laws))]
fn scrutinee_turn<S: TermStore>(
    alloc: Global,
    store: &mut S,
    sig: &Signature,
    ids: &EntryIds<S::Id>,
    t: S::Id,
    f: Form<S::Id>,
    u: S::Id,
    delta: bool,
    depth: u32,
    units: &mut Units,
) -> Result<Turn<S::Id>, Stop>
    requires signature { IsScopedSignature sig.now }
    requires ids { Stands (S.held store.old) sig.now.entries ids.now }
    requires live { IsTrue ((S.held store.old).live t) }
    requires f { IsForm (S.held store.old) f }
    requires u_live { IsTrue ((S.held store.old).live u) }
    requires whole { f.moved ≡ false → ((S.held store.old).tree t) ≡ (tree.App ((S.held store.old).tree f.id) ((S.held store.old).tree u)) }
    requires scoped { IsScoped sig.now most_inner_variables (tree.App ((S.held store.old).tree f.id) ((S.held store.old).tree u)) }
    requires rests { step_of sig.now delta ((S.held store.old).tree f.id) ≡ None }
    requires plain { function_body ((S.held store.old).tree f.id) ≡ None }
    requires awaits { awaits_scrutinee sig.now (head_of ((S.held store.old).tree f.id)) (spine_of ((S.held store.old).tree f.id)) ≡ true }
    requires low { depth + tree.height (tree.App ((S.held store.old).tree f.id) ((S.held store.old).tree u)) ≤ 2000 }
    ensures answer { TurnsIn (S.held store.new).tree (whnf_at sig.now delta depth) result units.new.left (whnf_at sig.now delta depth units.old.left (tree.App ((S.held store.old).tree f.id) ((S.held store.old).tree u))) }
    ensures form { IfRests result (IsForm (S.held store.new)) }
    ensures stays { IfRests result (λ f. f.moved ≡ false → f.id ≡ t) }
    ensures goes { IfGoes result (λ id. IsTrue ((S.held store.new).live id)) }
    ensures goes_low { IfGoes result (λ id. tree.height ((S.held store.new).tree id) ≤ 2000) }
    ensures reaches { IfGoes result (λ id. Reaches sig.now delta (tree.App ((S.held store.old).tree f.id) ((S.held store.old).tree u)) ((S.held store.new).tree id)) }
    ensures less { IfGoes result (λ id. units.new.left < units.old.left) }
    ensures extends { Extends (S.held store.old) (S.held store.new) }
    ensures adds { AddsOnly (IsPartOnTheWay sig.now delta (tree.App ((S.held store.old).tree f.id) ((S.held store.old).tree u))) (S.held store.old) (S.held store.new) }
    ensures full { IsFullOf (IsPartOnTheWay sig.now delta (tree.App ((S.held store.old).tree f.id) ((S.held store.old).tree u))) (S.held store.new) result }
    ensures sum { units.new.left + units.new.spent ≡ units.old.left + units.old.spent }
    ensures spends { units.new.left ≤ units.old.left }
{
    let u = reduce_in(alloc, store, sig, ids, u, delta, depth + 1, true, units)?;
    meet_in(alloc, store, sig, ids, t, f, u, delta, depth, units)
}
