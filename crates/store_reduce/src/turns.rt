ghost use Rattle.std.specs.Prelude.{◌≡◌, ◌≤◌, ◌<◌, ◌+◌, ◌^◌, ◌||◌, IsTrue, IfOk, IfSome, None, Some, true, false, length, option_map};
ghost use Rattle.core_terms.specs.Bounds.{most_inner_variables};
ghost use Rattle.term_pool.specs.Held.{Extends, AddsParts, IsFullFor};
ghost use Rattle.theory.specs.SignatureScopes.{IsScoped};
ghost use Rattle.theory.specs.Spines.{head_of, spine_of};
ghost use Rattle.theory.specs.Terms as tree;
ghost use Rattle.kernel_reduce.specs.Steps.{awaits_scrutinee, step_of};
ghost use Rattle.kernel_reduce.specs.Tests.{meets};
ghost use Rattle.store_reduce.specs.Additions.{AddsOnly, IsFullOf};
ghost use Rattle.core_sig.specs.EntryIds.{Stands};
ghost use Rattle.store_reduce.specs.Formed.{IsPartOnTheWay, Reaches};
ghost use Rattle.store_reduce.specs.Forms.{IsForm, IfGoes, IfRests, RestsIn, TurnsIn, contracted, function_body};
ghost use Rattle.store_reduce.specs.Places.{whnf_at};
ghost use Rattle.store_reduce.specs.declared.form.Turn.TheVariants.{Rests};

use crate::contracting::contract_in;
use crate::form::{Form, Turn};
use crate::lookup::body_in;
use crate::testing::contracts_in;
use core_sig::{EntryIds, Signature};
use core_terms::{Stop, Units};
use std::alloc::Global;
use term_pool::{Node, TermStore, subst_in};

/// A term that is no application and takes no head step.
pub(crate) fn symbol<I: Copy>(t: I) -> Turn<I>
    ensures { result ≡ Rests (record { id = t; head = t; count = 0; moved = false }) }
{
    Turn::Rests(Form {
        id: t,
        head: t,
        count: 0,
        moved: false,
    })
}

/// The body of a function.
pub(crate) fn body_of_function<S: TermStore>(store: &S, t: S::Id) -> Option<S::Id>
    requires { IsTrue ((S.held store.now).live t) }
    ensures body { option_map (S.held store.now).tree result ≡ function_body ((S.held store.now).tree t) }
    ensures live { IfSome result (λ b. IsTrue ((S.held store.now).live b)) }
{
    match store.look(&t) {
        Node::Lam(_, b) => Some(b),
        _ => None,
    }
}

/// A definition in a term, that is put for its variable, for one unit.
#[tactic(auto, using(crate::proofs::PlaceLaws::place_laws, crate::proofs::Ways::way_laws, crate::proofs::Adding::adding_laws))]
pub(crate) fn let_turn<S: TermStore>(
    alloc: Global,
    store: &mut S,
    sig: &Signature,
    t: S::Id,
    v: S::Id,
    b: S::Id,
    delta: bool,
    depth: u32,
    units: &mut Units,
) -> Result<Turn<S::Id>, Stop>
    requires v_live { IsTrue ((S.held store.old).live v) }
    requires b_live { IsTrue ((S.held store.old).live b) }
    requires v_free { tree.free_of ((S.held store.old).tree v) ≤ most_inner_variables }
    requires step { step_of sig.now delta ((S.held store.old).tree t) ≡ Some (tree.subst ((S.held store.old).tree b) 0 ((S.held store.old).tree v)) }
    requires low { depth + tree.height ((S.held store.old).tree t) ≤ 2000 }
    ensures answer { TurnsIn (S.held store.new).tree (whnf_at sig.now delta depth) result units.new.left (whnf_at sig.now delta depth units.old.left ((S.held store.old).tree t)) }
    ensures form { IfRests result (IsForm (S.held store.new)) }
    ensures stays { IfRests result (λ f. f.moved ≡ false → f.id ≡ t) }
    ensures goes { IfGoes result (λ id. IsTrue ((S.held store.new).live id)) }
    ensures goes_low { IfGoes result (λ id. tree.height ((S.held store.new).tree id) ≤ 2000) }
    ensures reaches { IfGoes result (λ id. Reaches sig.now delta ((S.held store.old).tree t) ((S.held store.new).tree id)) }
    ensures less { IfGoes result (λ id. units.new.left < units.old.left) }
    ensures extends { Extends (S.held store.old) (S.held store.new) }
    ensures adds { AddsOnly (IsPartOnTheWay sig.now delta ((S.held store.old).tree t)) (S.held store.old) (S.held store.new) }
    ensures full { IsFullOf (IsPartOnTheWay sig.now delta ((S.held store.old).tree t)) (S.held store.new) result }
    ensures sum { units.new.left + units.new.spent ≡ units.old.left + units.old.spent }
    ensures spends { units.new.left ≤ units.old.left }
{
    units.spend()?;
    Ok(Turn::Goes(subst_in(alloc, store, b, 0, v)?))
}

/// A constant, that goes on with its body where it has one.
#[tactic(auto, using(crate::proofs::PlaceLaws::place_laws, crate::proofs::Ways::way_laws, crate::proofs::Adding::adding_laws))]
pub(crate) fn unfold_in<S: TermStore>(
    store: &mut S,
    sig: &Signature,
    ids: &EntryIds<S::Id>,
    t: S::Id,
    n: u32,
    delta: bool,
    depth: u32,
    units: &mut Units,
) -> Result<Turn<S::Id>, Stop>
    requires live { IsTrue ((S.held store.old).live t) }
    requires ids { Stands (S.held store.old) sig.now.entries ids.now }
    requires constant { ((S.held store.old).tree t) ≡ tree.Const n }
    requires low { depth + tree.height ((S.held store.old).tree t) ≤ 2000 }
    ensures answer { TurnsIn (S.held store.new).tree (whnf_at sig.now delta depth) result units.new.left (whnf_at sig.now delta depth units.old.left ((S.held store.old).tree t)) }
    ensures form { IfRests result (IsForm (S.held store.new)) }
    ensures stays { IfRests result (λ f. f.moved ≡ false → f.id ≡ t) }
    ensures goes { IfGoes result (λ id. IsTrue ((S.held store.new).live id)) }
    ensures goes_low { IfGoes result (λ id. tree.height ((S.held store.new).tree id) ≤ 2000) }
    ensures reaches { IfGoes result (λ id. Reaches sig.now delta ((S.held store.old).tree t) ((S.held store.new).tree id)) }
    ensures less { IfGoes result (λ id. units.new.left < units.old.left) }
    ensures extends { Extends (S.held store.old) (S.held store.new) }
    ensures adds { AddsOnly (IsPartOnTheWay sig.now delta ((S.held store.old).tree t)) (S.held store.old) (S.held store.new) }
    ensures full { IsFullOf (IsPartOnTheWay sig.now delta ((S.held store.old).tree t)) (S.held store.new) result }
    ensures sum { units.new.left + units.new.spent ≡ units.old.left + units.old.spent }
    ensures spends { units.new.left ≤ units.old.left }
{
    if !delta {
        return Ok(symbol(t));
    }
    match body_in(store, sig, ids, n) {
        Some(body) => {
            let _low = store.height(&body);
            units.spend()?;
            Ok(Turn::Goes(body))
        }
        None => Ok(symbol(t)),
    }
}

/// A function with body `b` at `u`, for one unit.
#[tactic(auto, using(crate::proofs::PlaceLaws::place_laws, crate::proofs::Ways::way_laws, crate::proofs::Adding::adding_laws))]
pub(crate) fn beta_turn<S: TermStore>(
    alloc: Global,
    store: &mut S,
    sig: &Signature,
    t: S::Id,
    f: S::Id,
    b: S::Id,
    u: S::Id,
    delta: bool,
    depth: u32,
    units: &mut Units,
) -> Result<Turn<S::Id>, Stop>
    requires u_live { IsTrue ((S.held store.old).live u) }
    requires b_live { IsTrue ((S.held store.old).live b) }
    requires u_free { tree.free_of ((S.held store.old).tree u) ≤ most_inner_variables }
    requires step { step_of sig.now delta (tree.App ((S.held store.old).tree f) ((S.held store.old).tree u)) ≡ Some (tree.subst ((S.held store.old).tree b) 0 ((S.held store.old).tree u)) }
    requires low { depth + tree.height (tree.App ((S.held store.old).tree f) ((S.held store.old).tree u)) ≤ 2000 }
    ensures answer { TurnsIn (S.held store.new).tree (whnf_at sig.now delta depth) result units.new.left (whnf_at sig.now delta depth units.old.left (tree.App ((S.held store.old).tree f) ((S.held store.old).tree u))) }
    ensures form { IfRests result (IsForm (S.held store.new)) }
    ensures stays { IfRests result (λ f. f.moved ≡ false → f.id ≡ t) }
    ensures goes { IfGoes result (λ id. IsTrue ((S.held store.new).live id)) }
    ensures goes_low { IfGoes result (λ id. tree.height ((S.held store.new).tree id) ≤ 2000) }
    ensures reaches { IfGoes result (λ id. Reaches sig.now delta (tree.App ((S.held store.old).tree f) ((S.held store.old).tree u)) ((S.held store.new).tree id)) }
    ensures less { IfGoes result (λ id. units.new.left < units.old.left) }
    ensures extends { Extends (S.held store.old) (S.held store.new) }
    ensures adds { AddsOnly (IsPartOnTheWay sig.now delta (tree.App ((S.held store.old).tree f) ((S.held store.old).tree u))) (S.held store.old) (S.held store.new) }
    ensures full { IsFullOf (IsPartOnTheWay sig.now delta (tree.App ((S.held store.old).tree f) ((S.held store.old).tree u))) (S.held store.new) result }
    ensures sum { units.new.left + units.new.spent ≡ units.old.left + units.old.spent }
    ensures spends { units.new.left ≤ units.old.left }
{
    units.spend()?;
    Ok(Turn::Goes(subst_in(alloc, store, b, 0, u)?))
}

/// A form that awaits its scrutinee, at the form of this.
#[tactic(auto, using(crate::proofs::Turning::turn_laws))]
pub(crate) fn meet_in<S: TermStore>(
    alloc: Global,
    store: &mut S,
    sig: &Signature,
    ids: &EntryIds<S::Id>,
    t: S::Id,
    f: Form<S::Id>,
    u: Form<S::Id>,
    delta: bool,
    depth: u32,
    units: &mut Units,
) -> Result<Turn<S::Id>, Stop>
    requires ids { Stands (S.held store.old) sig.now.entries ids.now }
    requires live { IsTrue ((S.held store.old).live t) }
    requires f { IsForm (S.held store.old) f }
    requires u { IsForm (S.held store.old) u }
    requires whole { (f.moved || u.moved) ≡ false → ((S.held store.old).tree t) ≡ (tree.App ((S.held store.old).tree f.id) ((S.held store.old).tree u.id)) }
    requires scoped { IsScoped sig.now most_inner_variables (tree.App ((S.held store.old).tree f.id) ((S.held store.old).tree u.id)) }
    requires rests { step_of sig.now delta ((S.held store.old).tree f.id) ≡ None }
    requires plain { function_body ((S.held store.old).tree f.id) ≡ None }
    requires awaits { awaits_scrutinee sig.now (head_of ((S.held store.old).tree f.id)) (spine_of ((S.held store.old).tree f.id)) ≡ true }
    requires u_rests { step_of sig.now delta ((S.held store.old).tree u.id) ≡ None }
    requires low { depth + tree.height (tree.App ((S.held store.old).tree f.id) ((S.held store.old).tree u.id)) ≤ 2000 }
    ensures answer { TurnsIn (S.held store.new).tree (whnf_at sig.now delta depth) result units.new.left (whnf_at sig.now delta depth units.old.left (tree.App ((S.held store.old).tree f.id) ((S.held store.old).tree u.id))) }
    ensures form { IfRests result (IsForm (S.held store.new)) }
    ensures stays { IfRests result (λ f. f.moved ≡ false → f.id ≡ t) }
    ensures goes { IfGoes result (λ id. IsTrue ((S.held store.new).live id)) }
    ensures goes_low { IfGoes result (λ id. tree.height ((S.held store.new).tree id) ≤ 2000) }
    ensures reaches { IfGoes result (λ id. Reaches sig.now delta (tree.App ((S.held store.old).tree f.id) ((S.held store.old).tree u.id)) ((S.held store.new).tree id)) }
    ensures less { IfGoes result (λ id. units.new.left < units.old.left) }
    ensures extends { Extends (S.held store.old) (S.held store.new) }
    ensures adds { AddsOnly (IsPartOnTheWay sig.now delta (tree.App ((S.held store.old).tree f.id) ((S.held store.old).tree u.id))) (S.held store.old) (S.held store.new) }
    ensures full { IsFullOf (IsPartOnTheWay sig.now delta (tree.App ((S.held store.old).tree f.id) ((S.held store.old).tree u.id))) (S.held store.new) result }
    ensures sum { units.new.left + units.new.spent ≡ units.old.left + units.old.spent }
    ensures spends { units.new.left ≤ units.old.left }
{
    if contracts_in(store, sig, f, u) {
        contract_turn(alloc, store, sig, ids, t, f, u, delta, depth, units)
    } else {
        rest_turn(
            store,
            sig,
            t,
            f,
            u.id,
            f.moved || u.moved,
            delta,
            depth,
            units,
        )
    }
}

/// The contraction of a form that awaits its scrutinee, for one unit.
#[tactic(auto, using(crate::proofs::PlaceLaws::place_laws, crate::proofs::Ways::way_laws, crate::proofs::Adding::adding_laws))]
fn contract_turn<S: TermStore>(
    alloc: Global,
    store: &mut S,
    sig: &Signature,
    ids: &EntryIds<S::Id>,
    t: S::Id,
    f: Form<S::Id>,
    u: Form<S::Id>,
    delta: bool,
    depth: u32,
    units: &mut Units,
) -> Result<Turn<S::Id>, Stop>
    requires ids { Stands (S.held store.old) sig.now.entries ids.now }
    requires f { IsForm (S.held store.old) f }
    requires u { IsForm (S.held store.old) u }
    requires scoped { IsScoped sig.now most_inner_variables (tree.App ((S.held store.old).tree f.id) ((S.held store.old).tree u.id)) }
    requires awaits { awaits_scrutinee sig.now (head_of ((S.held store.old).tree f.id)) (spine_of ((S.held store.old).tree f.id)) ≡ true }
    requires meets { meets sig.now (head_of ((S.held store.old).tree f.id)) (head_of ((S.held store.old).tree u.id)) (length (spine_of ((S.held store.old).tree u.id))) ≡ true }
    requires step { step_of sig.now delta (tree.App ((S.held store.old).tree f.id) ((S.held store.old).tree u.id)) ≡ Some (contracted sig.now ((S.held store.old).tree f.id) ((S.held store.old).tree u.id)) }
    requires low { depth + tree.height (tree.App ((S.held store.old).tree f.id) ((S.held store.old).tree u.id)) ≤ 2000 }
    ensures answer { TurnsIn (S.held store.new).tree (whnf_at sig.now delta depth) result units.new.left (whnf_at sig.now delta depth units.old.left (tree.App ((S.held store.old).tree f.id) ((S.held store.old).tree u.id))) }
    ensures form { IfRests result (IsForm (S.held store.new)) }
    ensures stays { IfRests result (λ f. f.moved ≡ false → f.id ≡ t) }
    ensures goes { IfGoes result (λ id. IsTrue ((S.held store.new).live id)) }
    ensures goes_low { IfGoes result (λ id. tree.height ((S.held store.new).tree id) ≤ 2000) }
    ensures reaches { IfGoes result (λ id. Reaches sig.now delta (tree.App ((S.held store.old).tree f.id) ((S.held store.old).tree u.id)) ((S.held store.new).tree id)) }
    ensures less { IfGoes result (λ id. units.new.left < units.old.left) }
    ensures extends { Extends (S.held store.old) (S.held store.new) }
    ensures adds { AddsOnly (IsPartOnTheWay sig.now delta (tree.App ((S.held store.old).tree f.id) ((S.held store.old).tree u.id))) (S.held store.old) (S.held store.new) }
    ensures full { IsFullOf (IsPartOnTheWay sig.now delta (tree.App ((S.held store.old).tree f.id) ((S.held store.old).tree u.id))) (S.held store.new) result }
    ensures sum { units.new.left + units.new.spent ≡ units.old.left + units.old.spent }
    ensures spends { units.new.left ≤ units.old.left }
{
    units.spend()?;
    Ok(Turn::Goes(contract_in(alloc, store, sig, ids, f, u)?))
}

/// The application of a form to `u`, that takes no head step.
#[tactic(auto, using(crate::proofs::PlaceLaws::place_laws, crate::proofs::Ways::way_laws, crate::proofs::Adding::adding_laws, crate::proofs::Forming::form_laws))]
pub(crate) fn rest_turn<S: TermStore>(
    store: &mut S,
    sig: &Signature,
    t: S::Id,
    f: Form<S::Id>,
    u: S::Id,
    moved: bool,
    delta: bool,
    depth: u32,
    units: &mut Units,
) -> Result<Turn<S::Id>, Stop>
    requires live { IsTrue ((S.held store.old).live t) }
    requires f { IsForm (S.held store.old) f }
    requires u_live { IsTrue ((S.held store.old).live u) }
    requires whole { moved ≡ false → ((S.held store.old).tree t) ≡ (tree.App ((S.held store.old).tree f.id) ((S.held store.old).tree u)) }
    requires rests { step_of sig.now delta (tree.App ((S.held store.old).tree f.id) ((S.held store.old).tree u)) ≡ None }
    requires low { depth + tree.height (tree.App ((S.held store.old).tree f.id) ((S.held store.old).tree u)) ≤ 2000 }
    ensures answer { TurnsIn (S.held store.new).tree (whnf_at sig.now delta depth) result units.new.left (whnf_at sig.now delta depth units.old.left (tree.App ((S.held store.old).tree f.id) ((S.held store.old).tree u))) }
    ensures form { IfRests result (IsForm (S.held store.new)) }
    ensures stays { IfRests result (λ f. f.moved ≡ false → f.id ≡ t) }
    ensures goes { IfGoes result (λ id. IsTrue ((S.held store.new).live id)) }
    ensures goes_low { IfGoes result (λ id. tree.height ((S.held store.new).tree id) ≤ 2000) }
    ensures reaches { IfGoes result (λ id. Reaches sig.now delta (tree.App ((S.held store.old).tree f.id) ((S.held store.old).tree u)) ((S.held store.new).tree id)) }
    ensures less { IfGoes result (λ id. units.new.left < units.old.left) }
    ensures extends { Extends (S.held store.old) (S.held store.new) }
    ensures adds { AddsOnly (IsPartOnTheWay sig.now delta (tree.App ((S.held store.old).tree f.id) ((S.held store.old).tree u))) (S.held store.old) (S.held store.new) }
    ensures full { IsFullOf (IsPartOnTheWay sig.now delta (tree.App ((S.held store.old).tree f.id) ((S.held store.old).tree u))) (S.held store.new) result }
    ensures sum { units.new.left + units.new.spent ≡ units.old.left + units.old.spent }
    ensures spends { units.new.left ≤ units.old.left }
{
    Ok(Turn::Rests(rest_in(store, t, f, u, moved)?))
}

/// The form of the application `id` of a form to an argument.
pub(crate) fn applied_form<I: Copy>(id: I, f: Form<I>, moved: bool) -> Form<I>
    requires { f.count < 2 ^ 31 }
    ensures { result ≡ record { id = id; head = f.head; count = f.count + 1; moved = moved } }
{
    Form {
        id,
        head: f.head,
        count: f.count + 1,
        moved,
    }
}

/// The application of a form to `u`, that takes no head step; as long as no step was taken it is `t`.
#[tactic(auto, using(crate::proofs::Forming::form_laws))]
fn rest_in<S: TermStore>(
    store: &mut S,
    t: S::Id,
    f: Form<S::Id>,
    u: S::Id,
    moved: bool,
) -> Result<Form<S::Id>, Stop>
    requires live { IsTrue ((S.held store.old).live t) }
    requires f { IsForm (S.held store.old) f }
    requires u_live { IsTrue ((S.held store.old).live u) }
    requires whole { moved ≡ false → ((S.held store.old).tree t) ≡ (tree.App ((S.held store.old).tree f.id) ((S.held store.old).tree u)) }
    requires low { tree.height (tree.App ((S.held store.old).tree f.id) ((S.held store.old).tree u)) ≤ 2000 }
    ensures tree { RestsIn (S.held store.new) result (tree.App ((S.held store.old).tree f.id) ((S.held store.old).tree u)) }
    ensures stays { IfOk result (λ g. g.moved ≡ false → g.id ≡ t) }
    ensures full { IsFullFor (S.held store.new) result (tree.App ((S.held store.old).tree f.id) ((S.held store.old).tree u)) }
    ensures extends { Extends (S.held store.old) (S.held store.new) }
    ensures adds { AddsParts (S.held store.old) (S.held store.new) (tree.App ((S.held store.old).tree f.id) ((S.held store.old).tree u)) }
{
    if !moved {
        return Ok(applied_form(t, f, false));
    }
    let id = store.make(Node::App(f.id, u))?;
    Ok(applied_form(id, f, true))
}
