ghost use Rattle.std.specs.Prelude.{◌≡◌, ◌≤◌, ◌+◌, IsTrue, None, Some, true, false, length};
ghost use Rattle.core_terms.specs.Bounds.{most_inner_variables};
ghost use Rattle.term_pool.specs.Held.{Extends};
ghost use Rattle.theory.specs.SignatureScopes.{IsScoped, IsScopedSignature};
ghost use Rattle.theory.specs.Spines.{head_of, spine_of};
ghost use Rattle.theory.specs.Terms as tree;
ghost use Rattle.kernel_reduce.specs.Reduction.{step_taken};
ghost use Rattle.kernel_reduce.specs.Steps.{awaits_scrutinee, step_of};
ghost use Rattle.kernel_reduce.specs.Tests.{meets};
ghost use Rattle.store_reduce.specs.Additions.{AddsOnly, IsFullOf};
ghost use Rattle.core_sig.specs.EntryIds.{Stands};
ghost use Rattle.store_reduce.specs.Formed.{IsStepPart};
ghost use Rattle.store_reduce.specs.Forms.{IsForm, IfStays, IfSteps, StepsIn, contracted, function_body};
ghost use Rattle.store_reduce.specs.declared.form.Stepped.TheVariants.{Stays};

use crate::contracting::contract_in;
use crate::form::{Form, Stepped};
use crate::lookup::body_in;
use crate::testing::{awaits_scrutinee_in, contracts_in};
use crate::turns::{applied_form, body_of_function};
use core_sig::{EntryIds, Signature};
use core_terms::{Stop, Units};
use std::alloc::Global;
use term_pool::{Node, TermStore, subst_in};

/// The step of a term, where it takes one.
#[cycle(step)]
#[tactic(auto, using(crate::proofs::TakenSteps::taken_laws, crate::proofs::OneStep::one_step_laws, crate::proofs::Adding::adding_laws))]
pub(crate) fn step_in<S: TermStore>(
    alloc: Global,
    store: &mut S,
    sig: &Signature,
    ids: &EntryIds<S::Id>,
    t: S::Id,
    delta: bool,
    units: &mut Units,
) -> Result<Stepped<S::Id>, Stop>
    requires live { IsTrue ((S.held store.old).live t) }
    requires signature { IsScopedSignature sig.now }
    requires ids { Stands (S.held store.old) sig.now.entries ids.now }
    requires scoped { IsScoped sig.now most_inner_variables ((S.held store.old).tree t) }
    ensures answer { StepsIn (S.held store.new).tree result units.new.left (step_taken (step_of sig.now delta ((S.held store.old).tree t)) units.old.left) }
    ensures form { IfStays result (IsForm (S.held store.new)) }
    ensures stays { IfStays result (λ f. f.id ≡ t) }
    ensures steps { IfSteps result (λ id. IsTrue ((S.held store.new).live id)) }
    ensures extends { Extends (S.held store.old) (S.held store.new) }
    ensures adds { AddsOnly (IsStepPart sig.now delta ((S.held store.old).tree t)) (S.held store.old) (S.held store.new) }
    ensures full { IsFullOf (IsStepPart sig.now delta ((S.held store.old).tree t)) (S.held store.new) result }
    ensures sum { units.new.left + units.new.spent ≡ units.old.left + units.old.spent }
    ensures spends { units.new.left ≤ units.old.left }
{
    match store.look(&t) {
        Node::App(f, u) => application_step_in(alloc, store, sig, ids, t, f, u, delta, units),
        Node::Let(_, v, b) => subst_step_in(alloc, store, sig, t, b, v, delta, units),
        Node::Const(n) => unfold_step_in(store, sig, ids, t, n, delta, units),
        Node::Var(_)
        | Node::Sort(_)
        | Node::Pi(_, _)
        | Node::Lam(_, _)
        | Node::Fam(_)
        | Node::Con(_, _)
        | Node::Elim(_, _)
        | Node::AxiomK(_, _) => Ok(still(t)),
    }
}

/// A term that is no application and takes no step.
fn still<I: Copy>(t: I) -> Stepped<I>
    ensures { result ≡ Stays (record { id = t; head = t; count = 0; moved = false }) }
{
    Stepped::Stays(Form {
        id: t,
        head: t,
        count: 0,
        moved: false,
    })
}

/// The step of a term that puts `v` for a variable of `b`, for one unit.
#[tactic(auto, using(crate::proofs::TakenSteps::taken_laws, crate::proofs::OneStep::one_step_laws, crate::proofs::Adding::adding_laws))]
fn subst_step_in<S: TermStore>(
    alloc: Global,
    store: &mut S,
    sig: &Signature,
    t: S::Id,
    b: S::Id,
    v: S::Id,
    delta: bool,
    units: &mut Units,
) -> Result<Stepped<S::Id>, Stop>
    requires v_live { IsTrue ((S.held store.old).live v) }
    requires b_live { IsTrue ((S.held store.old).live b) }
    requires v_free { tree.free_of ((S.held store.old).tree v) ≤ most_inner_variables }
    requires step { step_of sig.now delta ((S.held store.old).tree t) ≡ Some (tree.subst ((S.held store.old).tree b) 0 ((S.held store.old).tree v)) }
    ensures answer { StepsIn (S.held store.new).tree result units.new.left (step_taken (step_of sig.now delta ((S.held store.old).tree t)) units.old.left) }
    ensures form { IfStays result (IsForm (S.held store.new)) }
    ensures stays { IfStays result (λ f. f.id ≡ t) }
    ensures steps { IfSteps result (λ id. IsTrue ((S.held store.new).live id)) }
    ensures extends { Extends (S.held store.old) (S.held store.new) }
    ensures adds { AddsOnly (IsStepPart sig.now delta ((S.held store.old).tree t)) (S.held store.old) (S.held store.new) }
    ensures full { IsFullOf (IsStepPart sig.now delta ((S.held store.old).tree t)) (S.held store.new) result }
    ensures sum { units.new.left + units.new.spent ≡ units.old.left + units.old.spent }
    ensures spends { units.new.left ≤ units.old.left }
{
    units.spend()?;
    Ok(Stepped::Steps(subst_in(alloc, store, b, 0, v)?))
}

/// The step of a constant to its body, where it has one.
#[tactic(auto, using(crate::proofs::TakenSteps::taken_laws, crate::proofs::OneStep::one_step_laws, crate::proofs::Adding::adding_laws))]
fn unfold_step_in<S: TermStore>(
    store: &mut S,
    sig: &Signature,
    ids: &EntryIds<S::Id>,
    t: S::Id,
    n: u32,
    delta: bool,
    units: &mut Units,
) -> Result<Stepped<S::Id>, Stop>
    requires live { IsTrue ((S.held store.old).live t) }
    requires ids { Stands (S.held store.old) sig.now.entries ids.now }
    requires constant { ((S.held store.old).tree t) ≡ tree.Const n }
    ensures answer { StepsIn (S.held store.new).tree result units.new.left (step_taken (step_of sig.now delta ((S.held store.old).tree t)) units.old.left) }
    ensures form { IfStays result (IsForm (S.held store.new)) }
    ensures stays { IfStays result (λ f. f.id ≡ t) }
    ensures steps { IfSteps result (λ id. IsTrue ((S.held store.new).live id)) }
    ensures extends { Extends (S.held store.old) (S.held store.new) }
    ensures adds { AddsOnly (IsStepPart sig.now delta ((S.held store.old).tree t)) (S.held store.old) (S.held store.new) }
    ensures full { IsFullOf (IsStepPart sig.now delta ((S.held store.old).tree t)) (S.held store.new) result }
    ensures sum { units.new.left + units.new.spent ≡ units.old.left + units.old.spent }
    ensures spends { units.new.left ≤ units.old.left }
{
    if !delta {
        return Ok(still(t));
    }
    match body_in(store, sig, ids, n) {
        Some(body) => {
            let _low = store.height(&body);
            units.spend()?;
            Ok(Stepped::Steps(body))
        }
        None => Ok(still(t)),
    }
}

/// The step of an application, that of its function part first.
#[cycle(step)]
#[tactic(auto, using(crate::proofs::StepPlaces::step_place_laws, crate::proofs::OneStep::step_part_laws, crate::proofs::OneStep::one_step_laws, crate::proofs::Adding::adding_laws, crate::proofs::Forming::form_laws, crate::proofs::Standing::stands_laws))]
fn application_step_in<S: TermStore>(
    alloc: Global,
    store: &mut S,
    sig: &Signature,
    ids: &EntryIds<S::Id>,
    t: S::Id,
    f: S::Id,
    u: S::Id,
    delta: bool,
    units: &mut Units,
) -> Result<Stepped<S::Id>, Stop>
    requires live { IsTrue ((S.held store.old).live t) }
    requires signature { IsScopedSignature sig.now }
    requires ids { Stands (S.held store.old) sig.now.entries ids.now }
    requires f_live { IsTrue ((S.held store.old).live f) }
    requires u_live { IsTrue ((S.held store.old).live u) }
    requires whole { ((S.held store.old).tree t) ≡ (tree.App ((S.held store.old).tree f) ((S.held store.old).tree u)) }
    requires scoped { IsScoped sig.now most_inner_variables ((S.held store.old).tree t) }
    requires low { tree.height ((S.held store.old).tree t) ≤ 2000 }
    ensures answer { StepsIn (S.held store.new).tree result units.new.left (step_taken (step_of sig.now delta ((S.held store.old).tree t)) units.old.left) }
    ensures form { IfStays result (IsForm (S.held store.new)) }
    ensures stays { IfStays result (λ f. f.id ≡ t) }
    ensures steps { IfSteps result (λ id. IsTrue ((S.held store.new).live id)) }
    ensures extends { Extends (S.held store.old) (S.held store.new) }
    ensures adds { AddsOnly (IsStepPart sig.now delta ((S.held store.old).tree t)) (S.held store.old) (S.held store.new) }
    ensures full { IsFullOf (IsStepPart sig.now delta ((S.held store.old).tree t)) (S.held store.new) result }
    ensures sum { units.new.left + units.new.spent ≡ units.old.left + units.old.spent }
    ensures spends { units.new.left ≤ units.old.left }
{
    let inner = step_in(alloc, store, sig, ids, f, delta, units)?;
    match inner {
        Stepped::Steps(g) => Ok(Stepped::Steps(store.make(Node::App(g, u))?)),
        Stepped::Stays(form) => step_at_in(alloc, store, sig, ids, t, form, u, delta, units),
    }
}

/// The step of `t`, the application of a form to `u`, where it takes one.
#[cycle(step)]
#[tactic(auto, using(crate::proofs::Turning::turn_laws))]
fn step_at_in<S: TermStore>(
    alloc: Global,
    store: &mut S,
    sig: &Signature,
    ids: &EntryIds<S::Id>,
    t: S::Id,
    f: Form<S::Id>,
    u: S::Id,
    delta: bool,
    units: &mut Units,
) -> Result<Stepped<S::Id>, Stop>
    requires live { IsTrue ((S.held store.old).live t) }
    requires signature { IsScopedSignature sig.now }
    requires ids { Stands (S.held store.old) sig.now.entries ids.now }
    requires f { IsForm (S.held store.old) f }
    requires u_live { IsTrue ((S.held store.old).live u) }
    requires rests { step_of sig.now delta ((S.held store.old).tree f.id) ≡ None }
    requires whole { ((S.held store.old).tree t) ≡ (tree.App ((S.held store.old).tree f.id) ((S.held store.old).tree u)) }
    requires scoped { IsScoped sig.now most_inner_variables ((S.held store.old).tree t) }
    requires low { tree.height ((S.held store.old).tree t) ≤ 2000 }
    ensures answer { StepsIn (S.held store.new).tree result units.new.left (step_taken (step_of sig.now delta ((S.held store.old).tree t)) units.old.left) }
    ensures form { IfStays result (IsForm (S.held store.new)) }
    ensures stays { IfStays result (λ f. f.id ≡ t) }
    ensures steps { IfSteps result (λ id. IsTrue ((S.held store.new).live id)) }
    ensures extends { Extends (S.held store.old) (S.held store.new) }
    ensures adds { AddsOnly (IsStepPart sig.now delta ((S.held store.old).tree t)) (S.held store.old) (S.held store.new) }
    ensures full { IsFullOf (IsStepPart sig.now delta ((S.held store.old).tree t)) (S.held store.new) result }
    ensures sum { units.new.left + units.new.spent ≡ units.old.left + units.old.spent }
    ensures spends { units.new.left ≤ units.old.left }
{
    match body_of_function(store, f.id) {
        Some(b) => subst_step_in(alloc, store, sig, t, b, u, delta, units),
        None => eliminate_step_in(alloc, store, sig, ids, t, f, u, delta, units),
    }
}

/// The step of `t`, the application of a form that is no function to `u`.
#[cycle(step)]
#[tactic(auto, using(crate::proofs::TakenSteps::taken_laws, crate::proofs::OneStep::one_step_laws, crate::proofs::Adding::adding_laws, crate::proofs::Turning::turn_laws, crate::proofs::Forming::form_laws))]
fn eliminate_step_in<S: TermStore>(
    alloc: Global,
    store: &mut S,
    sig: &Signature,
    ids: &EntryIds<S::Id>,
    t: S::Id,
    f: Form<S::Id>,
    u: S::Id,
    delta: bool,
    units: &mut Units,
) -> Result<Stepped<S::Id>, Stop>
    requires live { IsTrue ((S.held store.old).live t) }
    requires signature { IsScopedSignature sig.now }
    requires ids { Stands (S.held store.old) sig.now.entries ids.now }
    requires f { IsForm (S.held store.old) f }
    requires u_live { IsTrue ((S.held store.old).live u) }
    requires rests { step_of sig.now delta ((S.held store.old).tree f.id) ≡ None }
    requires plain { function_body ((S.held store.old).tree f.id) ≡ None }
    requires whole { ((S.held store.old).tree t) ≡ (tree.App ((S.held store.old).tree f.id) ((S.held store.old).tree u)) }
    requires scoped { IsScoped sig.now most_inner_variables ((S.held store.old).tree t) }
    requires low { tree.height ((S.held store.old).tree t) ≤ 2000 }
    ensures answer { StepsIn (S.held store.new).tree result units.new.left (step_taken (step_of sig.now delta ((S.held store.old).tree t)) units.old.left) }
    ensures form { IfStays result (IsForm (S.held store.new)) }
    ensures stays { IfStays result (λ f. f.id ≡ t) }
    ensures steps { IfSteps result (λ id. IsTrue ((S.held store.new).live id)) }
    ensures extends { Extends (S.held store.old) (S.held store.new) }
    ensures adds { AddsOnly (IsStepPart sig.now delta ((S.held store.old).tree t)) (S.held store.old) (S.held store.new) }
    ensures full { IsFullOf (IsStepPart sig.now delta ((S.held store.old).tree t)) (S.held store.new) result }
    ensures sum { units.new.left + units.new.spent ≡ units.old.left + units.old.spent }
    ensures spends { units.new.left ≤ units.old.left }
{
    if awaits_scrutinee_in(store, sig, f) {
        scrutinee_step_in(alloc, store, sig, ids, t, f, u, delta, units)
    } else {
        Ok(Stepped::Stays(applied_form(t, f, false)))
    }
}

/// The step of `t`, a form that awaits its scrutinee at `u`: that of `u` first.
#[cycle(step)]
#[tactic(auto, using(crate::proofs::StepPlaces::step_place_laws, crate::proofs::OneStep::step_part_laws, crate::proofs::OneStep::one_step_laws, crate::proofs::Adding::adding_laws, crate::proofs::Forming::form_laws, crate::proofs::Standing::stands_laws))]
fn scrutinee_step_in<S: TermStore>(
    alloc: Global,
    store: &mut S,
    sig: &Signature,
    ids: &EntryIds<S::Id>,
    t: S::Id,
    f: Form<S::Id>,
    u: S::Id,
    delta: bool,
    units: &mut Units,
) -> Result<Stepped<S::Id>, Stop>
    requires live { IsTrue ((S.held store.old).live t) }
    requires signature { IsScopedSignature sig.now }
    requires ids { Stands (S.held store.old) sig.now.entries ids.now }
    requires f { IsForm (S.held store.old) f }
    requires u_live { IsTrue ((S.held store.old).live u) }
    requires rests { step_of sig.now delta ((S.held store.old).tree f.id) ≡ None }
    requires plain { function_body ((S.held store.old).tree f.id) ≡ None }
    requires awaits { awaits_scrutinee sig.now (head_of ((S.held store.old).tree f.id)) (spine_of ((S.held store.old).tree f.id)) ≡ true }
    requires whole { ((S.held store.old).tree t) ≡ (tree.App ((S.held store.old).tree f.id) ((S.held store.old).tree u)) }
    requires scoped { IsScoped sig.now most_inner_variables ((S.held store.old).tree t) }
    requires low { tree.height ((S.held store.old).tree t) ≤ 2000 }
    ensures answer { StepsIn (S.held store.new).tree result units.new.left (step_taken (step_of sig.now delta ((S.held store.old).tree t)) units.old.left) }
    ensures form { IfStays result (IsForm (S.held store.new)) }
    ensures stays { IfStays result (λ f. f.id ≡ t) }
    ensures steps { IfSteps result (λ id. IsTrue ((S.held store.new).live id)) }
    ensures extends { Extends (S.held store.old) (S.held store.new) }
    ensures adds { AddsOnly (IsStepPart sig.now delta ((S.held store.old).tree t)) (S.held store.old) (S.held store.new) }
    ensures full { IsFullOf (IsStepPart sig.now delta ((S.held store.old).tree t)) (S.held store.new) result }
    ensures sum { units.new.left + units.new.spent ≡ units.old.left + units.old.spent }
    ensures spends { units.new.left ≤ units.old.left }
{
    let inner = step_in(alloc, store, sig, ids, u, delta, units)?;
    match inner {
        Stepped::Steps(v) => Ok(Stepped::Steps(store.make(Node::App(f.id, v))?)),
        Stepped::Stays(form) => meet_step_in(alloc, store, sig, ids, t, f, form, delta, units),
    }
}

/// The step of `t`, a form that awaits its scrutinee at one that takes no step.
#[tactic(auto, using(crate::proofs::TakenSteps::taken_laws, crate::proofs::OneStep::one_step_laws, crate::proofs::Adding::adding_laws, crate::proofs::Turning::turn_laws, crate::proofs::Forming::form_laws))]
fn meet_step_in<S: TermStore>(
    alloc: Global,
    store: &mut S,
    sig: &Signature,
    ids: &EntryIds<S::Id>,
    t: S::Id,
    f: Form<S::Id>,
    u: Form<S::Id>,
    delta: bool,
    units: &mut Units,
) -> Result<Stepped<S::Id>, Stop>
    requires live { IsTrue ((S.held store.old).live t) }
    requires ids { Stands (S.held store.old) sig.now.entries ids.now }
    requires f { IsForm (S.held store.old) f }
    requires u { IsForm (S.held store.old) u }
    requires rests { step_of sig.now delta ((S.held store.old).tree f.id) ≡ None }
    requires plain { function_body ((S.held store.old).tree f.id) ≡ None }
    requires awaits { awaits_scrutinee sig.now (head_of ((S.held store.old).tree f.id)) (spine_of ((S.held store.old).tree f.id)) ≡ true }
    requires u_rests { step_of sig.now delta ((S.held store.old).tree u.id) ≡ None }
    requires whole { ((S.held store.old).tree t) ≡ (tree.App ((S.held store.old).tree f.id) ((S.held store.old).tree u.id)) }
    requires scoped { IsScoped sig.now most_inner_variables ((S.held store.old).tree t) }
    requires low { tree.height ((S.held store.old).tree t) ≤ 2000 }
    ensures answer { StepsIn (S.held store.new).tree result units.new.left (step_taken (step_of sig.now delta ((S.held store.old).tree t)) units.old.left) }
    ensures form { IfStays result (IsForm (S.held store.new)) }
    ensures stays { IfStays result (λ f. f.id ≡ t) }
    ensures steps { IfSteps result (λ id. IsTrue ((S.held store.new).live id)) }
    ensures extends { Extends (S.held store.old) (S.held store.new) }
    ensures adds { AddsOnly (IsStepPart sig.now delta ((S.held store.old).tree t)) (S.held store.old) (S.held store.new) }
    ensures full { IsFullOf (IsStepPart sig.now delta ((S.held store.old).tree t)) (S.held store.new) result }
    ensures sum { units.new.left + units.new.spent ≡ units.old.left + units.old.spent }
    ensures spends { units.new.left ≤ units.old.left }
{
    if contracts_in(store, sig, f, u) {
        contract_step_in(alloc, store, sig, ids, t, f, u, delta, units)
    } else {
        Ok(Stepped::Stays(applied_form(t, f, false)))
    }
}

/// The contraction of a form that awaits its scrutinee, for one unit.
#[tactic(auto, using(crate::proofs::TakenSteps::taken_laws, crate::proofs::OneStep::one_step_laws, crate::proofs::Adding::adding_laws))]
fn contract_step_in<S: TermStore>(
    alloc: Global,
    store: &mut S,
    sig: &Signature,
    ids: &EntryIds<S::Id>,
    t: S::Id,
    f: Form<S::Id>,
    u: Form<S::Id>,
    delta: bool,
    units: &mut Units,
) -> Result<Stepped<S::Id>, Stop>
    requires ids { Stands (S.held store.old) sig.now.entries ids.now }
    requires f { IsForm (S.held store.old) f }
    requires u { IsForm (S.held store.old) u }
    requires awaits { awaits_scrutinee sig.now (head_of ((S.held store.old).tree f.id)) (spine_of ((S.held store.old).tree f.id)) ≡ true }
    requires meets { meets sig.now (head_of ((S.held store.old).tree f.id)) (head_of ((S.held store.old).tree u.id)) (length (spine_of ((S.held store.old).tree u.id))) ≡ true }
    requires f_free { tree.free_of ((S.held store.old).tree f.id) ≤ most_inner_variables }
    requires u_free { tree.free_of ((S.held store.old).tree u.id) ≤ most_inner_variables }
    requires step { step_of sig.now delta ((S.held store.old).tree t) ≡ Some (contracted sig.now ((S.held store.old).tree f.id) ((S.held store.old).tree u.id)) }
    ensures answer { StepsIn (S.held store.new).tree result units.new.left (step_taken (step_of sig.now delta ((S.held store.old).tree t)) units.old.left) }
    ensures form { IfStays result (IsForm (S.held store.new)) }
    ensures stays { IfStays result (λ f. f.id ≡ t) }
    ensures steps { IfSteps result (λ id. IsTrue ((S.held store.new).live id)) }
    ensures extends { Extends (S.held store.old) (S.held store.new) }
    ensures adds { AddsOnly (IsStepPart sig.now delta ((S.held store.old).tree t)) (S.held store.old) (S.held store.new) }
    ensures full { IsFullOf (IsStepPart sig.now delta ((S.held store.old).tree t)) (S.held store.new) result }
    ensures sum { units.new.left + units.new.spent ≡ units.old.left + units.old.spent }
    ensures spends { units.new.left ≤ units.old.left }
{
    units.spend()?;
    Ok(Stepped::Steps(contract_in(alloc, store, sig, ids, f, u)?))
}
