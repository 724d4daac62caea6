ghost use Rattle.std.specs.Prelude.{◌≡◌, ◌≤◌, ◌+◌, ◌++◌, ◌∷◌, [], Ok, IfOk, length, map};
ghost use Rattle.core_terms.specs.Answers.{Gives};
ghost use Rattle.core_terms.specs.Meanings.{tele_of, tree_of};
ghost use Rattle.core_sig.specs.Shapes.{argument_shape, constructor_shape};
ghost use Rattle.tele_eq.specs.Items.{AreSmall, AreSmallTerms, items_of};
ghost use Rattle.generators.specs.noconf_gen.Compared as items;
ghost use Rattle.decide_eq.specs.Comparisons as spec;
ghost use Rattle.decide_eq.specs.Comparisons.{confusions_of};
ghost use Rattle.decide_eq.specs.Fitting.{AreNearMembers, FitsConstructor, IsNearFamily, IsNearMember};
ghost use Rattle.decide_eq.specs.PlainFamilies.{decision_for};

use crate::decided_family::DecidedFamily;
use crate::members::{Member, Members, confusion, member_at, members_equal, proved, refuted};
use crate::statements::{EMPTY, decision_of, equal, whole_type};
use core_sig::{Arg, ArgKind, Constructor};
use core_terms::{Items, Run, Stop, Tele, Term, functions, place, variable};
use std::alloc::Global;
use tele_eq::{Item, cong_whole, tele_equations_whole, variables_of_run};

/// The type of argument `at`, where the first argument has the level `start`, at a depth.
fn argument_type(
    alloc: Global,
    d: DecidedFamily,
    start: u32,
    at: u32,
    depth: u32,
    arg: &Arg,
) -> Result<Term, Stop>
    requires params { d.params ≤ 1000 }
    requires at { at ≤ 1000 }
    requires depth { depth ≤ 100000 }
    ensures { Gives tree_of result (Ok (spec.argument_type d start at depth (argument_shape arg.now))) }
{
    let runs = [(0, d.params), (start, at)];
    place(alloc, &runs, d.params + at, depth, &arg.ty)
}

/// That argument `at` is equal on both sides, at a depth.
fn arguments_equal(
    alloc: Global,
    d: DecidedFamily,
    m: Members,
    at: u32,
    depth: u32,
    arg: &Arg,
) -> Result<Term, Stop>
    requires params { d.params ≤ 1000 }
    requires members { AreNearMembers m }
    requires at { at ≤ 1000 }
    requires depth { depth ≤ 100000 }
    ensures { Gives tree_of result (Ok (spec.arguments_equal d m at depth (argument_shape arg.now))) }
{
    let ty = argument_type(alloc, d, m.left.start, at, depth, arg)?;
    let x = variable(depth, m.left.start + at);
    let y = variable(depth, m.right.start + at);
    equal(alloc, d, ty, x, y)
}

/// The arguments, the first of which is over `size` variables of the family's record, as a telescope, after the items that are made.
#[tactic(auto, using(tele_eq::proofs::Growing::growing))]
fn placed_items(
    alloc: Global,
    runs: &[Run],
    size: u32,
    depth: u32,
    args: &[Arg],
    mut made: Items<Item>,
) -> Result<Items<Item>, Stop>
    requires size { size + length args.now ≤ 1000000 }
    requires depth { depth + length args.now ≤ 1000000 }
    ensures { Gives items_of result (Ok (items_of made ++ items.placed_items runs.now size depth (map argument_shape args.now))) }
{
    match args {
        [] => Ok(made),
        [arg, rest @ ..] => {
            let ty = place(alloc, runs, size, depth, &arg.ty)?;
            made.push(Item {
                ty,
                level: arg.level,
            })?;
            placed_items(alloc, runs, size + 1, depth + 1, rest, made)
        }
    }
}

/// The arguments of a constructor as a telescope, at a depth.
fn argument_items(
    alloc: Global,
    params: u32,
    depth: u32,
    con: &Constructor,
) -> Result<Items<Item>, Stop>
    requires fits { FitsConstructor params (constructor_shape con.now) }
    requires depth { depth ≤ 100000 }
    ensures is { Gives items_of result (Ok (items.argument_items params depth (constructor_shape con.now))) }
    ensures small { IfOk result (λ v. AreSmall (items_of v)) }
    ensures few { IfOk result (λ v. length v ≤ 1000) }
{
    let args = con.args.as_slice();
    let runs = [(0, params), (depth, args.len() as u32)];
    placed_items(alloc, &runs, params, depth, args, Items::new(alloc))
}

/// The equations of the arguments of both sides, at a depth.
fn argument_equations(
    alloc: Global,
    d: DecidedFamily,
    m: Members,
    depth: u32,
    con: &Constructor,
) -> Result<Tele, Stop>
    requires members { AreNearMembers m }
    requires fits { FitsConstructor d.params (constructor_shape con.now) }
    requires depth { depth ≤ 100000 }
    ensures { Gives tele_of result (Ok (spec.argument_equations d m depth (constructor_shape con.now))) }
{
    let items = argument_items(alloc, d.params, depth, con)?;
    let left = variables_of_run(alloc, depth, m.left.start, m.left.count)?;
    let right = variables_of_run(alloc, depth, m.right.start, m.left.count)?;
    tele_equations_whole(alloc, &items, &left, &right)
}

/// The entry that decides equality of a family.
fn decision_for(known: &[(u32, u32)], n: u32) -> Term
    ensures { tree_of result ≡ decision_for known.now n }
{
    match known {
        [] => Term::Sort(0),
        [(family, entry), rest @ ..] => {
            if *family == n {
                Term::Const(*entry)
            } else {
                decision_for(rest, n)
            }
        }
    }
}

/// What decides the equality of argument `at`, which is plain and has the type `ty`, at a depth: the decision for a parameter, or that of
/// a family.
fn plain_decision(d: DecidedFamily, known: &[(u32, u32)], at: u32, depth: u32, ty: &Term) -> Term
    requires params { d.params ≤ 1000 }
    requires at { at ≤ 1000 }
    ensures { tree_of result ≡ spec.plain_decision d known.now at depth (tree_of ty.now) }
{
    match ty {
        Term::Var(n) => {
            let parameter = ((d.params + at) as u64).saturating_sub(*n as u64 + 1) as u32;
            variable(depth, d.params + parameter)
        }
        Term::Fam(n) => decision_for(known, *n),
        _ => Term::Sort(0),
    }
}

/// The decision of argument `at`, whose hypothesis has the level `h` where it is recursive, at a depth.
fn argument_decided(
    alloc: Global,
    d: DecidedFamily,
    known: &[(u32, u32)],
    m: Members,
    at: u32,
    h: u32,
    depth: u32,
    arg: &Arg,
) -> Result<Term, Stop>
    requires params { d.params ≤ 1000 }
    requires members { AreNearMembers m }
    requires at { at ≤ 1000 }
    ensures { Gives tree_of result (Ok (spec.argument_decided d known.now m at h depth (argument_shape arg.now))) }
{
    let y = variable(depth, m.right.start + at);
    match arg.kind {
        ArgKind::Plain => {
            let head = plain_decision(d, known, at, depth, &arg.ty);
            let head = Term::new_app(alloc, head, variable(depth, m.left.start + at))?;
            Term::new_app(alloc, head, y)
        }
        ArgKind::Recursive(_) => Term::new_app(alloc, variable(depth, h), y),
    }
}

/// The method for the equations of the arguments where argument `at` is refuted by the variable with the level `refutation`, at a depth.
fn by_arguments(
    alloc: Global,
    d: DecidedFamily,
    m: Members,
    at: u32,
    refutation: u32,
    depth: u32,
    con: &Constructor,
) -> Result<Term, Stop>
    requires members { AreNearMembers m }
    requires fits { FitsConstructor d.params (constructor_shape con.now) }
    requires at { at ≤ 1000 }
    requires depth { depth ≤ 50000 }
    ensures { Gives tree_of result (Ok (spec.by_arguments d m at refutation depth (constructor_shape con.now))) }
{
    let inside = depth + m.left.count;
    let equation = variable(inside, depth + at);
    let end = Term::new_app(alloc, variable(inside, refutation), equation)?;
    let equations = argument_equations(alloc, d, m, depth, con)?.into_vec();
    functions(alloc, equations, end)
}

/// The whole is refuted where argument `at` is, by the variable with the level `refutation`, at a depth.
fn refuted_by(
    alloc: Global,
    d: DecidedFamily,
    m: Members,
    at: u32,
    refutation: u32,
    depth: u32,
    con: &Constructor,
) -> Result<Term, Stop>
    requires family { IsNearFamily d }
    requires members { AreNearMembers m }
    requires fits { FitsConstructor d.params (constructor_shape con.now) }
    requires at { at ≤ 1000 }
    requires depth { depth ≤ 40000 }
    ensures { Gives tree_of result (Ok (spec.refuted_by d (confusions_of d) m at refutation depth (constructor_shape con.now))) }
{
    let inside = depth + 1;
    let method = by_arguments(alloc, d, m, at, refutation, inside, con);
    let body = Term::application_of(alloc, confusion(alloc, d, m, inside), method);
    let why = Term::function_of(alloc, members_equal(alloc, d, m, depth), body);
    refuted(alloc, d, members_equal(alloc, d, m, depth), why)
}

/// The same for each refutation of argument `at`, at a depth.
fn by_refutation(
    alloc: Global,
    d: DecidedFamily,
    m: Members,
    at: u32,
    depth: u32,
    con: &Constructor,
    arg: &Arg,
) -> Result<Term, Stop>
    requires family { IsNearFamily d }
    requires members { AreNearMembers m }
    requires fits { FitsConstructor d.params (constructor_shape con.now) }
    requires at { at ≤ 1000 }
    requires depth { depth ≤ 30000 }
    ensures { Gives tree_of result (Ok (spec.by_refutation d (confusions_of d) m at depth (constructor_shape con.now) (argument_shape arg.now))) }
{
    let claim = arguments_equal(alloc, d, m, at, depth, arg);
    let domain = Term::product_of(alloc, claim, Ok(Term::Fam(EMPTY)));
    let body = refuted_by(alloc, d, m, at, depth, depth + 1, con);
    Term::function_of(alloc, domain, body)
}

/// `D p` as a telescope, at a depth.
fn whole_item(alloc: Global, d: DecidedFamily, depth: u32) -> Result<Items<Item>, Stop>
    requires params { d.params ≤ 1000 }
    requires depth { depth ≤ 100000 }
    ensures is { Gives items_of result (Ok (spec.whole_item d depth)) }
    ensures small { IfOk result (λ v. AreSmall (items_of v)) }
    ensures few { IfOk result (λ v. length v ≤ 1000) }
{
    let ty = whole_type(alloc, d, depth)?;
    let mut items = Items::new(alloc);
    items.push(Item { ty, level: d.level })?;
    Ok(items)
}

/// The constructor at the arguments themselves, whose levels begin with `depth`, after all of them.
fn own_member(alloc: Global, d: DecidedFamily, c: Member, depth: u32) -> Result<Tele, Stop>
    requires family { IsNearFamily d }
    requires member { IsNearMember c }
    requires depth { depth ≤ 10000 }
    ensures is { Gives tele_of result (Ok (spec.own_member d c depth)) }
    ensures small { IfOk result (λ v. AreSmallTerms (tele_of v)) }
{
    let own = Member {
        number: c.number,
        start: depth,
        count: c.count,
    };
    let whole = member_at(alloc, d, own, depth + c.count)?;
    let mut terms = Items::new(alloc);
    terms.push(whole)?;
    Ok(terms)
}

/// The congruence of a constructor along the equations of all its arguments, whose levels begin after the right arguments, at a depth.
fn congruence(
    alloc: Global,
    d: DecidedFamily,
    m: Members,
    depth: u32,
    con: &Constructor,
) -> Result<Term, Stop>
    requires family { IsNearFamily d }
    requires members { AreNearMembers m }
    requires fits { FitsConstructor d.params (constructor_shape con.now) }
    requires depth { depth ≤ 10000 }
    ensures { Gives tree_of result (Ok (spec.congruence d m depth (constructor_shape con.now))) }
{
    let from = argument_items(alloc, d.params, depth, con)?;
    let to = whole_item(alloc, d, depth)?;
    let terms = own_member(alloc, d, m.left, depth)?;
    first_congruence(alloc, &from, &to, &terms, m, depth)
}

/// The first congruence of terms along equations whose levels begin after the right arguments, at a depth.
fn first_congruence(
    alloc: Global,
    from: &Items<Item>,
    to: &Items<Item>,
    terms: &Tele,
    m: Members,
    depth: u32,
) -> Result<Term, Stop>
    requires few_from { length from.now ≤ 1000 }
    requires few_to { length to.now ≤ 1000 }
    requires from { AreSmall (items_of from.now) }
    requires to { AreSmall (items_of to.now) }
    requires terms { AreSmallTerms (tele_of terms.now) }
    requires members { AreNearMembers m }
    requires depth { depth ≤ 10000 }
    ensures { Gives tree_of result (Ok (spec.first_congruence (items_of from.now) (items_of to.now) (tele_of terms.now) m depth)) }
{
    let count = m.left.count;
    let left = variables_of_run(alloc, depth, m.left.start, count)?;
    let right = variables_of_run(alloc, depth, m.right.start, count)?;
    let eqs = variables_of_run(alloc, depth, m.right.start + count, count)?;
    let congruences = cong_whole(alloc, from, to, terms, &left, &right, &eqs)?.into_vec();
    Ok(congruences.into_iter().next().unwrap_or(Term::Sort(0)))
}

/// The motive of an elimination of the decision of argument `at`, at a depth.
fn elimination_motive(
    alloc: Global,
    d: DecidedFamily,
    m: Members,
    at: u32,
    depth: u32,
    arg: &Arg,
) -> Result<Term, Stop>
    requires params { d.params ≤ 1000 }
    requires members { AreNearMembers m }
    requires at { at ≤ 1000 }
    requires depth { depth ≤ 50000 }
    ensures { Gives tree_of result (Ok (spec.elimination_motive d m at depth (argument_shape arg.now))) }
{
    let claim = arguments_equal(alloc, d, m, at, depth, arg)?;
    let whole = members_equal(alloc, d, m, depth + 1)?;
    Term::function_of(
        alloc,
        decision_of(alloc, d, claim),
        decision_of(alloc, d, whole),
    )
}

/// The decision of argument `at` taken apart: where it is proved, `proved` follows under its proof. At a depth.
fn taken_apart(
    alloc: Global,
    d: DecidedFamily,
    known: &[(u32, u32)],
    m: Members,
    at: u32,
    h: u32,
    depth: u32,
    con: &Constructor,
    arg: &Arg,
    proved: Term,
) -> Result<Term, Stop>
    requires family { IsNearFamily d }
    requires members { AreNearMembers m }
    requires fits { FitsConstructor d.params (constructor_shape con.now) }
    requires at { at ≤ 1000 }
    requires depth { depth ≤ 20000 }
    ensures { Gives tree_of result (Ok (spec.taken_apart d (confusions_of d) known.now m at h depth (constructor_shape con.now) (argument_shape arg.now) (tree_of proved))) }
{
    let claim = arguments_equal(alloc, d, m, at, depth, arg)?;
    let first = Term::new_lam(alloc, claim, proved)?;
    let claim = arguments_equal(alloc, d, m, at, depth, arg);
    let head = Term::application_of(alloc, Ok(Term::Elim(d.into, d.level)), claim);
    let head = Term::application_of(alloc, head, elimination_motive(alloc, d, m, at, depth, arg));
    let head = Term::application_of(alloc, head, Ok(first));
    let head = Term::application_of(alloc, head, by_refutation(alloc, d, m, at, depth, con, arg));
    let decision = argument_decided(alloc, d, known, m, at, h, depth, arg);
    Term::application_of(alloc, head, decision)
}

/// The level of the next hypothesis, after an argument.
fn next_hypothesis(h: u32, arg: &Arg) -> u32
    requires { h ≤ 100000 }
    ensures is { result ≡ spec.next_hypothesis h (argument_shape arg.now) }
    ensures near { result ≤ h + 1 }
{
    match arg.kind {
        ArgKind::Plain => h,
        ArgKind::Recursive(_) => h + 1,
    }
}

/// A constructor is compared with itself: `args` are its arguments from `at` on, and the next hypothesis has the level `h`.
pub fn compared(
    alloc: Global,
    d: DecidedFamily,
    known: &[(u32, u32)],
    m: Members,
    at: u32,
    h: u32,
    depth: u32,
    con: &Constructor,
    args: &[Arg],
) -> Result<Term, Stop>
    requires family { IsNearFamily d }
    requires members { AreNearMembers m }
    requires fits { FitsConstructor d.params (constructor_shape con.now) }
    requires at { at + length args.now ≤ 1000 }
    requires h { h + length args.now ≤ 100000 }
    requires depth { depth + length args.now ≤ 10000 }
    ensures { Gives tree_of result (Ok (spec.compared d (confusions_of d) known.now m at h depth (constructor_shape con.now) (map argument_shape args.now))) }
{
    match args {
        [] => {
            let claim = members_equal(alloc, d, m, depth);
            proved(alloc, d, claim, congruence(alloc, d, m, depth, con))
        }
        [arg, rest @ ..] => {
            let next = next_hypothesis(h, arg);
            let proved = compared(alloc, d, known, m, at + 1, next, depth + 1, con, rest)?;
            taken_apart(alloc, d, known, m, at, h, depth, con, arg, proved)
        }
    }
}
