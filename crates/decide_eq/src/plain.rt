ghost use Rattle.std.specs.Prelude.{◌≡◌, ◌<◌, ◌+◌, ◌^◌, length, map};
ghost use Rattle.core_terms.specs.Answers.{GivesUnless, Unless};
ghost use Rattle.core_terms.specs.Meanings.{tele_of, tree_of};
ghost use Rattle.core_sig.specs.Shapes.{argument_shape, constructor_shape, shape_of};
ghost use Rattle.decide_eq.specs.PlainFamilies as spec;
ghost use Rattle.decide_eq.specs.declared.stop.DecideStop.TheVariants as stop;

use crate::DecideStop;
use crate::statements::EMPTY;
use core_sig::{Arg, ArgKind, Constructor, Family, Signature};
use core_terms::{Items, TOP, Term};
use kernel_reduce::family;

/// Whether the type is `Type l`.
fn is_universe(l: u8, t: &Term) -> bool
    ensures { result ≡ spec.is_universe l (tree_of t.now) }
{
    match t {
        Term::Sort(i) => *i == l,
        _ => false,
    }
}

fn all_universes(l: u8, params: &[Term]) -> bool
    ensures { result ≡ spec.all_universes l (tele_of params.now) }
{
    match params {
        [] => true,
        [a, rest @ ..] => is_universe(l, a) && all_universes(l, rest),
    }
}

/// Whether the type is that of the parameter, which is the nearest variable.
fn is_claim(t: &Term) -> bool
    ensures { result ≡ spec.is_claim (tree_of t.now) }
{
    match t {
        Term::Var(n) => *n == 0,
        _ => false,
    }
}

fn is_empty_type(t: &Term) -> bool
    ensures { result ≡ spec.is_empty_type (tree_of t.now) }
{
    match t {
        Term::Fam(n) => *n == EMPTY,
        _ => false,
    }
}

/// Whether the type is `A -> Empty`, for the parameter `A`.
fn is_refutation(t: &Term) -> bool
    ensures { result ≡ spec.is_refutation (tree_of t.now) }
{
    match t {
        Term::Pi(a, b) => is_claim(a) && is_empty_type(b),
        _ => false,
    }
}

/// Whether the constructor has one argument, and its type is that of the parameter.
fn has_only_claim(con: &Constructor) -> bool
    ensures { result ≡ spec.has_only spec.is_claim (constructor_shape con.now).arguments }
{
    match con.args.as_slice() {
        [a] => is_claim(&a.ty),
        _ => false,
    }
}

/// Whether the constructor has one argument, and its type is `A -> Empty`.
fn has_only_refutation(con: &Constructor) -> bool
    ensures { result ≡ spec.has_only spec.is_refutation (constructor_shape con.now).arguments }
{
    match con.args.as_slice() {
        [a] => is_refutation(&a.ty),
        _ => false,
    }
}

fn proves_or_refutes(cons: &[Constructor]) -> bool
    ensures { result ≡ spec.proves_or_refutes (map constructor_shape cons.now) }
{
    match cons {
        [first, second] => has_only_claim(first) && has_only_refutation(second),
        _ => false,
    }
}

fn has_one_universe(l: u8, params: &[Term]) -> bool
    ensures { result ≡ spec.has_one_universe l (tele_of params.now) }
{
    match params {
        [a] => is_universe(l, a),
        _ => false,
    }
}

/// Whether the family is a decision at level `l`.
fn is_decision(l: u8, e: &Family) -> bool
    ensures { result ≡ spec.is_decision l (shape_of e.now) }
{
    has_one_universe(l, e.params.as_slice())
        && e.indices.as_slice().is_empty()
        && e.level == l
        && proves_or_refutes(e.cons.as_slice())
}

/// Whether family number `n` is a decision at level `l`.
fn is_decision_at(sig: &Signature, l: u8, n: u32) -> bool
    ensures { result ≡ spec.is_decision_at sig.now l n }
{
    match family(sig, n) {
        Some(e) => is_decision(l, e),
        None => false,
    }
}

/// Whether the family has no index, a level that leaves room for no confusion, and parameters of type `Type l` alone.
fn is_plain(f: &Family) -> bool
    ensures { result ≡ spec.is_plain (shape_of f.now) }
{
    f.indices.as_slice().is_empty()
        && f.level <= TOP - 2
        && all_universes(f.level, f.params.as_slice())
}

/// Whether equality of family number `n` is decided.
fn is_known(known: &[(u32, u32)], n: u32) -> bool
    ensures { result ≡ spec.is_known known.now n }
{
    match known {
        [] => false,
        [(family, _), rest @ ..] => *family == n || is_known(rest, n),
    }
}

/// Whether family number `n` has no parameters and level `l`, and its equality is decided.
fn is_decided(sig: &Signature, known: &[(u32, u32)], l: u8, n: u32) -> bool
    ensures { result ≡ spec.is_decided sig.now known.now l n }
{
    match family(sig, n) {
        Some(f) => { is_known(known, n) && f.params.as_slice().is_empty() && f.level == l }
        None => false,
    }
}

/// Whether a plain argument after `at` others has the type of a parameter, of `params`, or a family whose equality is decided.
fn is_first_order_type(
    sig: &Signature,
    known: &[(u32, u32)],
    l: u8,
    params: usize,
    at: usize,
    t: &Term,
) -> bool
    ensures { result ≡ spec.is_first_order_type sig.now known.now l params at (tree_of t.now) }
{
    match t {
        Term::Var(n) => {
            let n = *n as usize;
            at <= n && n - at < params
        }
        Term::Fam(n) => is_decided(sig, known, l, *n),
        _ => false,
    }
}

/// Whether an argument after `at` others is of the family itself or of such a type.
fn is_first_order(
    sig: &Signature,
    known: &[(u32, u32)],
    l: u8,
    params: usize,
    at: usize,
    arg: &Arg,
) -> bool
    ensures { result ≡ spec.is_first_order sig.now known.now l params at (argument_shape arg.now) }
{
    match arg.kind {
        ArgKind::Recursive(inner) => inner == 0,
        ArgKind::Plain => is_first_order_type(sig, known, l, params, at, &arg.ty),
    }
}

/// The first argument that is not first-order, counted from 1, of those after `at` others.
fn offending_argument(
    sig: &Signature,
    known: &[(u32, u32)],
    l: u8,
    params: usize,
    at: usize,
    args: &[Arg],
) -> Option<usize>
    requires { at + length args.now < 2 ^ 64 }
    ensures { result ≡ spec.offending_argument sig.now known.now l params at (map argument_shape args.now) }
{
    match args {
        [] => None,
        [arg, rest @ ..] => {
            if is_first_order(sig, known, l, params, at, arg) {
                offending_argument(sig, known, l, params, at + 1, rest)
            } else {
                Some(at + 1)
            }
        }
    }
}

/// The first constructor from `number` on with such an argument, and the argument.
fn offence(
    sig: &Signature,
    known: &[(u32, u32)],
    l: u8,
    params: usize,
    number: usize,
    cons: &[Constructor],
) -> Option<(usize, usize)>
    requires { number + length cons.now < 2 ^ 64 }
    ensures { result ≡ spec.offence sig.now known.now l params number (map constructor_shape cons.now) }
{
    match cons {
        [] => None,
        [con, rest @ ..] => match offending_argument(
            sig,
            known,
            l,
            params,
            0,
            con.args.as_slice(),
        ) {
            Some(k) => Some((number, k)),
            None => offence(sig, known, l, params, number + 1, rest),
        },
    }
}

/// NotFirstOrder, or Memory where a number does not fit 32 bits.
fn not_first_order(con: usize, arg: usize) -> DecideStop
    ensures { Unless (result ≡ stop.Memory) (result ≡ stop.NotFirstOrder con arg) }
{
    match (u32::try_from(con), u32::try_from(arg)) {
        (Ok(con), Ok(arg)) => DecideStop::NotFirstOrder(con, arg),
        _ => DecideStop::Memory,
    }
}

/// Whether equality of a family can be decided into family number `dec`.
fn decidable(sig: &Signature, dec: u32, known: &[(u32, u32)], f: &Family) -> Result<(), DecideStop>
    ensures { GivesUnless spec.IsUnforeseen (λ a. a) result (spec.decidable sig.now dec known.now (shape_of f.now)) }
{
    if !is_plain(f) {
        return Err(DecideStop::NotPlainFamily);
    }
    if !is_decision_at(sig, f.level, dec) {
        return Err(DecideStop::NotDecision);
    }
    let params = f.params.as_slice().len();
    match offence(sig, known, f.level, params, 0, f.cons.as_slice()) {
        Some((con, arg)) => Err(not_first_order(con, arg)),
        None => Ok(()),
    }
}

/// Whether equality of family number `fam` can be decided into family number `dec`, where that of the `known` families is decided by
/// their entries. `NotPlainFamily` where the first is no plain family, else `NotDecision` where the second is no decision at its level,
/// else `NotFirstOrder` at the first argument that is not first-order, or `Memory` where its number does not fit 32 bits.
pub fn plain_family(
    sig: &Signature,
    fam: u32,
    dec: u32,
    known: &Items<(u32, u32)>,
) -> Result<(), DecideStop>
    ensures { GivesUnless spec.IsUnforeseen (λ a. a) result (spec.plain_family sig.now fam dec known.now) }
{
    match family(sig, fam) {
        Some(f) => decidable(sig, dec, known.as_slice(), f),
        None => Err(DecideStop::NotPlainFamily),
    }
}
