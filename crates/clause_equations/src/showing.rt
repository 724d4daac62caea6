ghost use Rattle.std.specs.Prelude.{◌≡◌, ◌++◌, Ok, length};
ghost use Rattle.core_terms.specs.Answers.{Gives};
ghost use Rattle.core_terms.specs.Meanings.{tree_of, tele_of};
ghost use Rattle.core_terms.specs.PatternMeanings.{pat_of, pats_of};
ghost use Rattle.theory.specs.Spines.{spine_of};
ghost use Rattle.theory.specs.Telescopes as telescopes;
ghost use Rattle.unification.specs.Built.{built_of};
ghost use Rattle.leaf_terms.specs.PlanMeanings.{plan_of};
ghost use Rattle.clause_reports.specs.Equations as spec;
ghost use Rattle.clause_equations.specs.CodeEquations.{params_in, shown_at, written_in};

use crate::constants::in_signature;
use crate::parts::{first_terms, further_terms};
use core_sig::Signature;
use core_terms::{Items, Pat, Stop, Tele, Term, applied, copy_whole, head, into_spine};
use kernel_reduce::family;
use leaf_terms::Plan;
use run_terms::{instance, with_terms};
use std::alloc::Global;

/// How many of the `count` arguments of a term are parameters, where it is a constructor with all its arguments.
fn params_of(sig: &Signature, t: &Term, count: usize) -> Option<usize>
    requires { count ≡ length (spine_of (tree_of t.now)) }
    ensures { result ≡ params_in (built_of sig.now (tree_of t.now)) }
{
    let Term::Con(n, number) = head(t) else {
        return None;
    };
    let f = family(sig, *n)?;
    let con = f.cons.as_slice().get(*number as usize)?;
    let params = f.params.as_slice().len();
    if count as u128 != params as u128 + con.args.as_slice().len() as u128 {
        return None;
    }
    Some(params)
}

/// A term of a clause with the clause's bindings, where the function and its helpers have the numbers of the signature.
#[tactic(auto, using(core_terms::proofs::Instances::instance_laws))]
pub fn written(
    alloc: Global,
    sig: &Signature,
    plan: &Plan,
    binds: &[Term],
    t: &Term,
) -> Result<Term, Stop>
    ensures { Gives tree_of result (Ok (written_in sig.now (plan_of plan.now) (tele_of binds.now) (tree_of t.now))) }
{
    let t = instance(alloc, binds, t, 0)?;
    in_signature(alloc, sig, plan, &t)
}

/// The arguments of a term's head in memory of their own.
fn spine(alloc: Global, t: &Term) -> Result<Vec<Term>, Stop>
    ensures { Gives (λ v. tele_of v.items) result (Ok (spine_of (tree_of t.now))) }
{
    let t = copy_whole(alloc, t)?;
    into_spine(alloc, t)
}

/// The head of a term at its parameters and at its other arguments as the patterns show them.
#[cycle(showing)]
fn shown_after(
    alloc: Global,
    sig: &Signature,
    plan: &Plan,
    binds: &[Term],
    pats: &[Pat],
    head: &Term,
    params: &[Term],
    arguments: &[Term],
) -> Result<Term, Stop>
    ensures { Gives tree_of result (Ok (telescopes.applied (tree_of head.now) (tele_of params.now ++ spec.all_shown sig.now (written_in sig.now (plan_of plan.now) (tele_of binds.now)) (pats_of pats.now) (tele_of arguments.now)))) }
{
    let made = with_terms(alloc, Items::new(alloc), params)?;
    let made = with_shown(alloc, sig, plan, binds, pats, arguments, made)?;
    let head = copy_whole(alloc, head)?;
    applied(alloc, head, made.into_vec())
}

/// A term as the patterns of a constructor's arguments show it: the term itself, where it is no constructor with all
/// its arguments.
#[cycle(showing)]
fn shown_constructor(
    alloc: Global,
    sig: &Signature,
    plan: &Plan,
    binds: &[Term],
    pats: &[Pat],
    t: &Term,
) -> Result<Term, Stop>
    ensures { Gives tree_of result (Ok (shown_at (spec.all_shown sig.now (written_in sig.now (plan_of plan.now) (tele_of binds.now)) (pats_of pats.now)) (tree_of t.now) (params_in (built_of sig.now (tree_of t.now))))) }
{
    let spine = spine(alloc, t)?;
    match params_of(sig, t, spine.len()) {
        None => copy_whole(alloc, t),
        Some(count) => {
            let params = first_terms(spine.as_slice(), count);
            let arguments = further_terms(spine.as_slice(), count);
            shown_after(alloc, sig, plan, binds, pats, head(t), params, arguments)
        }
    }
}

/// A term as a pattern shows it.
#[cycle(showing)]
fn shown(
    alloc: Global,
    sig: &Signature,
    plan: &Plan,
    binds: &[Term],
    pat: &Pat,
    t: &Term,
) -> Result<Term, Stop>
    ensures { Gives tree_of result (Ok (spec.shown sig.now (written_in sig.now (plan_of plan.now) (tele_of binds.now)) (pat_of pat.now) (tree_of t.now))) }
{
    match pat {
        Pat::Dot(u) => written(alloc, sig, plan, binds, u),
        Pat::Con(_, _, pats) => { shown_constructor(alloc, sig, plan, binds, pats.as_slice(), t) }
        Pat::Bind | Pat::Wild | Pat::Absurd => copy_whole(alloc, t),
    }
}

/// Terms, followed by others as patterns show them.
///
/// A dot shows the term that is written there, with the clause's bindings; a constructor shows itself at its arguments
/// as its patterns show them, where the term is that constructor with all of them; any other pattern shows the term.
#[cycle(showing)]
pub fn with_shown(
    alloc: Global,
    sig: &Signature,
    plan: &Plan,
    binds: &[Term],
    pats: &[Pat],
    terms: &[Term],
    mut made: Tele,
) -> Result<Tele, Stop>
    ensures { Gives tele_of result (Ok (tele_of made ++ spec.all_shown sig.now (written_in sig.now (plan_of plan.now) (tele_of binds.now)) (pats_of pats.now) (tele_of terms.now))) }
{
    match pats {
        [] => with_terms(alloc, made, terms),
        [pat, pats @ ..] => match terms {
            [] => Ok(made),
            [t, terms @ ..] => {
                made.push(shown(alloc, sig, plan, binds, pat, t)?)?;
                with_shown(alloc, sig, plan, binds, pats, terms, made)
            }
        },
    }
}
