ghost use Rattle.std.specs.Prelude.{◌≡◌, Ok};
ghost use Rattle.case_trees.specs.Stops as tree;
ghost use Rattle.clause_walks.specs.Stops as trees;
ghost use Rattle.core_terms.specs.Answers.{Gives, Unless};
ghost use Rattle.core_terms.specs.Meanings.{tree_of, tele_of};
ghost use Rattle.core_terms.specs.PatternMeanings.{pat_of};
ghost use Rattle.core_text.specs.SymbolNames.{constructor_name_at};
ghost use Rattle.clause_reports.specs.elaboration.Refusals as spec;
ghost use Rattle.function_checks.specs.function_refusals.RefusalMeanings.{IsUnforeseen, refusal_of};

use crate::function_refusals::refusal::{FunctionRefusal, or_memory, owner_of};
use clause_walks::TreeStop;
use core_sig::Signature;
use core_terms::{Items, Name, Pat, Stop, Term};
use core_text::{context_text, print_term, spaced_text};
use std::alloc::Global;
use unification::Why;

/// The name of a constructor.
fn constructor_text(
    alloc: Global,
    sig: &Signature,
    family: u32,
    con: u32,
) -> Result<Items<u8>, Stop>
    ensures { Gives (λ text. text) result (Ok (constructor_name_at sig.now family con)) }
{
    print_term(alloc, sig, &Term::Con(family, con))
}

/// A pattern as it is shown where the term that it meets is neither a variable nor a constructor.
fn pattern_text(alloc: Global, sig: &Signature, pat: &Pat) -> Result<Items<u8>, Stop>
    ensures { Gives (λ text. text) result (Ok (spec.pattern_text sig.now (pat_of pat.now))) }
{
    match pat {
        Pat::Con(family, con, _) => constructor_text(alloc, sig, *family, *con),
        Pat::Bind | Pat::Wild | Pat::Dot(_) | Pat::Absurd => {
            Ok(Items::from_vec(b"()".to_vec(alloc)?))
        }
    }
}

fn stuck(
    alloc: Global,
    sig: &Signature,
    function: &[u8],
    clause: u32,
    ctx: &[Term],
    left: &Term,
    right: &Term,
    why: Why,
) -> Result<FunctionRefusal, Stop>
    ensures { Gives refusal_of result (Ok (spec.of_tree sig.now function.now (tree.Stuck clause (tele_of ctx.now) (tree_of left.now) (tree_of right.now) why))) }
{
    Ok(FunctionRefusal::Stuck {
        owner: owner_of(alloc, function, clause)?,
        ctx: context_text(alloc, sig, ctx)?,
        left: print_term(alloc, sig, left)?,
        right: print_term(alloc, sig, right)?,
        why,
    })
}

fn uncovered(
    alloc: Global,
    sig: &Signature,
    function: &[u8],
    ctx: &[Term],
    terms: &[Term],
) -> Result<FunctionRefusal, Stop>
    ensures { Gives refusal_of result (Ok (spec.of_tree sig.now function.now (tree.Uncovered (tele_of ctx.now) (tele_of terms.now)))) }
{
    Ok(FunctionRefusal::Uncovered {
        function: Name::from_vec(function.to_vec(alloc)?),
        ctx: context_text(alloc, sig, ctx)?,
        vector: spaced_text(alloc, sig, terms)?,
    })
}

fn not_absurd(
    alloc: Global,
    sig: &Signature,
    function: &[u8],
    clause: u32,
    family: u32,
    con: u32,
) -> Result<FunctionRefusal, Stop>
    ensures { Gives refusal_of result (Ok (spec.of_tree sig.now function.now (tree.NotAbsurd clause family con))) }
{
    Ok(FunctionRefusal::NotAbsurd {
        owner: owner_of(alloc, function, clause)?,
        con: constructor_text(alloc, sig, family, con)?,
    })
}

fn impossible(
    alloc: Global,
    sig: &Signature,
    function: &[u8],
    clause: u32,
    ctx: &[Term],
    left: &Term,
    right: &Term,
) -> Result<FunctionRefusal, Stop>
    ensures { Gives refusal_of result (Ok (spec.of_tree sig.now function.now (tree.Impossible clause (tele_of ctx.now) (tree_of left.now) (tree_of right.now)))) }
{
    Ok(FunctionRefusal::Impossible {
        owner: owner_of(alloc, function, clause)?,
        ctx: context_text(alloc, sig, ctx)?,
        left: print_term(alloc, sig, left)?,
        right: print_term(alloc, sig, right)?,
    })
}

fn wrong_constructor(
    alloc: Global,
    sig: &Signature,
    function: &[u8],
    clause: u32,
    ctx: &[Term],
    ty: &Term,
) -> Result<FunctionRefusal, Stop>
    ensures { Gives refusal_of result (Ok (spec.of_tree sig.now function.now (tree.WrongConstructor clause (tele_of ctx.now) (tree_of ty.now)))) }
{
    Ok(FunctionRefusal::WrongConstructor {
        owner: owner_of(alloc, function, clause)?,
        ctx: context_text(alloc, sig, ctx)?,
        ty: print_term(alloc, sig, ty)?,
    })
}

fn forced(
    alloc: Global,
    sig: &Signature,
    function: &[u8],
    clause: u32,
    ctx: &[Term],
    pat: &Pat,
    term: &Term,
) -> Result<FunctionRefusal, Stop>
    ensures { Gives refusal_of result (Ok (spec.of_tree sig.now function.now (tree.Forced clause (tele_of ctx.now) (pat_of pat.now) (tree_of term.now)))) }
{
    Ok(FunctionRefusal::DotMismatch {
        owner: owner_of(alloc, function, clause)?,
        ctx: context_text(alloc, sig, ctx)?,
        written: pattern_text(alloc, sig, pat)?,
        forced: print_term(alloc, sig, term)?,
    })
}

/// The refusal where a walk or a tree of a function or helper ends, or a stop while its evidence is written.
fn shown(
    alloc: Global,
    sig: &Signature,
    function: &[u8],
    stop: &TreeStop,
) -> Result<FunctionRefusal, Stop>
    ensures { Gives refusal_of result (Ok (spec.of_tree sig.now function.now (trees.stop_of stop.now))) }
{
    match stop {
        TreeStop::Stop(e) => Ok(FunctionRefusal::Stop(*e)),
        TreeStop::Stuck {
            clause,
            ctx,
            left,
            right,
            why,
        } => stuck(
            alloc,
            sig,
            function,
            *clause,
            ctx.as_slice(),
            left,
            right,
            *why,
        ),
        TreeStop::Uncovered { ctx, terms } => {
            uncovered(alloc, sig, function, ctx.as_slice(), terms.as_slice())
        }
        TreeStop::NotAbsurd {
            clause,
            family,
            con,
        } => not_absurd(alloc, sig, function, *clause, *family, *con),
        TreeStop::Impossible {
            clause,
            ctx,
            left,
            right,
        } => impossible(alloc, sig, function, *clause, ctx.as_slice(), left, right),
        TreeStop::WrongConstructor { clause, ctx, ty } => {
            wrong_constructor(alloc, sig, function, *clause, ctx.as_slice(), ty)
        }
        TreeStop::Forced {
            clause,
            ctx,
            pat,
            term,
        } => forced(alloc, sig, function, *clause, ctx.as_slice(), pat, term),
    }
}

/// The refusal where a walk or a tree of a function or helper ends.
pub fn ended(alloc: Global, sig: &Signature, function: &[u8], stop: &TreeStop) -> FunctionRefusal
    ensures answer { Unless (IsUnforeseen result) (refusal_of result ≡ spec.of_tree sig.now function.now (trees.stop_of stop.now)) }
    ensures memory { trees.IsUnforeseen stop.now → IsUnforeseen result }
{
    match stop {
        TreeStop::Stop(e) => FunctionRefusal::Stop(*e),
        other => or_memory(shown(alloc, sig, function, other)),
    }
}
