//! The terms of a clause, reduced where a pattern of the clause or of an earlier one has a constructor.
ghost use Rattle.std.specs.Prelude.{◌≡◌, ◌≤◌, ◌+◌, ◌++◌, ◌∷◌, [], IfOk, ℕ, Ok, true};
ghost use Rattle.core_terms.specs.Answers.{Gives, Runs, bounded};
ghost use Rattle.core_terms.specs.Meanings.{tree_of, tele_of};
ghost use Rattle.core_terms.specs.PatternMeanings.{pat_of, pats_of};
ghost use Rattle.theory.specs.Telescopes.{applied as applied_meant};
ghost use Rattle.theory.specs.Terms as tree;
ghost use Rattle.core_terms.specs.Bounds.{most_height};
ghost use Rattle.kernel_reduce.specs.WellScoped.{AreScoped, CanReduce};
ghost use Rattle.unification.specs.Built as built;
ghost use Rattle.problems.specs.CodeBuilt.{IfThere, IsBuiltAs};
ghost use Rattle.case_trees.specs.pattern_vectors.Matching.{is_constructor};
ghost use Rattle.clause_reports.specs.Shadows as spec;
ghost use Rattle.clause_equations.specs.shadow_vectors.CodeVectors.{onto};

use core_sig::Signature;
use core_terms::{Items, Pat, Stop, Tele, Term, applied, checked, copy_whole};
use kernel_check::Kernel;
use problems::{Built, built_of, split_spine};
use std::alloc::Global;

/// Whether it is constructor `number` of family n.
fn is_own(b: Built, n: u32, number: u32) -> bool
    ensures { (p : built.Built) → IsBuiltAs b.entry p → result ≡ is_constructor n number p }
{
    b.family == n && b.number == number
}

/// Terms after those that are made.
fn copied_onto(alloc: Global, terms: &[Term], mut made: Tele) -> Result<Tele, Stop>
    ensures { Gives tele_of result (Ok (tele_of made ++ tele_of terms.now)) }
{
    match terms {
        [] => Ok(made),
        [t, rest @ ..] => {
            made.push(copy_whole(alloc, t)?)?;
            copied_onto(alloc, rest, made)
        }
    }
}

/// A constructor at its parameters and its arguments, or Deep.
fn constructor_at(alloc: Global, n: u32, number: u32, terms: Tele) -> Result<Term, Stop>
    ensures { Gives tree_of result (bounded (applied_meant (tree.Con n number) (tele_of terms))) }
{
    checked(applied(alloc, Term::Con(n, number), terms.into_vec())?)
}

/// A term, with the head form at each constructor of a pattern, or Deep where the term that is made of these is too
/// high.
#[cycle(reducing)]
fn reduced_by(
    alloc: Global,
    sig: &Signature,
    pat: &Pat,
    t: &Term,
    kernel: &mut Kernel<'_>,
) -> Result<Term, Stop>
    requires kernel { kernel.old.signature ≡ sig.now }
    requires given { CanReduce sig.now (tree_of t.now ∷ []) }
    ensures answer { Runs tree_of result kernel.new.left (spec.reduced_by sig.now (pat_of pat.now) (tree_of t.now) kernel.old.left) }
    ensures sum { kernel.new.left + kernel.new.spent ≡ kernel.old.left + kernel.old.spent }
    ensures spends { kernel.new.left ≤ kernel.old.left }
    ensures kernel { kernel.new.signature ≡ sig.now }
{
    match pat {
        Pat::Con(n, number, pats) => {
            let w = kernel.whnf(t)?;
            reduced_at(alloc, sig, *n, *number, pats.as_slice(), w, kernel)
        }
        Pat::Bind | Pat::Wild | Pat::Dot(_) | Pat::Absurd => copy_whole(alloc, t),
    }
}

/// A head form, whose arguments are reduced by these patterns where it is their constructor.
#[cycle(reducing)]
fn reduced_at(
    alloc: Global,
    sig: &Signature,
    n: u32,
    number: u32,
    pats: &[Pat],
    w: Term,
    kernel: &mut Kernel<'_>,
) -> Result<Term, Stop>
    requires kernel { kernel.old.signature ≡ sig.now }
    requires reducible { CanReduce sig.now (tree_of w ∷ []) }
    requires low { tree.height (tree_of w) ≤ most_height }
    ensures answer { Runs tree_of result kernel.new.left (spec.reduced_arguments n number (spec.all_reduced sig.now (pats_of pats.now)) (tree_of w) (built.built_of sig.now (tree_of w)) kernel.old.left) }
    ensures sum { kernel.new.left + kernel.new.spent ≡ kernel.old.left + kernel.old.spent }
    ensures spends { kernel.new.left ≤ kernel.old.left }
    ensures kernel { kernel.new.signature ≡ sig.now }
{
    let Some(b) = built_of(sig, &w) else {
        return Ok(w);
    };
    if is_own(b, n, number) {
        with_arguments(alloc, sig, b, n, number, pats, &w, kernel)
    } else {
        Ok(w)
    }
}

/// The patterns' own constructor, at its arguments as they are reduced.
#[cycle(reducing)]
fn with_arguments(
    alloc: Global,
    sig: &Signature,
    b: Built,
    n: u32,
    number: u32,
    pats: &[Pat],
    w: &Term,
    kernel: &mut Kernel<'_>,
) -> Result<Term, Stop>
    requires kernel { kernel.old.signature ≡ sig.now }
    requires reducible { CanReduce sig.now (tree_of w.now ∷ []) }
    requires there { IfThere (IsBuiltAs b) (built.built_of sig.now (tree_of w.now)) }
    requires own { (p : built.Built) → IsBuiltAs b p → is_constructor n number p ≡ true }
    ensures answer { Runs tree_of result kernel.new.left (spec.reduced_arguments n number (spec.all_reduced sig.now (pats_of pats.now)) (tree_of w.now) (built.built_of sig.now (tree_of w.now)) kernel.old.left) }
    ensures sum { kernel.new.left + kernel.new.spent ≡ kernel.old.left + kernel.old.spent }
    ensures spends { kernel.new.left ≤ kernel.old.left }
    ensures kernel { kernel.new.signature ≡ sig.now }
{
    let (ps, us) = split_spine(alloc, w, b.record.params.as_slice().len())?;
    let all = with_reduced(alloc, sig, pats, us.as_slice(), ps, kernel)?;
    constructor_at(alloc, b.family, b.number, all)
}

/// Terms as they are reduced by the patterns, after those that are made.
#[cycle(reducing)]
fn with_reduced(
    alloc: Global,
    sig: &Signature,
    pats: &[Pat],
    terms: &[Term],
    made: Tele,
    kernel: &mut Kernel<'_>,
) -> Result<Tele, Stop>
    requires kernel { kernel.old.signature ≡ sig.now }
    requires given { CanReduce sig.now (tele_of terms.now) }
    ensures answer { Runs tele_of result kernel.new.left (onto (tele_of made) (spec.all_reduced sig.now (pats_of pats.now) (tele_of terms.now) kernel.old.left)) }
    ensures sum { kernel.new.left + kernel.new.spent ≡ kernel.old.left + kernel.old.spent }
    ensures spends { kernel.new.left ≤ kernel.old.left }
    ensures kernel { kernel.new.signature ≡ sig.now }
{
    match pats {
        [] => copied_onto(alloc, terms, made),
        [pat, pats @ ..] => match terms {
            [] => Ok(made),
            [t, rest @ ..] => {
                let u = reduced_by(alloc, sig, pat, t, kernel)?;
                after_term(alloc, sig, u, pats, rest, made, kernel)
            }
        },
    }
}

/// The other terms, after those that are made and one more.
#[cycle(reducing)]
fn after_term(
    alloc: Global,
    sig: &Signature,
    u: Term,
    pats: &[Pat],
    terms: &[Term],
    mut made: Tele,
    kernel: &mut Kernel<'_>,
) -> Result<Tele, Stop>
    requires kernel { kernel.old.signature ≡ sig.now }
    requires given { CanReduce sig.now (tele_of terms.now) }
    ensures answer { Runs tele_of result kernel.new.left (onto (tele_of made ++ tree_of u ∷ []) (spec.all_reduced sig.now (pats_of pats.now) (tele_of terms.now) kernel.old.left)) }
    ensures sum { kernel.new.left + kernel.new.spent ≡ kernel.old.left + kernel.old.spent }
    ensures spends { kernel.new.left ≤ kernel.old.left }
    ensures kernel { kernel.new.signature ≡ sig.now }
{
    made.push(u)?;
    with_reduced(alloc, sig, pats, terms, made, kernel)
}

/// Terms as they are reduced by the patterns, one after the other. Terms without a pattern stay as they are.
pub fn all_reduced(
    alloc: Global,
    sig: &Signature,
    pats: &[Pat],
    terms: &[Term],
    kernel: &mut Kernel<'_>,
) -> Result<Tele, Stop>
    requires kernel { kernel.old.signature ≡ sig.now }
    requires given { CanReduce sig.now (tele_of terms.now) }
    ensures answer { Runs tele_of result kernel.new.left (spec.all_reduced sig.now (pats_of pats.now) (tele_of terms.now) kernel.old.left) }
    ensures sum { kernel.new.left + kernel.new.spent ≡ kernel.old.left + kernel.old.spent }
    ensures spends { kernel.new.left ≤ kernel.old.left }
    ensures kernel { kernel.new.signature ≡ sig.now }
    ensures scoped { (n : ℕ) → AreScoped sig.now n (tele_of terms.now) → IfOk result (λ us. AreScoped sig.now n (tele_of us)) }
{
    with_reduced(alloc, sig, pats, terms, Items::new(alloc), kernel)
}

/// The terms of a clause, reduced by its own patterns and then by those of an earlier clause: the arguments that the
/// earlier clause may take from it. Deep where a term that is made is too high.
pub fn vector_of(
    alloc: Global,
    sig: &Signature,
    own: &[Pat],
    earlier: &[Pat],
    terms: &[Term],
    kernel: &mut Kernel<'_>,
) -> Result<Tele, Stop>
    requires kernel { kernel.old.signature ≡ sig.now }
    requires given { CanReduce sig.now (tele_of terms.now) }
    ensures answer { Runs tele_of result kernel.new.left (spec.vector_of sig.now (pats_of own.now) (pats_of earlier.now) (tele_of terms.now) kernel.old.left) }
    ensures sum { kernel.new.left + kernel.new.spent ≡ kernel.old.left + kernel.old.spent }
    ensures spends { kernel.new.left ≤ kernel.old.left }
    ensures kernel { kernel.new.signature ≡ sig.now }
    ensures scoped { (n : ℕ) → AreScoped sig.now n (tele_of terms.now) → IfOk result (λ us. AreScoped sig.now n (tele_of us)) }
{
    let first = all_reduced(alloc, sig, own, terms, kernel)?;
    all_reduced(alloc, sig, earlier, first.as_slice(), kernel)
}
