ghost use Rattle.std.specs.Prelude.{◌≡◌, Ok, length, map};
ghost use Rattle.core_terms.specs.Answers.{Gives};
ghost use Rattle.core_terms.specs.Meanings.{tree_of, tele_of};
ghost use Rattle.core_terms.specs.TreeMeanings.{steps_of};
ghost use Rattle.core_sig.specs.Meanings.{family_of};
ghost use Rattle.theory.specs.Terms as tree;
ghost use Rattle.unification.specs.Records as records;
ghost use Rattle.tree_translation.specs.Naming as names;
ghost use Rattle.problems.specs.MemberMeanings.{member_meant};
ghost use Rattle.run_terms.specs.outlines.OutlineMeanings.{outline_of, outlines_of};
ghost use Rattle.run_terms.specs.CodeNaming.{naming_of};
ghost use Rattle.run_terms.specs.Made as made;
ghost use Rattle.split_terms.specs.CodeSplits as spec;
ghost use Rattle.split_terms.specs.NodeMeanings.{IsWhole, named_of, node_of};

use crate::members::{scrutinee, type_member};
use crate::methods::{split_motive, with_methods};
use crate::node::Node;
use crate::split_naming::split_names;
use core_sig::Signature;
use core_terms::{Items, Name, Step, Stop, Tele, Term, applied, checked, copy_tele};
use problems::Member;
use run_terms::outlines::{Outline, Outlines, at_head, first_whole, whole};
use run_terms::{Naming, case_name, constant, family_items, reflexivities_made, with_names};
use std::alloc::Global;

/// `D!case.L`.
fn case_constant(alloc: Global, naming: Naming, level: u8, m: &Member) -> Result<Term, Stop>
    ensures { Gives tree_of result (Ok (tree.Const (naming_of naming.entry (names.case_name (member_meant m.now).family level)))) }
{
    let name = case_name(alloc, m.family, level)?;
    constant(naming, &name)
}

/// `D!case.L ps motive`.
fn split_head(
    alloc: Global,
    naming: Naming,
    level: u8,
    m: &Member,
    motive: Term,
) -> Result<Term, Stop>
    ensures { Gives tree_of result (Ok (spec.split_head (naming_of naming.entry) level (member_meant m.now) (tree_of motive))) }
{
    let head = case_constant(alloc, naming, level, m)?;
    let params = copy_tele(alloc, m.params.as_slice())?;
    let head = applied(alloc, head, params.into_vec())?;
    Term::new_app(alloc, head, motive)
}

/// The reflexivities of the indices and the variable, or Deep where something in these is too high.
fn reflexivities_of(alloc: Global, m: &Member, terms: &Tele) -> Result<Tele, Stop>
    ensures { Gives tele_of result (made.reflexivities_made (records.family_items m.now.number (family_of m.now.family.now) (tele_of m.now.params)) (tele_of terms.now)) }
{
    let items = family_items(alloc, m.number, m.family, m.params.as_slice())?;
    reflexivities_made(alloc, &items, terms)
}

/// `head` applied to the indices, the variable and their reflexivities, or Deep where something in these is too high.
fn applied_to_scrutinee(alloc: Global, m: &Member, x: u32, head: Term) -> Result<Term, Stop>
    ensures { Gives tree_of result (spec.split_end (member_meant m.now) x (tree_of head)) }
{
    let terms = scrutinee(alloc, m, x)?;
    let refls = reflexivities_of(alloc, m, &terms)?;
    let head = applied(alloc, head, terms.into_vec())?;
    applied(alloc, head, refls.into_vec())
}

/// A head in outline applied to the indices, the variable and their reflexivities, or Deep where something in these is
/// too high.
fn split_end(alloc: Global, m: &Member, x: u32, head: Outline) -> Result<Outline, Stop>
    ensures { Gives outline_of result (spec.split_end (member_meant m.now) x (outline_of head)) }
{
    let around = applied_to_scrutinee(alloc, m, x, Term::Sort(0))?;
    at_head(alloc, around, head)
}

/// The term of a split on a variable whose type is this family with all its parameters and indices, or Deep.
fn split_member(
    alloc: Global,
    sig: &Signature,
    naming: Naming,
    level: u8,
    node: &Node,
    m: &Member,
    x: u32,
    runs: &[&[Step]],
    ends: Outlines,
) -> Result<Outline, Stop>
    requires { IsWhole m.now }
    ensures { Gives outline_of result (spec.split_member_made sig.now (naming_of naming.entry) level (node_of node.now) (member_meant m.now) x (map (λ steps. steps_of steps.now) runs.now) (outlines_of ends)) }
{
    let motive = split_motive(alloc, node, m, x)?;
    let head = Outline::Whole(split_head(alloc, naming, level, m, motive)?);
    let cons = m.family.cons.as_slice();
    let head = with_methods(
        alloc, head, sig, naming, level, node, m, x, 0, cons, runs, ends,
    )?;
    split_end(alloc, m, x, head)
}

/// The term of a split node on a variable with this reduced type, in outline, or Deep. The steps of the runs come by constructor, and
/// `ends` has one end for each solved run, over its last context.
pub fn split_outline(
    alloc: Global,
    sig: &Signature,
    naming: Naming,
    level: u8,
    node: &Node,
    x: u32,
    ty: &Term,
    runs: &[&[Step]],
    ends: Outlines,
) -> Result<Outline, Stop>
    ensures { Gives outline_of result (spec.split_node_made sig.now (naming_of naming.entry) level (node_of node.now) x (tree_of ty.now) (map (λ steps. steps_of steps.now) runs.now) (outlines_of ends)) }
{
    match type_member(alloc, sig, ty)? {
        None => Ok(Outline::Whole(Term::Sort(0))),
        Some(m) => split_member(alloc, sig, naming, level, node, &m, x, runs, ends),
    }
}

/// The term of a split node, from ends that are whole terms, or Deep.
pub fn split_node(
    alloc: Global,
    sig: &Signature,
    naming: Naming,
    level: u8,
    node: &Node,
    x: u32,
    ty: &Term,
    runs: &[&[Step]],
    ends: &[Term],
) -> Result<Term, Stop>
    ensures { Gives tree_of result (spec.split_node_made sig.now (naming_of naming.entry) level (node_of node.now) x (tree_of ty.now) (map (λ steps. steps_of steps.now) runs.now) (tele_of ends.now)) }
{
    let ends = first_whole(alloc, ends)?;
    let outline = split_outline(alloc, sig, naming, level, node, x, ty, runs, ends)?;
    whole(alloc, outline)
}

/// The term of a split node where these are the names of generated entries, which have the numbers after those of the
/// signature, or Deep where the term is too high.
fn split_named(
    alloc: Global,
    sig: &Signature,
    level: u8,
    node: &Node,
    x: u32,
    ty: &Term,
    runs: &[&[Step]],
    ends: &[Term],
    names: &[Name],
) -> Result<Term, Stop>
    ensures { Gives tree_of result (spec.split_named sig.now (length sig.now.entries) level (node_of node.now) x (tree_of ty.now) (map (λ steps. steps_of steps.now) runs.now) (tele_of ends.now) names.now) }
{
    let naming = Naming {
        base: sig.len(),
        names,
    };
    checked(split_node(alloc, sig, naming, level, node, x, ty, runs, ends)?)
}

/// The term of a split node by itself, with the names of generated entries that it may mention: those that were there, and after them the
/// others, each once. A generated entry is the constant whose number is that of its name, after those of the signature.
pub fn split_term(
    alloc: Global,
    sig: &Signature,
    level: u8,
    node: &Node,
    x: u32,
    ty: &Term,
    runs: &[&[Step]],
    ends: &[Term],
    names: Items<Name>,
) -> Result<(Items<Name>, Term), Stop>
    ensures { Gives named_of result (spec.split_term_made sig.now (length sig.now.entries) level (node_of node.now) x (tree_of ty.now) (map (λ steps. steps_of steps.now) runs.now) (tele_of ends.now) names) }
{
    let others = split_names(alloc, sig, level, node, x, ty, runs, Items::new(alloc))?;
    let names = with_names(alloc, names, others.as_slice())?;
    let term = split_named(alloc, sig, level, node, x, ty, runs, ends, names.as_slice())?;
    Ok((names, term))
}
