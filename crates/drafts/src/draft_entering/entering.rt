ghost use Rattle.std.specs.Prelude.{◌≡◌, ◌≤◌, ◌+◌, ◌++◌, Some, length, IfOk, OnErr};
ghost use Rattle.clause_reports.specs.DraftEntering as spec;
ghost use Rattle.clause_reports.specs.Generated as generated;
ghost use Rattle.core_sig.specs.Drafts.{draft_of};
ghost use Rattle.core_terms.specs.Answers.{Gives};
ghost use Rattle.core_terms.specs.Meanings.{tree_of};
ghost use Rattle.drafts.specs.draft_entering.Conditions.{Extends, HasDefined, IsDefined, IsEnterable, IsEnterableDraft, IsEnterableTerm, IsGeneratedName, IsOpen};
ghost use Rattle.drafts.specs.draft_entering.Depths.{enter_at, own_name};
ghost use Rattle.drafts.specs.draft_entering.Stops.{Reports};
ghost use Rattle.family_check.specs.Entering.{entered_at};
ghost use Rattle.family_check.specs.Scopes.{IsSettled};
ghost use Rattle.theory.specs.Terms as tree;
ghost use Rattle.core_terms.specs.Bounds.{most_height};

use crate::draft_entering::ReportStop;
use crate::draft_entering::defining::enter_entry;
use crate::draft_entering::finding::generated_by;
use crate::draft_entering::generating::generated_draft;
use crate::draft_entering::instances::{enter_axiom_k, enter_eliminator};
use core_sig::{Draft, Entry, Signature};
use core_terms::{Name, Stop, Term, Units};
use std::alloc::Global;

/// How many drafts enter for each other at most: the given one, and a longest chain of generated ones.
const DEPTH: u32 = 5;

/// Adds the entries that the draft mentions and the signature lacks, from the left in its type and then in its term,
/// each in the same way, and then the draft, and answers its number.
///
/// Rejected is the answer where the checker rejects the draft or an entry that it needs; it shows that entry over the
/// signature in which this arose. After an error the signature is as it was, and the units that were spent stay spent.
pub fn enter_draft(
    alloc: Global,
    sig: &mut Signature,
    draft: &Draft,
    units: &mut Units,
) -> Result<u32, ReportStop>
    requires signature { IsOpen sig.old }
    requires draft { IsEnterableDraft sig.old (draft_of draft.now) }
    ensures answer { Reports (entered_at sig.new) result units.new.left (spec.enter_draft_of sig.old (draft_of draft.now) units.old.left) }
    ensures err { OnErr result (sig.new ≡ sig.old) }
    ensures sum { units.new.left + units.new.spent ≡ units.old.left + units.old.spent }
    ensures spends { units.new.left ≤ units.old.left }
    ensures longer { Extends sig.old sig.new }
    ensures ready { IsOpen sig.new }
{
    let before = sig.len();
    match enter_at(alloc, DEPTH, sig, draft, units) {
        Ok(number) => Ok(number),
        Err(stop) => {
            sig.truncate(before);
            Err(stop)
        }
    }
}

/// Adds the entries that the draft mentions and then the draft, where `depth` drafts enter for each other at most.
/// After an error some of the entries that the draft needs are there.
#[cycle(enter_at)]
fn enter_at(
    alloc: Global,
    depth: u32,
    sig: &mut Signature,
    draft: &Draft,
    units: &mut Units,
) -> Result<u32, ReportStop>
    requires signature { IsOpen sig.old }
    requires draft { IsEnterableDraft sig.old (draft_of draft.now) }
    ensures answer { Reports (entered_at sig.new) result units.new.left (enter_at depth sig.old (draft_of draft.now) units.old.left) }
    ensures sum { units.new.left + units.new.spent ≡ units.old.left + units.old.spent }
    ensures spends { units.new.left ≤ units.old.left }
    ensures longer { Extends sig.old sig.new }
    ensures settled { IsSettled sig.new }
    ensures named { IfOk result (λ _. IsDefined sig.new (own_name (draft_of draft.now))) }
{
    if depth == 0 {
        return Err(ReportStop::Stop(Stop::Deep));
    }
    match &draft.entry {
        Entry::Def { ty, body, .. } => {
            enter_both(alloc, depth - 1, sig, draft, ty, body, units)?;
            enter_entry(alloc, sig, draft, units)
        }
        _ => unreachable!(),
    }
}

/// Adds the entries that two terms mention, one after the other.
#[cycle(enter_at)]
fn enter_both(
    alloc: Global,
    depth: u32,
    sig: &mut Signature,
    draft: &Draft,
    first: &Term,
    second: &Term,
    units: &mut Units,
) -> Result<(), ReportStop>
    requires first { IsEnterableTerm sig.old draft.now.base draft.now.names (tree_of first.now) }
    requires second { IsEnterableTerm sig.old draft.now.base draft.now.names (tree_of second.now) }
    requires low_first { tree.height (tree_of first.now) ≤ most_height }
    requires low_second { tree.height (tree_of second.now) ≤ most_height }
    ensures answer { Reports (λ _. sig.new) result units.new.left (spec.enter_all (enter_at depth) sig.old (spec.mentions_in draft.now.base draft.now.names (tree_of first.now) ++ spec.mentions_in draft.now.base draft.now.names (tree_of second.now)) units.old.left) }
    ensures sum { units.new.left + units.new.spent ≡ units.old.left + units.old.spent }
    ensures spends { units.new.left ≤ units.old.left }
    ensures longer { Extends sig.old sig.new }
    ensures settled { IsSettled sig.new }
    ensures has_first { IfOk result (λ _. HasDefined sig.new draft.now.base draft.now.names (tree_of first.now)) }
    ensures has_second { IfOk result (λ _. HasDefined sig.new draft.now.base draft.now.names (tree_of second.now)) }
{
    enter_term(alloc, depth, sig, draft, first, units)?;
    enter_term(alloc, depth, sig, draft, second, units)
}

/// Adds the entries that three terms mention, one after the other.
#[cycle(enter_at)]
fn enter_three(
    alloc: Global,
    depth: u32,
    sig: &mut Signature,
    draft: &Draft,
    first: &Term,
    second: &Term,
    third: &Term,
    units: &mut Units,
) -> Result<(), ReportStop>
    requires first { IsEnterableTerm sig.old draft.now.base draft.now.names (tree_of first.now) }
    requires second { IsEnterableTerm sig.old draft.now.base draft.now.names (tree_of second.now) }
    requires third { IsEnterableTerm sig.old draft.now.base draft.now.names (tree_of third.now) }
    requires low_first { tree.height (tree_of first.now) ≤ most_height }
    requires low_second { tree.height (tree_of second.now) ≤ most_height }
    requires low_third { tree.height (tree_of third.now) ≤ most_height }
    ensures answer { Reports (λ _. sig.new) result units.new.left (spec.enter_all (enter_at depth) sig.old (spec.mentions_in draft.now.base draft.now.names (tree_of first.now) ++ (spec.mentions_in draft.now.base draft.now.names (tree_of second.now) ++ spec.mentions_in draft.now.base draft.now.names (tree_of third.now))) units.old.left) }
    ensures sum { units.new.left + units.new.spent ≡ units.old.left + units.old.spent }
    ensures spends { units.new.left ≤ units.old.left }
    ensures longer { Extends sig.old sig.new }
    ensures settled { IsSettled sig.new }
    ensures has_first { IfOk result (λ _. HasDefined sig.new draft.now.base draft.now.names (tree_of first.now)) }
    ensures has_second { IfOk result (λ _. HasDefined sig.new draft.now.base draft.now.names (tree_of second.now)) }
    ensures has_third { IfOk result (λ _. HasDefined sig.new draft.now.base draft.now.names (tree_of third.now)) }
{
    enter_term(alloc, depth, sig, draft, first, units)?;
    enter_both(alloc, depth, sig, draft, second, third, units)
}

/// Adds the entries that a term of the draft mentions.
#[cycle(enter_at)]
fn enter_term(
    alloc: Global,
    depth: u32,
    sig: &mut Signature,
    draft: &Draft,
    t: &Term,
    units: &mut Units,
) -> Result<(), ReportStop>
    requires term { IsEnterableTerm sig.old draft.now.base draft.now.names (tree_of t.now) }
    requires low { tree.height (tree_of t.now) ≤ most_height }
    ensures answer { Reports (λ _. sig.new) result units.new.left (spec.enter_all (enter_at depth) sig.old (spec.mentions_in draft.now.base draft.now.names (tree_of t.now)) units.old.left) }
    ensures sum { units.new.left + units.new.spent ≡ units.old.left + units.old.spent }
    ensures spends { units.new.left ≤ units.old.left }
    ensures longer { Extends sig.old sig.new }
    ensures settled { IsSettled sig.new }
    ensures has { IfOk result (λ _. HasDefined sig.new draft.now.base draft.now.names (tree_of t.now)) }
{
    match t {
        Term::Pi(first, second) | Term::Lam(first, second) | Term::App(first, second) => {
            enter_both(alloc, depth, sig, draft, first, second, units)
        }
        Term::Let(ty, value, rest) => {
            enter_three(alloc, depth, sig, draft, ty, value, rest, units)
        }
        Term::Const(c) => enter_constant(alloc, depth, sig, draft, *c, units),
        Term::Elim(n, m) => enter_eliminator(alloc, sig, *n, *m, units),
        Term::AxiomK(i, m) => enter_axiom_k(alloc, sig, *i, *m, units),
        Term::Var(_) | Term::Sort(_) | Term::Fam(_) | Term::Con(_, _) => Ok(()),
    }
}

/// Adds the entry that a constant of the draft names.
#[cycle(enter_at)]
fn enter_constant(
    alloc: Global,
    depth: u32,
    sig: &mut Signature,
    draft: &Draft,
    c: u32,
    units: &mut Units,
) -> Result<(), ReportStop>
    requires { IsEnterableTerm sig.old draft.now.base draft.now.names (tree.Const c) }
    ensures answer { Reports (λ _. sig.new) result units.new.left (spec.enter_all (enter_at depth) sig.old (spec.mentions_in draft.now.base draft.now.names (tree.Const c)) units.old.left) }
    ensures sum { units.new.left + units.new.spent ≡ units.old.left + units.old.spent }
    ensures spends { units.new.left ≤ units.old.left }
    ensures longer { Extends sig.old sig.new }
    ensures settled { IsSettled sig.new }
    ensures has { IfOk result (λ _. HasDefined sig.new draft.now.base draft.now.names (tree.Const c)) }
{
    if c < draft.base {
        return Ok(());
    }
    match draft.names.as_slice().get((c - draft.base) as usize) {
        Some(name) => enter_name(alloc, depth, sig, name, units),
        None => unreachable!(),
    }
}

/// Adds the generated entry with the name, unless the signature knows the name.
#[cycle(enter_at)]
fn enter_name(
    alloc: Global,
    depth: u32,
    sig: &mut Signature,
    name: &Name,
    units: &mut Units,
) -> Result<(), ReportStop>
    requires signature { IsOpen sig.old }
    requires name { IsEnterable sig.old name.now }
    ensures answer { Reports (λ _. sig.new) result units.new.left (spec.enter_mention (enter_at depth) sig.old (spec.Names name.now) units.old.left) }
    ensures sum { units.new.left + units.new.spent ≡ units.old.left + units.old.spent }
    ensures spends { units.new.left ≤ units.old.left }
    ensures longer { Extends sig.old sig.new }
    ensures settled { IsSettled sig.new }
    ensures named { IfOk result (λ _. IsDefined sig.new name.now) }
{
    if sig.find(name.as_slice()).is_some() {
        return Ok(());
    }
    enter_generated(alloc, depth, sig, name, units)
}

/// Adds the generated entry with the name, which the signature does not know.
#[cycle(enter_at)]
pub(crate) fn enter_generated(
    alloc: Global,
    depth: u32,
    sig: &mut Signature,
    name: &Name,
    units: &mut Units,
) -> Result<(), ReportStop>
    requires signature { IsOpen sig.old }
    requires name { IsGeneratedName sig.old name.now }
    ensures answer { Reports (λ _. sig.new) result units.new.left (spec.enter_generated (enter_at depth) sig.old (generated.generated_by sig.old name.now) units.old.left) }
    ensures sum { units.new.left + units.new.spent ≡ units.old.left + units.old.spent }
    ensures spends { units.new.left ≤ units.old.left }
    ensures longer { Extends sig.old sig.new }
    ensures settled { IsSettled sig.new }
    ensures named { IfOk result (λ _. IsDefined sig.new name.now) }
{
    let draft = draft_named(alloc, sig, name)?;
    enter_at(alloc, depth, sig, &draft, units)?;
    Ok(())
}

/// The draft that is generated and has the name.
fn draft_named(alloc: Global, sig: &Signature, name: &Name) -> Result<Draft, Stop>
    requires signature { IsOpen sig.now }
    requires name { IsGeneratedName sig.now name.now }
    ensures answer { (g : generated.Generated) → generated.generated_by sig.now name.now ≡ Some g → Gives draft_of result (generated.generated_draft (length sig.now.entries) g) }
    ensures draft { IfOk result (λ d. IsEnterableDraft sig.now (draft_of d)) }
    ensures named { IfOk result (λ d. own_name (draft_of d) ≡ name.now) }
{
    match generated_by(sig, name.as_slice())? {
        Some(g) => generated_draft(alloc, sig, g),
        None => unreachable!(),
    }
}
