//! Whether drafts may enter.
ghost use Rattle.std.specs.Prelude.{◌≡◌, IfOk, IsTrue, Ok, slice_get};
ghost use Rattle.core_sig.specs.Drafts.{draft_of};
ghost use Rattle.core_sig.specs.Meanings.{entry_of};
ghost use Rattle.core_sig.specs.Names.{find};
ghost use Rattle.core_sig.specs.ScopeTests as tests;
ghost use Rattle.core_terms.specs.Answers.{Gives};
ghost use Rattle.core_terms.specs.Meanings.{tree_of};
ghost use Rattle.drafts.specs.draft_checks.Checks as spec;
ghost use Rattle.drafts.specs.draft_entering.Conditions.{IsEnterableDraft};
ghost use Rattle.theory.specs.Terms as tree;

use crate::draft_entering::generated_by;
use core_sig::{Draft, Entry, Found, Signature};
use core_terms::{MAX_HEIGHT, Name, Stop, Term};

/// One more than the greatest free variable of a term, or 0.
fn free_of(t: &Term) -> u64
    ensures { result ≡ tree.free_of (tree_of t.now) }
{
    match t {
        Term::Var(n) => *n as u64 + 1,
        Term::Pi(a, b) | Term::Lam(a, b) => free_of(a).max(free_of(b).saturating_sub(1)),
        Term::App(f, a) => free_of(f).max(free_of(a)),
        Term::Let(a, v, b) => free_of(a).max(free_of(v).max(free_of(b).saturating_sub(1))),
        _ => 0,
    }
}

fn is_constant(sig: &Signature, n: u32) -> bool
    ensures { result ≡ tests.is_constant (slice_get sig.now.entries n) }
{
    matches!(sig.entry(n), Some(Entry::Def { .. }))
}

fn is_family(sig: &Signature, n: u32) -> bool
    ensures { result ≡ tests.is_family (slice_get sig.now.entries n) }
{
    matches!(sig.entry(n), Some(Entry::Family(_)))
}

fn has_constructor(sig: &Signature, n: u32, c: u32) -> bool
    ensures { result ≡ tests.has_constructor c (slice_get sig.now.entries n) }
{
    match sig.entry(n) {
        Some(Entry::Family(family)) => (c as usize) < family.cons.as_slice().len(),
        _ => false,
    }
}

/// Whether the constant is that of a definition below `base`, or from there on that of one of `count` names.
fn is_draft_number(sig: &Signature, base: u32, count: usize, c: u32) -> bool
    ensures { result ≡ spec.is_draft_number sig.now base count c }
{
    if c < base {
        is_constant(sig, c)
    } else {
        ((c - base) as usize) < count
    }
}

/// Whether each constant is one of a draft, and each family and constructor number has its entry.
fn has_draft_entries(sig: &Signature, base: u32, count: usize, t: &Term) -> bool
    ensures { result ≡ spec.has_draft_entries sig.now base count (tree_of t.now) }
{
    match t {
        Term::Pi(a, b) | Term::Lam(a, b) | Term::App(a, b) => {
            has_draft_entries(sig, base, count, a) && has_draft_entries(sig, base, count, b)
        }
        Term::Let(a, v, b) => {
            has_draft_entries(sig, base, count, a)
                && has_draft_entries(sig, base, count, v)
                && has_draft_entries(sig, base, count, b)
        }
        Term::Const(c) => is_draft_number(sig, base, count, *c),
        Term::Fam(n) | Term::Elim(n, _) => is_family(sig, *n),
        Term::Con(n, c) => has_constructor(sig, *n, *c),
        _ => true,
    }
}

/// Whether a term has no free variables, is not too high, and names only entries that it may name in a draft.
fn is_draft_term(sig: &Signature, base: u32, count: usize, t: &Term) -> bool
    ensures { result ≡ spec.is_draft_term sig.now base count (tree_of t.now) }
{
    free_of(t) == 0 && t.height() <= MAX_HEIGHT && has_draft_entries(sig, base, count, t)
}

/// Whether an entry is a definition by such terms.
fn is_draft_entry(sig: &Signature, base: u32, count: usize, entry: &Entry) -> bool
    ensures { result ≡ spec.is_draft_entry sig.now base count (entry_of entry.now) }
{
    match entry {
        Entry::Def { ty, body, .. } => {
            is_draft_term(sig, base, count, ty) && is_draft_term(sig, base, count, body)
        }
        _ => false,
    }
}

/// Whether an entry was found that is a definition.
fn is_definition_found(sig: &Signature, found: Option<Found>) -> bool
    ensures { result ≡ spec.is_definition_found sig.now found }
{
    match found {
        Some(Found::Entry(n)) => is_constant(sig, n),
        _ => false,
    }
}

/// Whether the name is that of a definition, or of an entry that can be generated.
fn name_enters(sig: &Signature, name: &[u8]) -> Result<bool, Stop>
    ensures { Gives (λ b. b) result (Ok (spec.name_enters sig.now name.now)) }
{
    if is_definition_found(sig, sig.find(name)) {
        return Ok(true);
    }
    Ok(generated_by(sig, name)?.is_some())
}

/// Whether each name is that of a definition, or of an entry that can be generated.
fn names_enter(sig: &Signature, names: &[Name]) -> Result<bool, Stop>
    ensures { Gives (λ b. b) result (Ok (spec.names_enter sig.now names.now)) }
{
    match names {
        [] => Ok(true),
        [name, rest @ ..] => {
            if !name_enters(sig, name.as_slice())? {
                return Ok(false);
            }
            names_enter(sig, rest)
        }
    }
}

/// Whether the draft may enter: it is a definition by terms without free variables, which are not higher than 2,000,
/// and its names are those of definitions or of entries that can be generated.
pub fn is_enterable(sig: &Signature, draft: &Draft) -> Result<bool, Stop>
    ensures answer { Gives (λ b. b) result (Ok (spec.enterable sig.now (draft_of draft.now))) }
    ensures tells { IfOk result (λ yes. IsTrue yes → IsEnterableDraft sig.now (draft_of draft.now)) }
{
    let names = draft.names.as_slice();
    if is_draft_entry(sig, draft.base, names.len(), &draft.entry) {
        names_enter(sig, names)
    } else {
        Ok(false)
    }
}
