ghost use Rattle.std.specs.Prelude.{◌≡◌, ◌≤◌, ℕ, map, length, All, IfOk};
ghost use Rattle.theory.specs.Signatures as signature;
ghost use Rattle.theory.specs.SignatureScopes.{IsScoped};
ghost use Rattle.theory.specs.Terms as tree;
ghost use Rattle.core_terms.specs.Answers.{Gives};
ghost use Rattle.core_terms.specs.Meanings.{tree_of, tele_of};
ghost use Rattle.core_sig.specs.DraftScopes.{IsDraftTerm, NamesConstant};
ghost use Rattle.core_sig.specs.EntryTerms.{EachTerm};
ghost use Rattle.core_sig.specs.Kinds.{HasEntryKinds};
ghost use Rattle.core_sig.specs.Meanings.{entry_of};
ghost use Rattle.core_sig.specs.SettledParts.{argument_parts, constructor_parts, family_parts, settled_argument, settled_constructor, settled_family, settled_terms};
ghost use Rattle.core_sig.specs.Settling.{renumbered, renumbered_entry, settled_number};

use crate::{Arg, Constructor, Draft, Entry, Family, Found, Signature};
use core_terms::{Items, Stop, Tele, Term, copy_name, copy_whole};
use std::alloc::Global;

/// The draft's entry with the numbers that its names have in the signature. A name that is no entry's, and a constant
/// after the names, keeps its number. If the names are constants of `T`, and the draft is scoped over `T` but for its
/// names, the entry is scoped over `T`.
pub fn settle(alloc: Global, sig: &Signature, draft: &Draft) -> Result<Entry, Stop>
    ensures answer { Gives entry_of result (Ok (renumbered_entry (settled_number sig.now draft.now.base draft.now.names) (entry_of draft.now.entry))) }
    ensures kinds { (n : ℕ) → HasEntryKinds n draft.now.entry → IfOk result (HasEntryKinds n) }
    ensures scoped { (T : signature.Signature) → All (NamesConstant sig.now T) draft.now.names → EachTerm (IsDraftTerm T draft.now.base (length draft.now.names)) (entry_of draft.now.entry) → IfOk result (λ e. EachTerm (IsScoped T) (entry_of e)) }
    ensures height { (h : ℕ) → EachTerm (λ n t. tree.height t ≤ h) (entry_of draft.now.entry) → IfOk result (λ e. EachTerm (λ n t. tree.height t ≤ h) (entry_of e)) }
{
    settle_entry(alloc, sig, draft)
}

fn settle_entry(alloc: Global, sig: &Signature, draft: &Draft) -> Result<Entry, Stop>
    ensures answer { Gives entry_of result (Ok (renumbered_entry (settled_number sig.now draft.now.base draft.now.names) (entry_of draft.now.entry))) }
    ensures kinds { (n : ℕ) → HasEntryKinds n draft.now.entry → IfOk result (HasEntryKinds n) }
{
    match &draft.entry {
        Entry::Family(family) => Ok(Entry::Family(settle_family(alloc, sig, draft, family)?)),
        Entry::Elim(family, level) => Ok(Entry::Elim(*family, *level)),
        Entry::AxiomK(level, motive) => Ok(Entry::AxiomK(*level, *motive)),
        Entry::Def { name, ty, body } => Ok(Entry::Def {
            name: copy_name(alloc, name)?,
            ty: settle_term(alloc, sig, draft, ty)?,
            body: settle_term(alloc, sig, draft, body)?,
        }),
    }
}

fn settle_family(
    alloc: Global,
    sig: &Signature,
    draft: &Draft,
    family: &Family,
) -> Result<Family, Stop>
    ensures { Gives family_parts result (Ok (settled_family (settled_number sig.now draft.now.base draft.now.names) family.now)) }
{
    let name = copy_name(alloc, &family.name)?;
    let params = settle_terms(alloc, sig, draft, family.params.as_slice())?;
    let indices = settle_arguments(alloc, sig, draft, family.indices.as_slice())?;
    let mut cons = Items::new(alloc);
    for con in family.cons.as_slice() {
        cons.push(settle_constructor(alloc, sig, draft, con)?)?;
    }
    Ok(Family {
        name,
        params,
        indices,
        level: family.level,
        cons,
    })
}

fn settle_constructor(
    alloc: Global,
    sig: &Signature,
    draft: &Draft,
    con: &Constructor,
) -> Result<Constructor, Stop>
    ensures { Gives constructor_parts result (Ok (settled_constructor (settled_number sig.now draft.now.base draft.now.names) con.now)) }
{
    Ok(Constructor {
        name: copy_name(alloc, &con.name)?,
        args: settle_arguments(alloc, sig, draft, con.args.as_slice())?,
        targets: settle_terms(alloc, sig, draft, con.targets.as_slice())?,
    })
}

fn settle_arguments(
    alloc: Global,
    sig: &Signature,
    draft: &Draft,
    args: &[Arg],
) -> Result<Items<Arg>, Stop>
    ensures { Gives (map argument_parts) result (Ok (map (settled_argument (settled_number sig.now draft.now.base draft.now.names)) args.now)) }
{
    let mut settled = Items::new(alloc);
    for arg in args {
        settled.push(settle_argument(alloc, sig, draft, arg)?)?;
    }
    Ok(settled)
}

fn settle_argument(alloc: Global, sig: &Signature, draft: &Draft, arg: &Arg) -> Result<Arg, Stop>
    ensures { Gives argument_parts result (Ok (settled_argument (settled_number sig.now draft.now.base draft.now.names) arg.now)) }
{
    Ok(Arg {
        ty: settle_term(alloc, sig, draft, &arg.ty)?,
        level: arg.level,
        kind: arg.kind,
    })
}

fn settle_terms(alloc: Global, sig: &Signature, draft: &Draft, terms: &[Term]) -> Result<Tele, Stop>
    ensures { Gives tele_of result (Ok (settled_terms (settled_number sig.now draft.now.base draft.now.names) terms.now)) }
{
    let mut settled = Items::new(alloc);
    for t in terms {
        settled.push(settle_term(alloc, sig, draft, t)?)?;
    }
    Ok(settled)
}

/// The term with the numbers that the names of the draft have in the signature.
fn settle_term(alloc: Global, sig: &Signature, draft: &Draft, t: &Term) -> Result<Term, Stop>
    ensures { Gives tree_of result (Ok (renumbered (settled_number sig.now draft.now.base draft.now.names) (tree_of t.now))) }
{
    match t {
        Term::Pi(a, b) => Term::product_of(
            alloc,
            settle_term(alloc, sig, draft, a),
            settle_term(alloc, sig, draft, b),
        ),
        Term::Lam(a, b) => Term::function_of(
            alloc,
            settle_term(alloc, sig, draft, a),
            settle_term(alloc, sig, draft, b),
        ),
        Term::App(f, a) => Term::application_of(
            alloc,
            settle_term(alloc, sig, draft, f),
            settle_term(alloc, sig, draft, a),
        ),
        Term::Let(a, t, b) => Term::local_of(
            alloc,
            settle_term(alloc, sig, draft, a),
            settle_term(alloc, sig, draft, t),
            settle_term(alloc, sig, draft, b),
        ),
        Term::Const(c) => Ok(Term::Const(settled_number(sig, draft, *c))),
        Term::Var(_)
        | Term::Sort(_)
        | Term::Fam(_)
        | Term::Con(_, _)
        | Term::Elim(_, _)
        | Term::AxiomK(_, _) => copy_whole(alloc, t),
    }
}

fn settled_number(sig: &Signature, draft: &Draft, constant: u32) -> u32
    ensures { result ≡ settled_number sig.now draft.now.base draft.now.names constant }
{
    if constant < draft.base {
        return constant;
    }
    let Some(name) = draft.names.as_slice().get((constant - draft.base) as usize) else {
        return constant;
    };
    match sig.find(name.as_slice()) {
        Some(Found::Entry(number)) => number,
        _ => constant,
    }
}
