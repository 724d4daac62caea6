ghost use Rattle.std.specs.Prelude.{◌≡◌, ◌≤◌, ℕ, None, Ok, MatchOption};
ghost use Rattle.core_terms.specs.Answers.{Gives};
ghost use Rattle.core_terms.specs.Meanings.{tree_of};
ghost use Rattle.core_sig.specs.Meanings.{argument_of, family_of};
ghost use Rattle.theory.specs.Terms as tree;
ghost use Rattle.core_terms.specs.Bounds.{most_height};
ghost use Rattle.unification.specs.Built as spec;
ghost use Rattle.problems.specs.CodeBuilt.{IfThere, IsBuiltAs, split_of, teles_of};

use core_sig::{Arg, ArgKind, Constructor, Family, Signature};
use core_terms::{Items, Stop, TOP, Tele, Term, copy_whole, head, into_spine, spine_len};
use kernel_reduce::family;
use std::alloc::Global;

/// The constructor that a term is, with its family. The term has all its arguments.
#[derive(Clone, Copy)]
pub struct Built<'a> {
    pub family: u32,
    pub number: u32,
    pub record: &'a Family,
    pub con: &'a Constructor,
}

/// The constructor that the term is with all its arguments.
pub fn built_of<'a>(sig: &'a Signature, t: &Term) -> Option<Built<'a>>
    requires low { tree.height (tree_of t.now) ≤ most_height }
    ensures { MatchOption result (spec.built_of sig.now (tree_of t.now) ≡ None) (λ b. IfThere (IsBuiltAs b) (spec.built_of sig.now (tree_of t.now))) }
{
    let Term::Con(n, number) = head(t) else {
        return None;
    };
    let record = family(sig, *n)?;
    let con = record.cons.as_slice().get(*number as usize)?;
    let count = record.params.as_slice().len() as u128 + con.args.as_slice().len() as u128;
    if spine_len(t) as u128 != count {
        return None;
    }
    Some(Built {
        family: *n,
        number: *number,
        record,
        con,
    })
}

/// Whether no confusion and acyclicity can be made of the family.
pub fn is_fitting(f: &Family) -> bool
    ensures { result ≡ spec.is_fitting (family_of f.now) }
{
    f.level <= TOP - 2
}

pub fn has_no_indices(f: &Family) -> bool
    ensures { result ≡ spec.has_no_indices (family_of f.now) }
{
    f.indices.as_slice().is_empty()
}

/// Whether the type of an argument of a family without indices is the family itself. A recursive argument with inner ones has a
/// product as its type; of one that has none the definition finds no inner argument.
pub fn is_direct(arg: &Arg) -> bool
    ensures { (p : ℕ) → result ≡ spec.is_direct (argument_of p arg.now) }
{
    match arg.kind {
        ArgKind::Plain => false,
        ArgKind::Recursive(0) => true,
        ArgKind::Recursive(_) => !matches!(arg.ty, Term::Pi(_, _)),
    }
}

/// The first `count` arguments of a term's head, and the others.
pub fn split_spine(alloc: Global, t: &Term, count: usize) -> Result<(Tele, Tele), Stop>
    ensures { Gives teles_of result (Ok (split_of count (tree_of t.now))) }
{
    let spine = into_spine(alloc, copy_whole(alloc, t)?)?;
    let mut first = Items::new(alloc);
    let mut rest = Items::new(alloc);
    for arg in spine {
        if first.as_slice().len() < count {
            first.push(arg)?;
        } else {
            rest.push(arg)?;
        }
    }
    Ok((first, rest))
}
