ghost use Rattle.core_terms.specs.Answers.{Gives, bounded};
ghost use Rattle.core_terms.specs.Meanings.{tree_of, tele_of};
ghost use Rattle.core_terms.specs.PatternMeanings.{pat_of};

use crate::{Items, MAX_HEIGHT, Pat, Stop, Tele, Term};
use std::alloc::Global;

/// A copy of a term, or Deep.
pub fn copy(alloc: Global, t: &Term) -> Result<Term, Stop>
    ensures { Gives tree_of result (bounded (tree_of t.now)) }
{
    if t.height() > MAX_HEIGHT {
        return Err(Stop::Deep);
    }
    copy_whole(alloc, t)
}

/// Copies a term of any height.
pub fn copy_whole(alloc: Global, t: &Term) -> Result<Term, Stop>
    ensures { Gives tree_of result (Ok (tree_of t.now)) }
{
    match t {
        Term::Var(n) => Ok(Term::Var(*n)),
        Term::Sort(i) => Ok(Term::Sort(*i)),
        Term::Pi(domain, codomain) => Term::product_of(
            alloc,
            copy_whole(alloc, domain),
            copy_whole(alloc, codomain),
        ),
        Term::Lam(domain, body) => Term::function_of(
            alloc,
            copy_whole(alloc, domain),
            copy_whole(alloc, body),
        ),
        Term::App(function, argument) => Term::application_of(
            alloc,
            copy_whole(alloc, function),
            copy_whole(alloc, argument),
        ),
        Term::Let(ty, value, rest) => Term::local_of(
            alloc,
            copy_whole(alloc, ty),
            copy_whole(alloc, value),
            copy_whole(alloc, rest),
        ),
        Term::Const(c) => Ok(Term::Const(*c)),
        Term::Fam(f) => Ok(Term::Fam(*f)),
        Term::Con(f, c) => Ok(Term::Con(*f, *c)),
        Term::Elim(f, m) => Ok(Term::Elim(*f, *m)),
        Term::AxiomK(i, m) => Ok(Term::AxiomK(*i, *m)),
    }
}

/// A copy of a list of terms.
pub fn copy_tele(alloc: Global, terms: &[Term]) -> Result<Tele, Stop>
    ensures { Gives tele_of result (Ok (tele_of terms.now)) }
{
    let mut copies = Items::new(alloc);
    for t in terms {
        copies.push(copy_whole(alloc, t)?)?;
    }
    Ok(copies)
}

/// A copy of a pattern.
pub fn copy_pat(alloc: Global, pat: &Pat) -> Result<Pat, Stop>
    ensures { Gives pat_of result (Ok (pat_of pat.now)) }
{
    Ok(match pat {
        Pat::Bind => Pat::Bind,
        Pat::Wild => Pat::Wild,
        Pat::Dot(t) => Pat::Dot(copy_whole(alloc, t)?),
        Pat::Con(f, c, args) => {
            let mut copies = Items::new(alloc);
            for arg in args.as_slice() {
                copies.push(copy_pat(alloc, arg)?)?;
            }
            Pat::Con(*f, *c, copies)
        }
        Pat::Absurd => Pat::Absurd,
    })
}
