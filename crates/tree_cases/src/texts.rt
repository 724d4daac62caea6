//! Texts of contexts, terms, walks and refusals, in core text.
//!
//! A walk is its context, its terms, `binds` with the terms of its clause's variables, and, where it has dots, `dots` with what is
//! written and what is forced. A refusal is its name with its data.
use clause_walks::TreeStop;
use core_sig::Signature;
use core_terms::{Pat, Stop, Term, Walk};
use core_text::print_term;
use std::alloc::Global;
use unifier::Why;

/// Adds a term.
pub fn add_term(alloc: Global, sig: &Signature, out: &mut Vec<u8>, t: &Term) -> Result<(), Stop> {
    let text = print_term(alloc, sig, t)?;
    out.extend_from_slice(text.as_slice())?;
    Ok(())
}

/// Adds terms, each after a space.
fn add_vector(
    alloc: Global,
    sig: &Signature,
    out: &mut Vec<u8>,
    terms: &[Term],
) -> Result<(), Stop> {
    for t in terms {
        out.extend_from_slice(b" ")?;
        add_term(alloc, sig, out, t)?;
    }
    Ok(())
}

/// Adds terms, each but the first after a text.
pub fn add_terms(
    alloc: Global,
    sig: &Signature,
    out: &mut Vec<u8>,
    terms: &[Term],
    between: &[u8],
) -> Result<(), Stop> {
    let mut before: &[u8] = b"";
    for t in terms {
        out.extend_from_slice(before)?;
        add_term(alloc, sig, out, t)?;
        before = between;
    }
    Ok(())
}

/// Adds a context.
fn add_context(
    alloc: Global,
    sig: &Signature,
    out: &mut Vec<u8>,
    ctx: &[Term],
) -> Result<(), Stop> {
    out.extend_from_slice(b"[")?;
    add_terms(alloc, sig, out, ctx, b", ")?;
    out.extend_from_slice(b"]")?;
    Ok(())
}

/// Adds two terms with a text between them.
fn add_two(
    alloc: Global,
    sig: &Signature,
    out: &mut Vec<u8>,
    left: &Term,
    between: &[u8],
    right: &Term,
) -> Result<(), Stop> {
    add_term(alloc, sig, out, left)?;
    out.extend_from_slice(between)?;
    add_term(alloc, sig, out, right)
}

/// Adds what dots are written as, and what they are forced to be.
fn add_dots(
    alloc: Global,
    sig: &Signature,
    out: &mut Vec<u8>,
    dots: &[(Term, Term)],
) -> Result<(), Stop> {
    let mut before: &[u8] = b" dots ";
    for (written, forced) in dots {
        out.extend_from_slice(before)?;
        add_two(alloc, sig, out, written, b" = ", forced)?;
        before = b", ";
    }
    Ok(())
}

/// Adds a walk.
pub fn add_walk(
    alloc: Global,
    sig: &Signature,
    out: &mut Vec<u8>,
    walk: &Walk,
) -> Result<(), Stop> {
    add_context(alloc, sig, out, walk.ctx.as_slice())?;
    add_vector(alloc, sig, out, walk.terms.as_slice())?;
    out.extend_from_slice(b" binds")?;
    add_vector(alloc, sig, out, walk.binds.as_slice())?;
    add_dots(alloc, sig, out, walk.dots.as_slice())
}

fn stop_name(e: &Stop) -> &[u8] {
    match e {
        Stop::Memory => b"Memory",
        Stop::Fuel => b"Fuel",
        Stop::Deep => b"Deep",
        Stop::PoolFull => b"PoolFull",
    }
}

fn why_name(why: &Why) -> &[u8] {
    match why {
        Why::NeedsK => b" NeedsK",
        Why::NotRigid => b" NotRigid",
        Why::OccursNotRigid => b" OccursNotRigid",
        Why::Depends => b" Depends",
        Why::NeedsIndexEquations => b" NeedsIndexEquations",
    }
}

/// Adds a name and the number of a clause, which begins with 1.
fn add_name(alloc: Global, out: &mut Vec<u8>, name: &str, clause: u32) -> Result<(), Stop> {
    out.extend_from_slice(name.as_bytes())?;
    add_number(alloc, out, u64::from(clause).saturating_add(1))?;
    out.extend_from_slice(b" ")?;
    Ok(())
}

/// Adds a number.
pub fn add_number(alloc: Global, out: &mut Vec<u8>, number: u64) -> Result<(), Stop> {
    let text = format!(in alloc; "{number}")?;
    out.extend_from_slice(text.as_bytes())?;
    Ok(())
}

/// Adds the constructor of a pattern, or `()`.
fn add_pattern(alloc: Global, sig: &Signature, out: &mut Vec<u8>, pat: &Pat) -> Result<(), Stop> {
    match pat {
        Pat::Con(n, number, _) => add_term(alloc, sig, out, &Term::Con(*n, *number)),
        _ => Ok(out.extend_from_slice(b"()")?),
    }
}

/// Adds a name, the number of a clause, and a context.
fn add_place(
    alloc: Global,
    sig: &Signature,
    out: &mut Vec<u8>,
    name: &str,
    clause: u32,
    ctx: &[Term],
) -> Result<(), Stop> {
    add_name(alloc, out, name, clause)?;
    add_context(alloc, sig, out, ctx)?;
    out.extend_from_slice(b" ")?;
    Ok(())
}

/// Adds a refusal that shows two sides.
fn add_sides(alloc: Global, sig: &Signature, out: &mut Vec<u8>, e: &TreeStop) -> Result<(), Stop> {
    match e {
        TreeStop::Stuck {
            clause,
            ctx,
            left,
            right,
            why,
        } => {
            add_place(alloc, sig, out, "Stuck ", *clause, ctx.as_slice())?;
            add_two(alloc, sig, out, left, b" = ", right)?;
            Ok(out.extend_from_slice(why_name(why))?)
        }
        TreeStop::Impossible {
            clause,
            ctx,
            left,
            right,
        } => {
            add_place(alloc, sig, out, "Impossible ", *clause, ctx.as_slice())?;
            add_two(alloc, sig, out, left, b" = ", right)
        }
        _ => Ok(()),
    }
}

/// Adds a refusal.
pub fn add_stop(
    alloc: Global,
    sig: &Signature,
    out: &mut Vec<u8>,
    e: &TreeStop,
) -> Result<(), Stop> {
    match e {
        TreeStop::Stop(e) => Ok(out.extend_from_slice(stop_name(e))?),
        TreeStop::Uncovered { ctx, terms } => {
            out.extend_from_slice(b"Uncovered ")?;
            add_context(alloc, sig, out, ctx.as_slice())?;
            add_vector(alloc, sig, out, terms.as_slice())
        }
        TreeStop::NotAbsurd {
            clause,
            family,
            con,
        } => {
            add_name(alloc, out, "NotAbsurd ", *clause)?;
            add_term(alloc, sig, out, &Term::Con(*family, *con))
        }
        TreeStop::WrongConstructor { clause, ctx, ty } => {
            add_place(
                alloc,
                sig,
                out,
                "WrongConstructor ",
                *clause,
                ctx.as_slice(),
            )?;
            add_term(alloc, sig, out, ty)
        }
        TreeStop::Forced {
            clause,
            ctx,
            pat,
            term,
        } => {
            add_place(alloc, sig, out, "Forced ", *clause, ctx.as_slice())?;
            add_pattern(alloc, sig, out, pat)?;
            out.extend_from_slice(b" forced ")?;
            add_term(alloc, sig, out, term)
        }
        sides => add_sides(alloc, sig, out, sides),
    }
}
