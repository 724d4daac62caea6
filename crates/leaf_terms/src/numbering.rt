ghost use Rattle.std.specs.Prelude.{◌≡◌, ◌-◌, ◌++◌, ◌∷◌, [], Ok, cond, get_or, nat_lt};
ghost use Rattle.core_terms.specs.Answers.{Gives};
ghost use Rattle.core_terms.specs.Meanings.{tree_of};
ghost use Rattle.core_sig.specs.Drafts.{draft_of, drafted as drafted_of};
ghost use Rattle.core_sig.specs.Settling as settling;
ghost use Rattle.tree_translation.specs.Naming as spec;
ghost use Rattle.leaf_terms.specs.CodeNumbering as numbering;

use core_sig::{Draft, drafted};
use core_terms::{Items, Name, Stop, Term, copy_name, copy_whole, number_of, sum};
use run_terms::place_in;
use std::alloc::Global;
use tele_eq::is_among;

/// Places, followed by that of a constant, where it is from `base` on.
fn with_place(base: u32, c: u32, mut made: Items<u32>) -> Result<Items<u32>, Stop>
    ensures { Gives (λ v. v) result (Ok (made ++ cond (nat_lt c base) [] ((c - base) ∷ []))) }
{
    if c >= base {
        made.push(c - base)?;
    }
    Ok(made)
}

/// Places, followed by those of the constants from `base` on in a term, from the left.
#[tactic(auto, using(crate::proofs::Mentions::joining))]
fn with_mentions(base: u32, t: &Term, made: Items<u32>) -> Result<Items<u32>, Stop>
    ensures { Gives (λ v. v) result (Ok (made ++ spec.mentions base (tree_of t.now))) }
{
    match t {
        Term::Pi(a, b) | Term::Lam(a, b) | Term::App(a, b) => {
            let made = with_mentions(base, a, made)?;
            with_mentions(base, b, made)
        }
        Term::Let(a, t, b) => {
            let made = with_mentions(base, a, made)?;
            let made = with_mentions(base, t, made)?;
            with_mentions(base, b, made)
        }
        Term::Const(c) => with_place(base, *c, made),
        Term::Var(_)
        | Term::Sort(_)
        | Term::Fam(_)
        | Term::Con(_, _)
        | Term::Elim(_, _)
        | Term::AxiomK(_, _) => Ok(made),
    }
}

/// Places, followed by one more where it is not there yet.
fn with_new(mut made: Items<u32>, i: u32) -> Result<Items<u32>, Stop>
    ensures { Gives (λ v. v) result (Ok (numbering.with_new made i)) }
{
    if !is_among(i, made.as_slice()) {
        made.push(i)?;
    }
    Ok(made)
}

/// Places, followed by those of others that are not there yet, each once.
fn with_once(made: Items<u32>, places: &[u32]) -> Result<Items<u32>, Stop>
    ensures { Gives (λ v. v) result (Ok (numbering.all_new made places.now)) }
{
    match places {
        [] => Ok(made),
        [i, rest @ ..] => {
            let made = with_new(made, *i)?;
            with_once(made, rest)
        }
    }
}

/// The places of the names that a type and a term mention, in the order of first mention.
#[tactic(auto, using(crate::proofs::Mentions::once_laws))]
fn places_of(alloc: Global, base: u32, ty: &Term, body: &Term) -> Result<Items<u32>, Stop>
    ensures { Gives (λ v. v) result (Ok (numbering.places_of base (tree_of ty.now) (tree_of body.now))) }
{
    let mentioned = with_mentions(base, ty, Items::new(alloc))?;
    let mentioned = with_mentions(base, body, mentioned)?;
    with_once(Items::new(alloc), mentioned.as_slice())
}

/// The name at a place, or none.
fn name_at(alloc: Global, table: &[Name], i: u32) -> Result<Name, Stop>
    ensures { Gives (λ name. name) result (Ok (get_or table.now i [])) }
{
    match table.get(i as usize) {
        Some(name) => Ok(copy_name(alloc, name)?),
        None => Ok(Name::from_vec(Vec::new(alloc))),
    }
}

/// Names, followed by those at some places.
#[tactic(auto, using(tele_eq::proofs::Growing::listing))]
fn with_names_at(
    alloc: Global,
    table: &[Name],
    places: &[u32],
    mut made: Items<Name>,
) -> Result<Items<Name>, Stop>
    ensures { Gives (λ ns. ns) result (Ok (made ++ numbering.names_at table.now places.now)) }
{
    match places {
        [] => Ok(made),
        [i, rest @ ..] => {
            made.push(name_at(alloc, table, *i)?)?;
            with_names_at(alloc, table, rest, made)
        }
    }
}

/// The number of a constant among those that are mentioned.
fn number_among(base: u32, places: &[u32], c: u32) -> Result<u32, Stop>
    ensures { Gives (λ n. n) result (Ok (spec.number_among base places.now c)) }
{
    if c < base {
        return Ok(c);
    }
    sum(base, number_of(place_in(places, c - base))?)
}

/// A term with its constants numbered by first mention.
fn renumbered(alloc: Global, base: u32, places: &[u32], t: &Term) -> Result<Term, Stop>
    ensures { Gives tree_of result (Ok (settling.renumbered (spec.number_among base places.now) (tree_of t.now))) }
{
    match t {
        Term::Pi(a, b) => Term::product_of(
            alloc,
            renumbered(alloc, base, places, a),
            renumbered(alloc, base, places, b),
        ),
        Term::Lam(a, b) => Term::function_of(
            alloc,
            renumbered(alloc, base, places, a),
            renumbered(alloc, base, places, b),
        ),
        Term::App(f, a) => Term::application_of(
            alloc,
            renumbered(alloc, base, places, f),
            renumbered(alloc, base, places, a),
        ),
        Term::Let(a, t, b) => Term::local_of(
            alloc,
            renumbered(alloc, base, places, a),
            renumbered(alloc, base, places, t),
            renumbered(alloc, base, places, b),
        ),
        Term::Const(c) => Ok(Term::Const(number_among(base, places, *c)?)),
        Term::Var(_)
        | Term::Sort(_)
        | Term::Fam(_)
        | Term::Con(_, _)
        | Term::Elim(_, _)
        | Term::AxiomK(_, _) => copy_whole(alloc, t),
    }
}

/// The draft of a type and a term with the names at some places, or Deep.
fn renumbered_draft(
    alloc: Global,
    name: Name,
    base: u32,
    names: Items<Name>,
    places: &[u32],
    ty: &Term,
    body: &Term,
) -> Result<Draft, Stop>
    ensures { Gives draft_of result (drafted_of name base names (settling.renumbered (spec.number_among base places.now) (tree_of ty.now)) (settling.renumbered (spec.number_among base places.now) (tree_of body.now))) }
{
    let ty = renumbered(alloc, base, places, ty)?;
    let body = renumbered(alloc, base, places, body)?;
    drafted(name, base, names, ty, body)
}

/// The draft of a type and a term that are made with the numbers of these names: those that are mentioned stay, in the order of first
/// mention. Deep where the type or the term is too high.
pub fn numbered(
    alloc: Global,
    name: Name,
    base: u32,
    table: &[Name],
    ty: &Term,
    body: &Term,
) -> Result<Draft, Stop>
    ensures { Gives draft_of result (numbering.numbered name base table.now (tree_of ty.now) (tree_of body.now)) }
{
    let places = places_of(alloc, base, ty, body)?;
    let names = with_names_at(alloc, table, places.as_slice(), Items::new(alloc))?;
    renumbered_draft(alloc, name, base, names, places.as_slice(), ty, body)
}
