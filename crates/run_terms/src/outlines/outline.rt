ghost use Rattle.std.specs.Prelude.{◌≡◌, ◌∷◌, ◌++◌, Ok, map};
ghost use Rattle.core_terms.specs.Answers.{Gives};
ghost use Rattle.core_terms.specs.Meanings.{tree_of, tele_of};
ghost use Rattle.theory.specs.Terms as tree;
ghost use Rattle.tree_translation.specs.Standings.{placed};
ghost use Rattle.run_terms.specs.outlines.OutlineMeanings.{outline_of, outlines_of};

use core_terms::{Items, Stop, Term, copy_whole};
use std::alloc::Global;

/// A term in outline. A part is a whole term, a function or an application of further parts, or a part over variables that have these
/// levels, at this depth, where it is not placed yet.
#[derive(Debug, Drop)]
pub enum Outline {
    Whole(Term),
    Lam(Term, Box<Outline>),
    App(Box<Outline>, Box<Outline>),
    Placed(Items<u32>, u32, Box<Outline>),
}

/// Outlines, the first one first.
#[derive(Debug, Drop)]
pub enum Outlines {
    Empty,
    First(Outline, Box<Outlines>),
}

impl Outline {
    /// A function.
    pub fn new_lam(alloc: Global, domain: Term, body: Outline) -> Result<Outline, Stop>
        ensures { Gives outline_of result (Ok (tree.Lam (tree_of domain) (outline_of body))) }
    {
        Ok(Outline::Lam(domain, Box::new(alloc, body)?))
    }

    /// An application.
    pub fn new_app(alloc: Global, function: Outline, argument: Outline) -> Result<Outline, Stop>
        ensures { Gives outline_of result (Ok (tree.App (outline_of function) (outline_of argument))) }
    {
        Ok(Outline::App(Box::new(alloc, function)?, Box::new(alloc, argument)?))
    }

    /// A part over variables that have these levels, at this depth.
    pub fn new_placed(
        alloc: Global,
        levels: Items<u32>,
        depth: u32,
        inner: Outline,
    ) -> Result<Outline, Stop>
        ensures { Gives outline_of result (Ok (placed levels depth (outline_of inner))) }
    {
        Ok(Outline::Placed(levels, depth, Box::new(alloc, inner)?))
    }
}

impl Outlines {
    /// An outline, and then others.
    pub fn new_first(alloc: Global, first: Outline, rest: Outlines) -> Result<Outlines, Stop>
        ensures { Gives outlines_of result (Ok (outline_of first ∷ outlines_of rest)) }
    {
        Ok(Outlines::First(first, Box::new(alloc, rest)?))
    }
}

/// The outlines of a list.
#[tactic(auto, using(tele_eq::proofs::Growing::growing))]
pub fn listed(alloc: Global, mut outlines: Vec<Outline>) -> Result<Outlines, Stop>
    ensures { Gives outlines_of result (Ok (map outline_of outlines.items)) }
{
    let mut made = Outlines::Empty;
    while let Some(last) = outlines.pop() {
        made = Outlines::new_first(alloc, last, made)?;
    }
    Ok(made)
}

/// Whole terms in outline.
pub fn first_whole(alloc: Global, terms: &[Term]) -> Result<Outlines, Stop>
    ensures { Gives outlines_of result (Ok (tele_of terms.now)) }
{
    match terms {
        [] => Ok(Outlines::Empty),
        [t, rest @ ..] => {
            let rest = first_whole(alloc, rest)?;
            Outlines::new_first(alloc, Outline::Whole(copy_whole(alloc, t)?), rest)
        }
    }
}
