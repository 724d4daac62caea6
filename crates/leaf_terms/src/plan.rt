ghost use Rattle.std.specs.Prelude.{◌≡◌};
ghost use Rattle.core_terms.specs.TreeMeanings.{case_tree_of};
ghost use Rattle.tree_translation.specs.Plans as spec;
ghost use Rattle.leaf_terms.specs.PlanMeanings.{part_of};

use core_terms::{Items, Name, Pat, Tele, Term, Tree, Walk};
use std::alloc::Global;

/// The function, or one of its helpers: the level at which it is translated; the telescope from which its walks start; the terms of
/// its columns; its goal, over the telescope; its tree; and for each clause a right side, the clause's own walk and its patterns.
#[derive(Drop)]
pub struct Part {
    pub level: u8,
    pub tele: Tele,
    pub terms: Tele,
    pub goal: Term,
    pub tree: Tree,
    pub sides: Items<Term>,
    pub walks: Items<Walk>,
    pub pats: Items<Items<Pat>>,
}

/// A function over `base` entries: its name, its written type, the number of its patterns, its level, the position at which it is
/// recursive, if it is, and its parts, the function's own first. In right sides the function is the constant `base`, and helper k the
/// constant `base + k`.
#[derive(Drop)]
pub struct Plan {
    pub base: u32,
    pub name: Name,
    pub ty: Term,
    pub arity: u32,
    pub level: u8,
    pub position: Option<u32>,
    pub parts: Items<Part>,
}

/// A part that is read nowhere.
pub fn no_part(alloc: Global) -> Part
    ensures { part_of result ≡ spec.no_part }
{
    Part {
        level: 0,
        tele: Items::new(alloc),
        terms: Items::new(alloc),
        goal: Term::Sort(0),
        tree: no_tree(alloc),
        sides: Items::new(alloc),
        walks: Items::new(alloc),
        pats: Items::new(alloc),
    }
}

/// Its tree.
fn no_tree(alloc: Global) -> Tree
    ensures { case_tree_of result ≡ spec.no_part.tree }
{
    Tree::Leaf {
        clause: 0,
        ctx: Items::new(alloc),
        goal: Term::Sort(0),
        subst: Items::new(alloc),
        terms: Items::new(alloc),
        binds: Items::new(alloc),
    }
}
