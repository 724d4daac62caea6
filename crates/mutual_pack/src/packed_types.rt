//! Members at their parameters as the packed family at a tag.
ghost use Rattle.std.specs.Prelude.{◌<◌, ◌+◌, ◌^◌, Ok};
ghost use Rattle.theory.specs.Terms as tree;
ghost use Rattle.core_terms.specs.Answers.{Gives};
ghost use Rattle.core_terms.specs.Meanings.{tree_of};
ghost use Rattle.mutual_pack.specs.Packing as spec;

use crate::members::Members;
use crate::positions::whole_member;
use core_sig::family_at;
use core_terms::{Stop, Term, copy_whole};
use std::alloc::Global;

/// `S p tk`, for member k, counted from 0, at a depth.
pub fn tagged(alloc: Global, g: Members, k: u32, depth: u32) -> Result<Term, Stop>
    requires { g.first + 1 < 2 ^ 32 }
    ensures { Gives tree_of result (Ok (spec.tagged g k depth)) }
{
    let head = family_at(alloc, g.first + 1, g.params, depth, 0, 0)?;
    Term::new_app(alloc, head, Term::Con(g.first, k))
}

/// The end of a type, under so many binders beyond the parameters.
fn packed_end(alloc: Global, g: Members, under: u32, t: &Term) -> Result<Term, Stop>
    requires first { g.first + 1 < 2 ^ 32 }
    requires under { g.params + under < 2 ^ 32 }
    ensures { Gives tree_of result (Ok (spec.packed_end g under (tree_of t.now))) }
{
    match whole_member(g, under, t) {
        Some(k) => tagged(alloc, g, k, g.params + under),
        None => copy_whole(alloc, t),
    }
}

/// The type of an argument, under so many binders beyond the parameters.
fn packed_argument(alloc: Global, g: Members, under: u32, t: &Term) -> Result<Term, Stop>
    requires first { g.first + 1 < 2 ^ 32 }
    requires under { g.params + under + tree.height (tree_of t.now) < 2 ^ 32 }
    ensures { Gives tree_of result (Ok (spec.packed_argument g under (tree_of t.now))) }
{
    match t {
        Term::Pi(a, b) => Term::product_of(
            alloc,
            copy_whole(alloc, a),
            packed_argument(alloc, g, under + 1, b),
        ),
        _ => packed_end(alloc, g, under, t),
    }
}

/// The type of a constructor after `under` arguments.
pub fn packed_type(alloc: Global, g: Members, under: u32, t: &Term) -> Result<Term, Stop>
    requires first { g.first + 1 < 2 ^ 32 }
    requires under { g.params + under + tree.height (tree_of t.now) < 2 ^ 32 }
    ensures { Gives tree_of result (Ok (spec.packed_type g under (tree_of t.now))) }
{
    match t {
        Term::Pi(a, b) => Term::product_of(
            alloc,
            packed_argument(alloc, g, under, a),
            packed_type(alloc, g, under + 1, b),
        ),
        _ => packed_end(alloc, g, under, t),
    }
}
