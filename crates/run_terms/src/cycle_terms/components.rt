ghost use Rattle.std.specs.Prelude.{◌≡◌, Ok, map};
ghost use Rattle.core_terms.specs.Answers.{Gives};
ghost use Rattle.core_terms.specs.Meanings.{tree_of};
ghost use Rattle.core_sig.specs.Shapes.{argument_shape};
ghost use Rattle.tree_translation.specs.CycleTerms as spec;
ghost use Rattle.run_terms.specs.cycle_terms.CodeCycles as parts;
ghost use Rattle.run_terms.specs.cycle_terms.SearchMeanings.{search_of};

use crate::cycle_terms::said::said_of;
use crate::cycle_terms::searching::{Search, is_below_along, is_sought};
use case_below_gen::{Side, constructor_of};
use core_sig::Arg;
use core_terms::{Stop, Term};
use std::alloc::Global;

/// The component for the variable in a tuple at a constructor of the family.
pub fn component_for(alloc: Global, c: &Search, whole: &Term, tuple: Term) -> Result<Term, Stop>
    ensures { Gives tree_of result (Ok (spec.component_for (search_of c.now) (tree_of whole.now) (tree_of tuple))) }
{
    match constructor_of(c.number, c.family, whole) {
        Some(con) => {
            let args = con.args.as_slice();
            component_along(alloc, c, whole, args, args.len(), whole, tuple)
        }
        None => Ok(tuple),
    }
}

/// The component from the first `at` arguments of `whole`, the last of which are in `t`.
#[cycle(component)]
fn component_along(
    alloc: Global,
    c: &Search,
    whole: &Term,
    args: &[Arg],
    at: usize,
    t: &Term,
    tuple: Term,
) -> Result<Term, Stop>
    ensures { Gives tree_of result (Ok (spec.component_along (search_of c.now) (tree_of whole.now) (map argument_shape args.now) at (tree_of t.now) (tree_of tuple))) }
{
    match t {
        Term::App(g, r) if at > 0 => {
            if is_below_along(c, args, at - 1, g) {
                component_along(alloc, c, whole, args, at - 1, g, tuple)
            } else {
                component_at(alloc, c, whole, args, at - 1, r, tuple)
            }
        }
        _ => Ok(tuple),
    }
}

/// The component through argument `at` of `whole`, which is `r`.
#[cycle(component)]
fn component_at(
    alloc: Global,
    c: &Search,
    whole: &Term,
    args: &[Arg],
    at: usize,
    r: &Term,
    tuple: Term,
) -> Result<Term, Stop>
    ensures { Gives tree_of result (Ok (parts.component_at (search_of c.now) (tree_of whole.now) (map argument_shape args.now) at (tree_of r.now) (tree_of tuple))) }
{
    if is_sought(c, r) {
        return said_of(alloc, c, Side::First, whole, args, at, tuple);
    }
    match constructor_of(c.number, c.family, r) {
        Some(con) => {
            let tuple = said_of(alloc, c, Side::Second, whole, args, at, tuple)?;
            let inner = con.args.as_slice();
            component_along(alloc, c, r, inner, inner.len(), r, tuple)
        }
        None => Ok(tuple),
    }
}
