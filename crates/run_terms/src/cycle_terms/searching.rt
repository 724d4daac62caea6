ghost use Rattle.std.specs.Prelude.{◌≡◌, ◌||◌, map, option_map, slice_get};
ghost use Rattle.std.specs.Option.{option_copied};
ghost use Rattle.core_terms.specs.Meanings.{tree_of};
ghost use Rattle.core_sig.specs.Shapes.{argument_shape};
ghost use Rattle.tree_translation.specs.CycleTerms as spec;
ghost use Rattle.run_terms.specs.cycle_terms.CodeCycles as parts;
ghost use Rattle.run_terms.specs.cycle_terms.SearchMeanings.{search_of};

use case_below_gen::constructor_of;
use core_sig::{Arg, ArgKind, Family};
use core_terms::Term;
use generators::acyclic_gen::Carrier;
use problems::variable_in;

/// A search for the variable `x` below constructors of a family, which has a number, at parameters. All are at one depth.
#[derive(Clone, Copy)]
pub struct Search<'a> {
    pub number: u32,
    pub family: &'a Family,
    pub carrier: Carrier,
    pub parameters: &'a [Term],
    pub x: u32,
}

/// Whether a term is the variable itself.
pub fn is_sought(c: &Search, t: &Term) -> bool
    ensures { result ≡ spec.is_sought (search_of c.now) (tree_of t.now) }
{
    match variable_in(t) {
        Some(y) => y == c.x,
        None => false,
    }
}

/// Whether the variable is at or below a direct argument of a constructor of the family, which the term is.
#[cycle(is_below)]
pub fn is_below(c: &Search, t: &Term) -> bool
    ensures { result ≡ parts.is_below (search_of c.now) (tree_of t.now) }
{
    match constructor_of(c.number, c.family, t) {
        Some(con) => {
            let args = con.args.as_slice();
            is_below_along(c, args, args.len(), t)
        }
        None => false,
    }
}

/// Whether it is at or below a direct argument among the first `at` arguments of a constructor, the last of which are in `t`.
#[cycle(is_below)]
pub fn is_below_along(c: &Search, args: &[Arg], at: usize, t: &Term) -> bool
    ensures { result ≡ spec.is_below_along (search_of c.now) (map argument_shape args.now) at (tree_of t.now) }
{
    match t {
        Term::App(g, r) if at > 0 => {
            is_below_along(c, args, at - 1, g) || is_there(c, argument_at(args, at - 1), r)
        }
        _ => false,
    }
}

/// Whether an argument is direct, and the variable is `r`, which stands for it, or below `r`.
#[cycle(is_below)]
fn is_there(c: &Search, arg: Option<&Arg>, r: &Term) -> bool
    ensures { result ≡ spec.if_direct (option_map argument_shape (option_copied arg.entry)) (spec.is_sought (search_of c.now) (tree_of r.now) || parts.is_below (search_of c.now) (tree_of r.now)) }
{
    match arg {
        Some(
            Arg {
                kind: ArgKind::Recursive(count),
                ..
            },
        ) => *count == 0 && (is_sought(c, r) || is_below(c, r)),
        _ => false,
    }
}

/// The argument with the number.
fn argument_at(args: &[Arg], at: usize) -> Option<&Arg>
    ensures { option_map argument_shape (option_copied result) ≡ slice_get (map argument_shape args.now) at }
{
    args.get(at)
}
