ghost use Rattle.std.specs.Prelude.{◌≡◌, ◌↔◌, IsTrue, map};
ghost use Rattle.core_sig.specs.Shapes.{argument_shape, constructor_shape, shape_of};
ghost use Rattle.generators.specs.acyclic_gen.Bounds.{AreLow, AreSmallArguments, HaveSmallArguments, IsSmallShape};

use crate::acyclic_gen::direct_arguments::has_direct;
use core_sig::{Arg, Constructor, Family, is_few};
use core_terms::MAX_HEIGHT;

fn are_low(args: &[Arg]) -> bool
    ensures { IsTrue result ↔ AreLow (map argument_shape args.now) }
{
    match args {
        [] => true,
        [arg, rest @ ..] => arg.ty.height() <= MAX_HEIGHT && are_low(rest),
    }
}

fn are_small_arguments(args: &[Arg]) -> bool
    ensures { IsTrue result ↔ AreSmallArguments (map argument_shape args.now) }
{
    args.len() <= MAX_HEIGHT as usize / 2 && are_low(args)
}

/// Whether each constructor with direct arguments has at most 1,000 arguments, with types that are no higher than 2,000. Else the
/// comparison of such a constructor with itself is too high.
fn have_small_arguments(cons: &[Constructor]) -> bool
    ensures { IsTrue result ↔ HaveSmallArguments (map constructor_shape cons.now) }
{
    match cons {
        [] => true,
        [con, rest @ ..] => {
            let args = con.args.as_slice();
            (!has_direct(args) || are_small_arguments(args)) && have_small_arguments(rest)
        }
    }
}

/// Whether a family has few enough parameters, constructors and arguments for an entry that is not too high. Takes no memory.
pub fn is_small(f: &Family) -> bool
    ensures { IsTrue result ↔ IsSmallShape (shape_of f.now) }
{
    is_few(f) && have_small_arguments(f.cons.as_slice())
}
