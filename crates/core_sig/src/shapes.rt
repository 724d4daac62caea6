ghost use Rattle.std.specs.Prelude.{◌≡◌, ◌≤◌, ◌+◌, ◌↔◌, IsTrue, length, map};
ghost use Rattle.core_terms.specs.Bounds.{most_height};
ghost use Rattle.core_sig.specs.Shapes as spec;
ghost use Rattle.core_sig.specs.Shapes.{HaveFewArguments, IsFew, argument_shape, constructor_shape, shape_of};

use crate::{Arg, ArgKind, Constructor, Family};
use core_terms::MAX_HEIGHT;

/// Whether a family has at most 2,000 parameters, indices, constructors, and arguments of each constructor. A term with
/// more binders or arguments is too high. Takes no memory.
pub fn is_few(f: &Family) -> bool
    ensures { IsTrue result ↔ IsFew (shape_of f.now) }
{
    let most = MAX_HEIGHT as usize;
    f.params.as_slice().len() <= most
        && f.indices.as_slice().len() <= most
        && f.cons.as_slice().len() <= most
        && have_few_arguments(f.cons.as_slice())
}

fn have_few_arguments(cons: &[Constructor]) -> bool
    ensures { IsTrue result ↔ HaveFewArguments (map constructor_shape cons.now) }
{
    match cons {
        [] => true,
        [con, rest @ ..] => {
            con.args.as_slice().len() <= MAX_HEIGHT as usize && have_few_arguments(rest)
        }
    }
}

/// How many of the arguments are recursive. Takes no memory.
pub fn recursive_count(args: &[Arg]) -> u32
    requires { length args.now ≤ most_height }
    ensures is { result ≡ spec.recursive_count (map argument_shape args.now) }
    ensures few { result ≤ length args.now }
{
    match args {
        [] => 0,
        [arg, rest @ ..] => match arg.kind {
            ArgKind::Plain => recursive_count(rest),
            ArgKind::Recursive(_) => recursive_count(rest) + 1,
        },
    }
}
