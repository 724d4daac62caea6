ghost use Rattle.std.specs.Prelude.{◌≡◌, ◌≤◌, ◌↔◌, IsTrue, length, map};
ghost use Rattle.core_sig.specs.Shapes.{argument_shape, constructor_shape, shape_of};
ghost use Rattle.generators.specs.noconf_gen.Fitting.{HaveLowTypes};
ghost use Rattle.decide_eq.specs.Fitting as spec;

use core_sig::{Arg, Constructor, Family};
use core_terms::MAX_HEIGHT;

/// Whether no type is too high.
fn have_low_types(args: &[Arg]) -> bool
    ensures { IsTrue result ↔ HaveLowTypes (map argument_shape args.now) }
{
    match args {
        [] => true,
        [arg, rest @ ..] => arg.ty.height() <= MAX_HEIGHT && have_low_types(rest),
    }
}

/// Whether a constructor of a family with so many parameters has few arguments, with types that are not too high.
fn fits_constructor(params: usize, con: &Constructor) -> bool
    requires { params ≤ 1000 }
    ensures { IsTrue result ↔ spec.FitsConstructor params (constructor_shape con.now) }
{
    let args = con.args.as_slice();
    args.len() <= 1000 - params && have_low_types(args)
}

fn fit_constructors(params: usize, cons: &[Constructor]) -> bool
    requires { params ≤ 1000 }
    ensures { IsTrue result ↔ spec.FitConstructors params (map constructor_shape cons.now) }
{
    match cons {
        [] => true,
        [con, rest @ ..] => fits_constructor(params, con) && fit_constructors(params, rest),
    }
}

/// Whether a family is small enough for a decision that is not too high. Takes no memory.
pub fn fits_decision(f: &Family) -> bool
    ensures { IsTrue result ↔ spec.FitsDecision (shape_of f.now) }
{
    let params = f.params.as_slice().len();
    let cons = f.cons.as_slice();
    params < 1000 && cons.len() <= MAX_HEIGHT as usize && fit_constructors(params, cons)
}
