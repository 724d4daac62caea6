ghost use Rattle.std.specs.Prelude.{◌≡◌, ◌≤◌, ◌+◌, ◌↔◌, IsTrue, length, map, take};
ghost use Rattle.core_terms.specs.Meanings.{tele_of};
ghost use Rattle.core_sig.specs.Shapes.{argument_shape, constructor_shape, shape_of};
ghost use Rattle.generators.specs.noconf_gen.Fitting as spec;

use core_sig::{Arg, Constructor, Family};
use core_terms::{MAX_HEIGHT, Term};

/// Whether none of the first `count` terms is too high.
fn are_low(count: usize, terms: &[Term]) -> bool
    ensures { IsTrue result ↔ spec.AreLow (take count (tele_of terms.now)) }
{
    if count == 0 {
        return true;
    }
    match terms {
        [] => true,
        [t, rest @ ..] => t.height() <= MAX_HEIGHT && are_low(count - 1, rest),
    }
}

fn have_low_types(args: &[Arg]) -> bool
    ensures { IsTrue result ↔ spec.HaveLowTypes (map argument_shape args.now) }
{
    match args {
        [] => true,
        [arg, rest @ ..] => arg.ty.height() <= MAX_HEIGHT && have_low_types(rest),
    }
}

fn fits_indices(f: &Family) -> bool
    ensures { IsTrue result ↔ spec.FitsIndices (shape_of f.now) }
{
    let indices = f.indices.as_slice();
    f.params.as_slice().len() <= 1000 && indices.len() < 1000 && have_low_types(indices)
}

/// Whether a constructor of a family with so many parameters and indices fits as a member.
fn fits_member(params: usize, indices: usize, con: &Constructor) -> bool
    requires { params ≤ 1000 }
    ensures { IsTrue result ↔ spec.FitsMember params indices (constructor_shape con.now) }
{
    let count = con.args.as_slice().len();
    count < 2000 && params + count < 2000 && are_low(indices, con.targets.as_slice())
}

/// Whether the arguments of a constructor of such a family fit too.
fn fits_arguments(params: usize, indices: usize, con: &Constructor) -> bool
    requires { params ≤ 1000 }
    ensures { IsTrue result ↔ spec.FitsArguments params indices (constructor_shape con.now) }
{
    let args = con.args.as_slice();
    fits_member(params, indices, con) && params + args.len() <= 1000 && have_low_types(args)
}

/// Whether all constructors of such a family fit as members.
fn fit_members(params: usize, indices: usize, cons: &[Constructor]) -> bool
    requires { params ≤ 1000 }
    ensures { IsTrue result ↔ spec.FitMembers params indices (map constructor_shape cons.now) }
{
    match cons {
        [] => true,
        [con, rest @ ..] => {
            fits_member(params, indices, con) && fit_members(params, indices, rest)
        }
    }
}

/// Whether the constructor that no confusion is about fits. Takes no memory.
pub fn fits_subject(f: &Family, con: &Constructor) -> bool
    ensures { IsTrue result ↔ spec.FitsSubject (shape_of f.now) (constructor_shape con.now) }
{
    let params = f.params.as_slice().len();
    let indices = f.indices.as_slice().len();
    fits_indices(f) && fits_arguments(params, indices, con)
}

/// Whether it fits with all constructors as members. Takes no memory.
pub fn fits_confusion(f: &Family, con: &Constructor) -> bool
    ensures { IsTrue result ↔ spec.FitsConfusion (shape_of f.now) (constructor_shape con.now) }
{
    let params = f.params.as_slice().len();
    let indices = f.indices.as_slice().len();
    let cons = f.cons.as_slice();
    fits_subject(f, con) && cons.len() <= MAX_HEIGHT as usize && fit_members(params, indices, cons)
}
