ghost use Rattle.std.specs.Prelude.{◌≡◌, ◌≤◌, length};
ghost use Rattle.core_terms.specs.Bounds.{most_height};
ghost use Rattle.core_sig.specs.Shapes.{constructor_shape, shape_of};

use core_sig::{Constructor, Family};

/// How many parameters a family has.
pub fn parameter_count(f: &Family) -> u32
    requires { length (shape_of f.now).parameters ≤ most_height }
    ensures { result ≡ length (shape_of f.now).parameters }
{
    f.params.as_slice().len() as u32
}

/// How many indices a family has.
pub fn index_count(f: &Family) -> u32
    requires { length (shape_of f.now).indices ≤ most_height }
    ensures { result ≡ length (shape_of f.now).indices }
{
    f.indices.as_slice().len() as u32
}

/// How many arguments a constructor has.
pub fn arity(con: &Constructor) -> u32
    requires { length (constructor_shape con.now).arguments ≤ most_height }
    ensures { result ≡ length (constructor_shape con.now).arguments }
{
    con.args.as_slice().len() as u32
}
