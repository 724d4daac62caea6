ghost use Rattle.std.specs.Prelude.{◌↔◌, IsTrue, map};
ghost use Rattle.core_sig.specs.Shapes.{HaveFewArguments, constructor_shape, shape_of};
ghost use Rattle.mutual_pack.specs.MutualFamilies.{packed_of};
ghost use Rattle.mutual_pack.specs.Fitting.{FitsInduction};

use crate::Packed;
use core_sig::{Constructor, Family};
use core_terms::MAX_HEIGHT;

fn have_few_arguments(cons: &[Constructor]) -> bool
    ensures { IsTrue result ↔ HaveFewArguments (map constructor_shape cons.now) }
{
    match cons {
        [] => true,
        [con, rest @ ..] => {
            con.args.as_slice().len() <= MAX_HEIGHT as usize && have_few_arguments(rest)
        }
    }
}

/// Whether the lists are not longer than a term is high. Takes no memory.
pub fn fits_induction(packed: &Packed, f: &Family) -> bool
    ensures { IsTrue result ↔ FitsInduction (packed_of packed.now) (shape_of f.now) }
{
    let params = f.params.as_slice().len();
    let members = packed.members.as_slice().len();
    let cons = f.cons.as_slice();
    let most = MAX_HEIGHT as usize;
    params <= most && members <= most && cons.len() <= most && have_few_arguments(cons)
}
