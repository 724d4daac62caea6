ghost use Rattle.std.specs.Prelude.{◌≡◌};
ghost use Rattle.core_terms.specs.Answers.{Gives};
ghost use Rattle.core_terms.specs.Meanings.{tree_of};
ghost use Rattle.core_sig.specs.Shapes.{IsFew, shape_of};
ghost use Rattle.generators.specs.acyclic_gen.DirectEntries as entries;
ghost use Rattle.generators.specs.acyclic_gen.Statements as spec;

use core_sig::{Family, family_at};
use core_terms::{Stop, Term};
use std::alloc::Global;

/// A family D at its parameters p, which have the levels from 0 on: its number and level, how many parameters it has, and the
/// number of the constant `D!direct`.
#[derive(Clone, Copy)]
pub struct Carrier {
    pub family: u32,
    pub level: u8,
    pub params: u32,
    pub direct: u32,
}

/// `D p`, at a depth.
pub fn carrier_at(alloc: Global, q: Carrier, depth: u32) -> Result<Term, Stop>
    ensures { Gives tree_of result (Ok (spec.carrier_at q depth)) }
{
    family_at(alloc, q.family, q.params, depth, 0, 0)
}

/// The family at its parameters, where `D!direct` is the constant `direct`.
pub fn carrier_of(fam: u32, f: &Family, direct: u32) -> Carrier
    requires { IsFew (shape_of f.now) }
    ensures { result ≡ entries.carrier_of fam (shape_of f.now) direct }
{
    Carrier {
        family: fam,
        level: f.level,
        params: f.params.as_slice().len() as u32,
        direct,
    }
}
