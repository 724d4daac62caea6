ghost use Rattle.std.specs.Prelude.{◌≡◌};
ghost use Rattle.core_terms.specs.Meanings.{tree_of};
ghost use Rattle.unification.specs.Solutions as spec;

use core_terms::Term;

/// The number of a variable.
pub fn variable_in(t: &Term) -> Option<u32>
    ensures { result ≡ spec.variable_in (tree_of t.now) }
{
    match t {
        Term::Var(x) => Some(*x),
        _ => None,
    }
}
