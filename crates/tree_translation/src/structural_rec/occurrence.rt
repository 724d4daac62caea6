ghost use Rattle.std.specs.Prelude.{◌≡◌};
ghost use Rattle.core_terms.specs.Meanings.{tree_of};
ghost use Rattle.tree_translation.specs.structural_rec.Calls as spec;
ghost use Rattle.tree_translation.specs.structural_rec.Meanings.{uses_of};
ghost use Rattle.tree_translation.specs.structural_rec.Uses.{is_recursive};

use crate::structural_rec::Use;
use core_terms::Term;

/// Whether the constant occurs in a term.
fn has_constant(own: u32, t: &Term) -> bool
    ensures { result ≡ spec.has_constant own (tree_of t.now) }
{
    match t {
        Term::Pi(first, second) | Term::Lam(first, second) | Term::App(first, second) => {
            has_constant(own, first) || has_constant(own, second)
        }
        Term::Let(ty, value, rest) => {
            has_constant(own, ty) || (has_constant(own, value) || has_constant(own, rest))
        }
        Term::Const(c) => *c == own,
        _ => false,
    }
}

/// Whether the function calls itself.
pub(crate) fn calls_itself(own: u32, uses: &[Use]) -> bool
    ensures { result ≡ is_recursive own (uses_of uses.now) }
{
    match uses {
        [] => false,
        [one, rest @ ..] => has_constant(own, &one.body) || calls_itself(own, rest),
    }
}
