ghost use Rattle.std.specs.Prelude.{◌≡◌, length};
ghost use Rattle.theory.specs.Spines.{head_of, spine_of};
ghost use Rattle.kernel_reduce.specs.Steps.{awaits_scrutinee};
ghost use Rattle.kernel_reduce.specs.Tests.{meets};
ghost use Rattle.store_reduce.specs.Forms.{IsForm};

use crate::form::Form;
use core_sig::{Signature, equality};
use kernel_reduce::{eliminator_arity, family, has_k, takes};
use term_pool::{Node, TermStore};

/// Whether the form is an eliminator, or K where it steps, with all its arguments but the scrutinee.
pub(crate) fn awaits_scrutinee_in<S: TermStore>(store: &S, sig: &Signature, f: Form<S::Id>) -> bool
    requires { IsForm (S.held store.now) f }
    ensures { result ≡ awaits_scrutinee sig.now (head_of ((S.held store.now).tree f.id)) (spine_of ((S.held store.now).tree f.id)) }
{
    match store.look(&f.head) {
        Node::Elim(n, _) => match family(sig, n) {
            Some(found) => f.count as u128 == eliminator_arity(found),
            None => false,
        },
        Node::AxiomK(i, _) => has_k(sig, i) && f.count == 4,
        _ => false,
    }
}

/// Whether `f`, that awaits its scrutinee, contracts at `u`.
pub(crate) fn contracts_in<S: TermStore>(
    store: &S,
    sig: &Signature,
    f: Form<S::Id>,
    u: Form<S::Id>,
) -> bool
    requires f { IsForm (S.held store.now) f }
    requires u { IsForm (S.held store.now) u }
    ensures { result ≡ meets sig.now (head_of ((S.held store.now).tree f.id)) (head_of ((S.held store.now).tree u.id)) (length (spine_of ((S.held store.now).tree u.id))) }
{
    match (store.look(&f.head), store.look(&u.head)) {
        (Node::Elim(n, _), Node::Con(g, number)) if g == n => match family(sig, n) {
            Some(found) => takes(found, number, u.count),
            None => false,
        },
        (Node::AxiomK(i, _), Node::Con(g, number)) => {
            g == equality(i) && number == 0 && u.count == 2
        }
        _ => false,
    }
}
