//! Terms that are made of answers. A larger construction is written with these calls without a `?`: each answers the first refusal
//! among its parts, or else the term. Where a part is refused the parts after it are still made, and are lost.
ghost use Rattle.theory.specs.Terms as tree;
ghost use Rattle.core_terms.specs.Answered.{of_three, of_two, shown};
ghost use Rattle.core_terms.specs.Answers.{Gives};
ghost use Rattle.core_terms.specs.Meanings.{tree_of};

use crate::{Stop, Term};
use std::alloc::Global;

impl Term {
    /// The product of two answers. Its height is not tested.
    pub fn product_of(
        alloc: Global,
        domain: Result<Term, Stop>,
        codomain: Result<Term, Stop>,
    ) -> Result<Term, Stop>
        ensures { Gives tree_of result (of_two tree.Pi (shown domain) (shown codomain)) }
    {
        Term::new_pi(alloc, domain?, codomain?)
    }

    /// The function of two answers. Its height is not tested.
    pub fn function_of(
        alloc: Global,
        domain: Result<Term, Stop>,
        body: Result<Term, Stop>,
    ) -> Result<Term, Stop>
        ensures { Gives tree_of result (of_two tree.Lam (shown domain) (shown body)) }
    {
        Term::new_lam(alloc, domain?, body?)
    }

    /// The application of two answers. Its height is not tested.
    pub fn application_of(
        alloc: Global,
        function: Result<Term, Stop>,
        argument: Result<Term, Stop>,
    ) -> Result<Term, Stop>
        ensures { Gives tree_of result (of_two tree.App (shown function) (shown argument)) }
    {
        Term::new_app(alloc, function?, argument?)
    }

    /// The local definition of three answers. Its height is not tested.
    pub fn local_of(
        alloc: Global,
        ty: Result<Term, Stop>,
        value: Result<Term, Stop>,
        rest: Result<Term, Stop>,
    ) -> Result<Term, Stop>
        ensures { Gives tree_of result (of_three tree.Let (shown ty) (shown value) (shown rest)) }
    {
        Term::new_let(alloc, ty?, value?, rest?)
    }
}
