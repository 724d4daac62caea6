ghost use Rattle.std.specs.Prelude.{◌≡◌, ◌≤◌, ◌+◌, ◌++◌, IfOk, Ok};
ghost use Rattle.theory.specs.Telescopes as telescopes;
ghost use Rattle.core_terms.specs.Answers.{Gives};
ghost use Rattle.core_terms.specs.Levels.{run};
ghost use Rattle.core_terms.specs.Meanings.{tele_of};
ghost use Rattle.tele_eq.specs.Items.{AreSmallTerms};

use core_terms::{Items, Stop, Tele, Term, variable};
use std::alloc::Global;

/// Terms, followed by the variables of a context of `count` types, from the outermost on.
#[tactic(auto, using(crate::proofs::Growing::growing))]
pub fn with_variables(mut made: Tele, count: u32) -> Result<Tele, Stop>
    ensures { Gives tele_of result (Ok (tele_of made ++ telescopes.variables count)) }
{
    if count == 0 {
        return Ok(made);
    }
    made.push(Term::Var(count - 1))?;
    with_variables(made, count - 1)
}

/// The variables of a context of `count` types, from the outermost on.
pub fn variables(alloc: Global, count: u32) -> Result<Tele, Stop>
    ensures { Gives tele_of result (Ok (telescopes.variables count)) }
{
    with_variables(Items::new(alloc), count)
}

/// The variables with `count` levels from `start` on, at a depth, after those that are made.
#[tactic(auto, using(crate::proofs::Growing::growing))]
fn run_from(depth: u32, start: u32, count: u32, mut made: Tele) -> Result<Tele, Stop>
    requires { start + count ≤ 1000000 }
    ensures { Gives tele_of result (Ok (tele_of made ++ run depth start count)) }
{
    if count == 0 {
        return Ok(made);
    }
    made.push(variable(depth, start))?;
    run_from(depth, start + 1, count - 1, made)
}

/// The variables with `count` levels from `start` on, at a depth.
pub fn variables_of_run(alloc: Global, depth: u32, start: u32, count: u32) -> Result<Tele, Stop>
    requires start { start + count ≤ 1000000 }
    requires depth { depth ≤ 1000000 }
    ensures is { Gives tele_of result (Ok (run depth start count)) }
    ensures small { IfOk result (λ v. AreSmallTerms (tele_of v)) }
{
    run_from(depth, start, count, Items::new(alloc))
}
