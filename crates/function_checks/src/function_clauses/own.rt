ghost use Rattle.std.specs.Prelude.{Ok};
ghost use Rattle.core_terms.specs.Answers.{Gives};
ghost use Rattle.clause_reports.specs.elaboration.Functions as spec;
ghost use Rattle.function_checks.specs.function_walks.WalkingMeanings.{opened_of};
ghost use Rattle.resolve.specs.PatternMeanings.{fun_of};

use crate::function_walks::{Opened, after_domains, first_domains};
use core_terms::{Stop, copy_whole};
use resolve::FunCore;
use std::alloc::Global;
use tele_eq::variables;

/// The function's own part before its clauses are walked: its columns are the variables of its telescope.
pub fn own_part(alloc: Global, f: &FunCore, level: u8) -> Result<Opened, Stop>
    ensures { Gives opened_of result (Ok (spec.own_part (fun_of f.now) level)) }
{
    Ok(Opened {
        level,
        tele: first_domains(alloc, f.arity, &f.ty)?,
        terms: variables(alloc, f.arity)?,
        goal: copy_whole(alloc, after_domains(f.arity, &f.ty))?,
    })
}
