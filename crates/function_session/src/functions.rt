ghost use Rattle.std.specs.Prelude.{◌≡◌, length, IfOk, OnErr};
ghost use Rattle.surface_syntax.specs.TreeMeanings.{decl_of};
ghost use Rattle.resolve.specs.DeclaredNames.{declared_word};
ghost use Rattle.resolve.specs.Functions.{IsFun, resolve_fun};
ghost use Rattle.resolve.specs.PatternMeanings.{fun_of};
ghost use Rattle.elab_session.specs.Sessions.{IsReady};
ghost use Rattle.function_session.specs.function_lines.Conditions.{IsWorkingOn};
ghost use Rattle.function_session.specs.Elaborating as spec;
ghost use Rattle.function_session.specs.Meanings.{Answers};

use crate::Accepted;
use crate::function_lines::function;
use crate::refusing::refused_function;
use core_sig::Signature;
use core_terms::{Items, Units, copy_name};
use elab_session::Refusal;
use resolve::{FunCore, declared_word, resolve_fun};
use std::alloc::Global;
use surface_syntax::{Decl, Word};

/// Adds the function that is written.
pub(crate) fn elaborate_function(
    alloc: Global,
    sig: &mut Signature,
    fuel: u64,
    d: &Decl,
) -> Result<Accepted, Refusal>
    requires ready { IsReady sig.old }
    requires written { IsFun (decl_of d.now) }
    ensures answer { Answers sig.new result (spec.on_function (resolve_fun sig.old (decl_of d.now)) (spec.enter_function sig.old fuel (declared_word (decl_of d.now)))) }
    ensures err { OnErr result (sig.new ≡ sig.old) }
    ensures begins { IfOk result (λ a. a.from ≡ length sig.old.entries) }
    ensures ends { IfOk result (λ a. a.to ≡ length sig.new.entries) }
{
    let f = resolve_fun(alloc, sig, d)?;
    enter_function(alloc, sig, fuel, declared_word(d), &f)
}

/// Adds a function that is resolved.
fn enter_function(
    alloc: Global,
    sig: &mut Signature,
    fuel: u64,
    x: &Word,
    f: &FunCore,
) -> Result<Accepted, Refusal>
    requires { IsWorkingOn sig.old (fun_of f.now) }
    ensures answer { Answers sig.new result (spec.enter_function sig.old fuel x.now (fun_of f.now)) }
    ensures err { OnErr result (sig.new ≡ sig.old) }
    ensures begins { IfOk result (λ a. a.from ≡ length sig.old.entries) }
    ensures ends { IfOk result (λ a. a.to ≡ length sig.new.entries) }
{
    let name = copy_name(alloc, &x.text)?;
    let from = sig.len();
    let mut units = Units {
        left: fuel,
        spent: 0,
        full: false,
    };
    match function(alloc, sig, f, &mut units) {
        Ok(lines) => Ok(Accepted {
            name,
            from,
            to: sig.len(),
            lines,
            mutual: Items::new(alloc),
        }),
        Err(refusal) => Err(refused_function(alloc, fuel, refusal)),
    }
}
