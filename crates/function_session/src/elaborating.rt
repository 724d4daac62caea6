ghost use Rattle.std.specs.Prelude.{◌≡◌, length, IfOk, OnErr};
ghost use Rattle.surface_syntax.specs.TreeMeanings.{decl_of};
ghost use Rattle.elab_session.specs.Declaring.{IsPlain, declare_of};
ghost use Rattle.elab_session.specs.Sessions.{IsReady};
ghost use Rattle.function_session.specs.Elaborating as spec;
ghost use Rattle.function_session.specs.Meanings.{Answers};

use crate::Accepted;
use crate::functions::elaborate_function;
use core_sig::Signature;
use core_terms::Items;
use elab_session::{Refusal, declare};
use std::alloc::Global;
use surface_syntax::Decl;

/// Adds the entries of a function, a definition or a family, which may spend `fuel` units. After a refusal the signature is as it was.
pub(crate) fn elaborate(
    alloc: Global,
    sig: &mut Signature,
    fuel: u64,
    d: &Decl,
) -> Result<Accepted, Refusal>
    requires ready { IsReady sig.old }
    requires written { spec.IsElaborated (decl_of d.now) }
    ensures answer { Answers sig.new result (spec.elaborate_of sig.old fuel (decl_of d.now)) }
    ensures err { OnErr result (sig.new ≡ sig.old) }
    ensures begins { IfOk result (λ a. a.from ≡ length sig.old.entries) }
    ensures ends { IfOk result (λ a. a.to ≡ length sig.new.entries) }
{
    match d {
        Decl::Fun { .. } => elaborate_function(alloc, sig, fuel, d),
        Decl::Def { .. } | Decl::Data { .. } => elaborate_plainly(alloc, sig, fuel, d),
        Decl::Decide { .. } | Decl::Mutual { .. } => unreachable!(),
    }
}

/// Adds the entries of a definition or a family.
fn elaborate_plainly(
    alloc: Global,
    sig: &mut Signature,
    fuel: u64,
    d: &Decl,
) -> Result<Accepted, Refusal>
    requires ready { IsReady sig.old }
    requires plain { IsPlain (decl_of d.now) }
    ensures answer { Answers sig.new result (spec.without_lines (declare_of sig.old fuel (decl_of d.now))) }
    ensures err { OnErr result (sig.new ≡ sig.old) }
    ensures begins { IfOk result (λ a. a.from ≡ length sig.old.entries) }
    ensures ends { IfOk result (λ a. a.to ≡ length sig.new.entries) }
{
    let from = sig.len();
    let name = declare(alloc, sig, fuel, d)?;
    Ok(Accepted {
        name,
        from,
        to: sig.len(),
        lines: Items::new(alloc),
        mutual: Items::new(alloc),
    })
}
