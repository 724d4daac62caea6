//! Whether the sides of an equation convert.
ghost use Rattle.std.specs.Prelude.{◌≡◌, ◌≤◌, ◌+◌, IfOk, Ok, length};
ghost use Rattle.clause_equations.specs.EquationMeanings.{equation_of};
ghost use Rattle.clause_lines.specs.CodeReports as spec;
ghost use Rattle.core_terms.specs.Answers.{Gives};
ghost use Rattle.core_terms.specs.Meanings.{tree_of};
ghost use Rattle.drafts.specs.draft_entering.Stops.{Reports};
ghost use Rattle.proof_walks.specs.PlaceScopes as scopes;
ghost use Rattle.theory.specs.SignatureScopes.{IsScopedSignature};
ghost use Rattle.problems.specs.Conditions.{most_levels};

use clause_equations::Equation;
use core_sig::{Signature, is_scoped};
use core_terms::{Stop, Term};
use drafts::draft_entering::ReportStop;
use kernel_check::Kernel;

/// How many variables a context may have; with more, memory is short.
const MOST_LEVELS: usize = 2147400000;

/// How many variables a context has.
fn variables_of(ctx: &[Term]) -> Result<u32, Stop>
    ensures answer { Gives (λ n. n) result (Ok (length ctx.now)) }
    ensures few { IfOk result (λ n. n ≤ most_levels) }
{
    if ctx.len() > MOST_LEVELS {
        return Err(Stop::Memory);
    }
    Ok(ctx.len() as u32)
}

/// Whether a term is over `n` variables and names entries.
fn is_over(sig: &Signature, n: u32, t: &Term) -> bool
    ensures { result ≡ scopes.is_scoped sig.now n (tree_of t.now) }
{
    is_scoped(sig, n, t)
}

/// Whether two terms over `n` variables can be compared.
fn can_be_compared(sig: &Signature, n: u32, u: &Term, v: &Term) -> bool
    ensures { result ≡ spec.can_be_compared sig.now n (tree_of u.now) (tree_of v.now) }
{
    is_over(sig, n, u) && is_over(sig, n, v)
}

/// Whether two terms over `n` variables convert, or Deep where they can't be compared.
fn sides_compared(
    sig: &Signature,
    n: u32,
    u: &Term,
    v: &Term,
    kernel: &mut Kernel<'_>,
) -> Result<bool, ReportStop>
    requires kernel { kernel.old.signature ≡ sig.now }
    requires signature { IsScopedSignature sig.now }
    requires few { n ≤ most_levels }
    ensures answer { Reports (λ holds. holds) result kernel.new.left (spec.sides_compared sig.now n (tree_of u.now) (tree_of v.now) kernel.old.left) }
    ensures sum { kernel.new.left + kernel.new.spent ≡ kernel.old.left + kernel.old.spent }
    ensures spends { kernel.new.left ≤ kernel.old.left }
    ensures kernel { kernel.new.signature ≡ sig.now }
{
    if can_be_compared(sig, n, u, v) {
        Ok(kernel.convertible(u, v)?)
    } else {
        Err(ReportStop::Stop(Stop::Deep))
    }
}

/// Whether the sides of an equation convert, or Deep where one of them is not over the equation's context or names a
/// number that is no entry's.
pub(crate) fn equation_converts(
    sig: &Signature,
    e: &Equation,
    kernel: &mut Kernel<'_>,
) -> Result<bool, ReportStop>
    requires kernel { kernel.old.signature ≡ sig.now }
    requires given { IsScopedSignature sig.now }
    ensures answer { Reports (λ holds. holds) result kernel.new.left (spec.equation_converts sig.now (equation_of e.now) kernel.old.left) }
    ensures sum { kernel.new.left + kernel.new.spent ≡ kernel.old.left + kernel.old.spent }
    ensures spends { kernel.new.left ≤ kernel.old.left }
    ensures kernel { kernel.new.signature ≡ sig.now }
{
    let n = variables_of(e.ctx.as_slice())?;
    sides_compared(sig, n, &e.left, &e.right, kernel)
}
