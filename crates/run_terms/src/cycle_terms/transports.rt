ghost use Rattle.std.specs.Prelude.{◌≡◌, ◌≤◌, Ok};
ghost use Rattle.theory.specs.Terms as tree;
ghost use Rattle.core_terms.specs.Answers.{Gives};
ghost use Rattle.core_terms.specs.Meanings.{tree_of};
ghost use Rattle.core_sig.specs.Meanings.{family_of};
ghost use Rattle.generators.specs.acyclic_gen.AcyclicEntries as entries;
ghost use Rattle.tree_translation.specs.CycleTerms as spec;
ghost use Rattle.run_terms.specs.CodeNaming.{naming_of};
ghost use Rattle.run_terms.specs.cycle_terms.CodeCycles as parts;
ghost use Rattle.run_terms.specs.cycle_terms.SearchMeanings.{search_of};

use crate::cycle_terms::levels::after_variable;
use crate::cycle_terms::searching::Search;
use crate::{Naming, acyclic_name, constant, instance, left_name};
use core_sig::{Family, equality};
use core_terms::{Stop, Term, applied, copy_tele, copy_whole, variable};
use generators::acyclic_gen::{Carrier, at_level, carrier_at, equal, no_part};
use std::alloc::Global;

/// The equation in the motive, at a depth.
fn motive_equation(alloc: Global, q: Carrier, from_left: bool, depth: u32) -> Result<Term, Stop>
    requires { depth ≤ 90000 }
    ensures { Gives tree_of result (Ok (parts.motive_equation q from_left depth)) }
{
    let inner = depth + 1;
    if from_left {
        equal(alloc, q, inner, at_level(q.params), variable(inner, depth))
    } else {
        equal(alloc, q, inner, at_level(depth), variable(inner, q.params))
    }
}

fn motive_at(alloc: Global, q: Carrier, from_left: bool, depth: u32) -> Result<Term, Stop>
    requires { depth ≤ 90000 }
    ensures { Gives tree_of result (Ok (parts.motive_at q from_left depth)) }
{
    let body = no_part(alloc, q, depth + 2, at_level(q.params), at_level(depth));
    let body = Term::function_of(alloc, motive_equation(alloc, q, from_left, depth), body);
    Term::function_of(alloc, carrier_at(alloc, q, depth), body)
}

/// `\z e. D!direct ps (ne x) z`, where the parameters have the first levels, and x the next one.
fn cycle_motive(alloc: Global, q: Carrier, from_left: bool) -> Result<Term, Stop>
    ensures { Gives tree_of result (Ok (spec.cycle_motive q from_left)) }
{
    let depth = after_variable(q)?;
    motive_at(alloc, q, from_left, depth)
}

/// This motive at the parameters and the variable of a search.
#[tactic(auto, using(core_terms::proofs::Instances::instance_laws, tele_eq::proofs::Growing::growing))]
fn motive_of(alloc: Global, c: &Search, from_left: bool) -> Result<Term, Stop>
    ensures { Gives tree_of result (Ok (parts.motive_of (search_of c.now) from_left)) }
{
    let motive = cycle_motive(alloc, c.carrier, from_left)?;
    let mut values = copy_tele(alloc, c.parameters)?;
    values.push(Term::Var(c.x))?;
    instance(alloc, values.as_slice(), &motive, 0)
}

/// `Eq.l!elim.l`, or `Eq.l!left.l` where the variable is on the right.
fn transport_head(alloc: Global, naming: Naming, from_left: bool, l: u8) -> Result<Term, Stop>
    ensures { Gives tree_of result (Ok (parts.transport_head (naming_of naming.entry) from_left l)) }
{
    if from_left {
        return Ok(Term::Elim(equality(l), l));
    }
    let name = left_name(alloc, l, l)?;
    constant(naming, &name)
}

/// `D ps`.
pub fn carrier_type(alloc: Global, c: &Search) -> Result<Term, Stop>
    ensures { Gives tree_of result (Ok (spec.carrier_type (search_of c.now))) }
{
    let ps = copy_tele(alloc, c.parameters)?;
    applied(alloc, Term::Fam(c.number), ps.into_vec())
}

/// `D!acyclic`.
fn acyclic_constant(alloc: Global, naming: Naming, family: &Family) -> Result<Term, Stop>
    ensures { Gives tree_of result (Ok (tree.Const (naming_of naming.entry (entries.acyclic_name (family_of family.now).name)))) }
{
    let name = acyclic_name(alloc, family)?;
    constant(naming, &name)
}

/// `D!acyclic ps x`.
fn acyclic_of(alloc: Global, naming: Naming, c: &Search) -> Result<Term, Stop>
    ensures { Gives tree_of result (Ok (parts.acyclic_of (naming_of naming.entry) (family_of c.now.family.now).name (search_of c.now))) }
{
    let head = acyclic_constant(alloc, naming, c.family)?;
    let ps = copy_tele(alloc, c.parameters)?;
    let head = applied(alloc, head, ps.into_vec())?;
    Term::new_app(alloc, head, Term::Var(c.x))
}

/// The transport of `D!acyclic ps x` along the equation `e` to the other side.
pub fn transported(
    alloc: Global,
    naming: Naming,
    from_left: bool,
    c: &Search,
    side: &Term,
    e: Term,
) -> Result<Term, Stop>
    ensures { Gives tree_of result (Ok (parts.transported (naming_of naming.entry) from_left (family_of c.now.family.now) (search_of c.now) (tree_of side.now) (tree_of e))) }
{
    let motive = motive_of(alloc, c, from_left)?;
    let head = transport_head(alloc, naming, from_left, c.family.level);
    let head = Term::application_of(alloc, head, carrier_type(alloc, c));
    let head = Term::application_of(alloc, head, Ok(Term::Var(c.x)));
    let head = Term::application_of(alloc, head, Ok(motive));
    let head = Term::application_of(alloc, head, acyclic_of(alloc, naming, c));
    let head = Term::application_of(alloc, head, copy_whole(alloc, side));
    Term::application_of(alloc, head, Ok(e))
}
