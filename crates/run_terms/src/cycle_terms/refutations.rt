ghost use Rattle.std.specs.Prelude.{◌≡◌, Ok};
ghost use Rattle.theory.specs.Signatures as signatures;
ghost use Rattle.theory.specs.Terms as tree;
ghost use Rattle.core_terms.specs.Answers.{Gives};
ghost use Rattle.core_terms.specs.Meanings.{tree_of, tele_of};
ghost use Rattle.core_sig.specs.Meanings.{family_of};
ghost use Rattle.core_sig.specs.Shapes.{shape_of};
ghost use Rattle.generators.specs.acyclic_gen.DirectEntries as entries;
ghost use Rattle.tree_translation.specs.CycleTerms as spec;
ghost use Rattle.tree_translation.specs.Standings as standings;
ghost use Rattle.run_terms.specs.CodeNaming.{naming_of};
ghost use Rattle.run_terms.specs.StandingMeanings.{standing_of};
ghost use Rattle.run_terms.specs.cycle_terms.CodeCycles as parts;
ghost use Rattle.run_terms.specs.cycle_terms.SearchMeanings.{search_of};

use crate::cycle_terms::components::component_for;
use crate::cycle_terms::searching::Search;
use crate::cycle_terms::transports::{carrier_type, transported};
use crate::{
    Naming, Standing, all_placed, direct_name, here, inside, level_at, level_in, place_of, placed,
    reflexivity,
};
use core_sig::Family;
use core_terms::{Items, Name, Stop, Tele, Term, next, number_of};
use generators::acyclic_gen::Carrier;
use std::alloc::Global;

/// The number of the family `Empty` in each signature that begins with the prelude.
const EMPTY: u32 = 0;

/// The first equation, after the equations.
fn first_equation(s: &Standing) -> Result<Term, Stop>
    ensures { Gives tree_of result (Ok (parts.first_equation (standing_of s.now))) }
{
    let depth = inside(s)?;
    Ok(Term::Var(depth.saturating_sub(next(s.depth)?)))
}

/// The reflexivity of the variable.
fn own_reflexivity(alloc: Global, c: &Search) -> Result<Term, Stop>
    ensures { Gives tree_of result (Ok (signatures.reflexivity (family_of c.now.family.now).level (spec.carrier_type (search_of c.now)) (tree.Var (search_of c.now).x))) }
{
    let ty = carrier_type(alloc, c)?;
    reflexivity(alloc, c.family.level, ty, Term::Var(c.x))
}

/// The component for the variable, applied to its reflexivity.
fn refuted(
    alloc: Global,
    naming: Naming,
    s: &Standing,
    from_left: bool,
    side: &Term,
    c: &Search,
) -> Result<Term, Stop>
    ensures { Gives tree_of result (Ok (parts.refuted (naming_of naming.entry) (standing_of s.now) from_left (family_of c.now.family.now) (tree_of side.now) (search_of c.now))) }
{
    let tuple = transported(alloc, naming, from_left, c, side, first_equation(s)?)?;
    let component = component_for(alloc, c, side, tuple)?;
    let proof = own_reflexivity(alloc, c)?;
    Term::new_app(alloc, component, proof)
}

/// `\_. G`.
fn goal_motive(alloc: Global, s: &Standing) -> Result<Term, Stop>
    ensures { Gives tree_of result (Ok (parts.goal_motive (standing_of s.now))) }
{
    let depth = next(inside(s)?)?;
    let goal = placed(alloc, s.variables.as_slice(), depth, &s.goal)?;
    Term::new_lam(alloc, Term::Fam(EMPTY), goal)
}

/// `Empty!elim.L (\_. G)` of the component for the variable, applied to its reflexivity.
fn by_refutation(
    alloc: Global,
    naming: Naming,
    level: u8,
    s: &Standing,
    from_left: bool,
    side: &Term,
    c: &Search,
) -> Result<Term, Stop>
    ensures { Gives tree_of result (Ok (parts.by_refutation (naming_of naming.entry) level (standing_of s.now) from_left (family_of c.now.family.now) (tree_of side.now) (search_of c.now))) }
{
    let head = Ok(Term::Elim(EMPTY, level));
    let head = Term::application_of(alloc, head, goal_motive(alloc, s));
    let empty = refuted(alloc, naming, s, from_left, side, c);
    Term::application_of(alloc, head, empty)
}

/// The number that a name has.
fn number_named(naming: Naming, name: &Name) -> Result<u32, Stop>
    ensures { Gives (λ n. n) result (Ok (naming_of naming.entry name.now)) }
{
    let place = number_of(place_of(naming.names, name))?;
    number_of(naming.base as usize + place as usize)
}

/// The family at its parameters, where `D!direct` has the number that its name has.
fn named_carrier(alloc: Global, naming: Naming, n: u32, f: &Family) -> Result<Carrier, Stop>
    ensures { Gives (λ q. q) result (Ok (entries.carrier_of n (shape_of f.now) (naming_of naming.entry (entries.direct_name (family_of f.now).name)))) }
{
    let name = direct_name(alloc, f)?;
    Ok(Carrier {
        family: n,
        level: f.level,
        params: number_of(f.params.as_slice().len())?,
        direct: number_named(naming, &name)?,
    })
}

/// The number of a variable of the context, after the equations.
fn number_here(s: &Standing, x: u32) -> Result<u32, Stop>
    ensures { Gives (λ n. n) result (Ok (spec.number_here (standing_of s.now) x)) }
{
    let depth = inside(s)?;
    let level = level_at(s.variables.as_slice(), level_in(s, x)? as usize);
    Ok(depth.saturating_sub(next(level)?))
}

/// Terms of the context, after the equations.
fn all_here(alloc: Global, s: &Standing, terms: &[Term]) -> Result<Tele, Stop>
    ensures { Gives tele_of result (Ok (standings.all_here (standing_of s.now) (tele_of terms.now))) }
{
    let made = Items::new(alloc);
    all_placed(alloc, s.variables.as_slice(), inside(s)?, terms, made)
}

/// The term of a cycle with the side and the parameters after the equations.
fn cycle_in(
    alloc: Global,
    naming: Naming,
    level: u8,
    s: &Standing,
    x: u32,
    from_left: bool,
    n: u32,
    family: &Family,
    parameters: &[Term],
    side: &Term,
) -> Result<Term, Stop>
    ensures { Gives tree_of result (Ok (parts.cycle_in (naming_of naming.entry) level (standing_of s.now) x from_left n (family_of family.now) (shape_of family.now) (tele_of parameters.now) (tree_of side.now))) }
{
    let c = Search {
        number: n,
        family,
        carrier: named_carrier(alloc, naming, n, family)?,
        parameters,
        x: number_here(s, x)?,
    };
    by_refutation(alloc, naming, level, s, from_left, side, &c)
}

/// The term of a cycle, where the other side is a constructor of family `n` at its parameters.
pub fn cycle_with(
    alloc: Global,
    naming: Naming,
    level: u8,
    s: &Standing,
    x: u32,
    from_left: bool,
    n: u32,
    family: &Family,
    parameters: &[Term],
    side: &Term,
) -> Result<Term, Stop>
    ensures { Gives tree_of result (Ok (parts.cycle_with (naming_of naming.entry) level (standing_of s.now) x from_left n (family_of family.now) (shape_of family.now) (tele_of parameters.now) (tree_of side.now))) }
{
    let parameters = all_here(alloc, s, parameters)?;
    let side = here(alloc, s, side)?;
    let parameters = parameters.as_slice();
    cycle_in(
        alloc, naming, level, s, x, from_left, n, family, parameters, &side,
    )
}
