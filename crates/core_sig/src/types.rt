ghost use Rattle.std.specs.Prelude.{◌≡◌, ◌≤◌, ◌<◌, ◌↔◌, IsTrue, length, map, slice_get};
ghost use Rattle.core_terms.specs.Answers.{Gives, bounded};
ghost use Rattle.core_terms.specs.Meanings.{tree_of, tele_of};
ghost use Rattle.theory.specs.Families as pure;
ghost use Rattle.core_terms.specs.Bounds.{most_height};
ghost use Rattle.core_sig.specs.ByLevels as levels;
ghost use Rattle.core_sig.specs.EntryIds.{type_behind};
ghost use Rattle.core_sig.specs.Kinds.{HasKinds, HaveKinds};
ghost use Rattle.core_sig.specs.Meanings.{constructor_of, family_of};

use crate::{Arg, Constructor, Family};
use core_terms::{
    MAX_HEIGHT, Stop, Term, applied, applied_to_run, checked, copy_tele, copy_whole, products,
};
use std::alloc::Global;

/// The types of arguments or indices.
pub fn types_of(alloc: Global, args: &[Arg]) -> Result<Vec<Term>, Stop>
    ensures { Gives (λ types. tele_of types.items) result (Ok (map (λ a. tree_of a.ty) args.now)) }
{
    let mut types = Vec::new(alloc);
    for arg in args {
        types.push(copy_whole(alloc, &arg.ty)?)?;
    }
    Ok(types)
}

/// The type of a family: products over its parameters and its indices into its sort.
#[tactic(auto, using(crate::proofs::Arguments::index_laws))]
pub fn family_type(alloc: Global, f: &Family) -> Result<Term, Stop>
    ensures { Gives tree_of result (bounded (pure.family_type (family_of f.now))) }
{
    let indices = types_of(alloc, f.indices.as_slice())?;
    let params = copy_tele(alloc, f.params.as_slice())?.into_vec();
    let end = products(alloc, indices, Term::Sort(f.level))?;
    checked(products(alloc, params, end)?)
}

/// The type of constructor `con` of the family with number `fam`: products over its parameters and arguments into the
/// family at the targets.
pub fn con_type(alloc: Global, fam: u32, f: &Family, con: u32) -> Result<Term, Stop>
    requires con { con < length f.now.cons }
    requires kinds { HasKinds fam f.now }
    ensures { (c : pure.Constructor) → slice_get (family_of f.now).constructors con ≡ Some c → Gives tree_of result (bounded (pure.constructor_type fam (family_of f.now) c)) }
{
    type_of(alloc, fam, f, &f.cons.as_slice()[con as usize])
}

/// The type of a constructor of the family with number `fam`.
pub(crate) fn type_of(alloc: Global, fam: u32, f: &Family, con: &Constructor) -> Result<Term, Stop>
    requires { HaveKinds fam (family_of f.now) 0 con.now.args }
    ensures { Gives tree_of result (bounded (pure.constructor_type fam (family_of f.now) (constructor_of (length f.now.params) con.now))) }
{
    if !are_few(f, con) {
        return Err(Stop::Deep);
    }
    let whole = constructor_type(alloc, fam, f, con)?;
    checked(whole)
}

/// The type of a constructor of the family with number `fam` behind the parameters: products over its arguments into the family at
/// the targets.
pub(crate) fn type_behind(
    alloc: Global,
    fam: u32,
    f: &Family,
    con: &Constructor,
) -> Result<Term, Stop>
    requires { HaveKinds fam (family_of f.now) 0 con.now.args }
    ensures { Gives tree_of result (bounded (type_behind fam (family_of f.now) (constructor_of (length f.now.params) con.now))) }
{
    if !are_few(f, con) {
        return Err(Stop::Deep);
    }
    let whole = over_arguments(alloc, fam, f, con)?;
    checked(whole)
}

/// Whether there are at most 2,000 parameters and 2,000 arguments.
fn are_few(f: &Family, con: &Constructor) -> bool
    ensures { IsTrue result ↔ ((length f.now.params ≤ most_height) × (length con.now.args ≤ most_height)) }
{
    let most = MAX_HEIGHT as usize;
    f.params.as_slice().len() <= most && con.args.as_slice().len() <= most
}

/// The type of a constructor. Its height is not tested.
fn constructor_type(alloc: Global, fam: u32, f: &Family, con: &Constructor) -> Result<Term, Stop>
    requires params { length f.now.params ≤ most_height }
    requires args { length con.now.args ≤ most_height }
    ensures { Gives tree_of result (Ok (levels.constructor_type fam (tele_of f.now.params) (map (λ a. tree_of a.ty) con.now.args) (tele_of con.now.targets))) }
{
    let end = over_arguments(alloc, fam, f, con)?;
    products(
        alloc,
        copy_tele(alloc, f.params.as_slice())?.into_vec(),
        end,
    )
}

/// The type of a constructor behind the parameters. Its height is not tested.
fn over_arguments(alloc: Global, fam: u32, f: &Family, con: &Constructor) -> Result<Term, Stop>
    requires params { length f.now.params ≤ most_height }
    requires args { length con.now.args ≤ most_height }
    ensures { Gives tree_of result (Ok (levels.type_behind fam (length (tele_of f.now.params)) (map (λ a. tree_of a.ty) con.now.args) (tele_of con.now.targets))) }
{
    let count = f.params.as_slice().len() as u32;
    let args = con.args.as_slice();
    let depth = count + args.len() as u32;
    let head = applied_to_run(alloc, Term::Fam(fam), depth, 0, count)?;
    let targets = copy_tele(alloc, con.targets.as_slice())?.into_vec();
    let end = applied(alloc, head, targets)?;
    let types = types_of(alloc, args)?;
    products(alloc, types, end)
}
