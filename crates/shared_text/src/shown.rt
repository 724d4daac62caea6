ghost use Rattle.std.specs.Prelude.{◌<◌, map, Ok};
ghost use Rattle.core_terms.specs.Answers.{Gives};
ghost use Rattle.core_terms.specs.Meanings.{tele_of, tree_of};
ghost use Rattle.core_sig.specs.Kinds.{HasKinds};
ghost use Rattle.core_sig.specs.Meanings.{family_of};
ghost use Rattle.core_sig.specs.Raw.{raw_constructor_of, raw_of};
ghost use Rattle.core_text.specs.RawEntries.{family_shown, type_shown};
ghost use Rattle.core_text.specs.Records.{constructor_shown, end_of_constructor, type_of_constructor};
ghost use Rattle.theory.specs.Telescopes.{applied, variables, weaken_by};
ghost use Rattle.theory.specs.Terms as tree;

use core_sig::{Constructor, Family, RawCon, RawFamily, types_of};
use core_terms::{
    Items, Stop, Term, applied, applied_to_variables, copy_name, copy_tele, number_of, products,
    sum,
};
use std::alloc::Global;

/// The family at its parameters, after so many arguments.
fn shown_head(alloc: Global, family: u32, params: u32, from: u32) -> Result<Term, Stop>
    ensures { Gives tree_of result (Ok (applied (tree.Fam family) (map (weaken_by from) (variables params)))) }
{
    let _few = sum(from, params)?;
    applied_to_variables(alloc, Term::Fam(family), from, params)
}

/// The end of a constructor's type: the family at its parameters and the targets.
fn shown_end(alloc: Global, family: u32, params: u32, con: &Constructor) -> Result<Term, Stop>
    ensures { Gives tree_of result (Ok (end_of_constructor family params con.now)) }
{
    let from = number_of(con.args.as_slice().len())?;
    let head = shown_head(alloc, family, params, from)?;
    let targets = copy_tele(alloc, con.targets.as_slice())?;
    applied(alloc, head, targets.into_vec())
}

/// The type of a constructor behind the parameters. Its height is not tested.
fn shown_type(alloc: Global, family: u32, params: u32, con: &Constructor) -> Result<Term, Stop>
    ensures { Gives tree_of result (Ok (type_of_constructor family params con.now)) }
{
    let end = shown_end(alloc, family, params, con)?;
    let types = types_of(alloc, con.args.as_slice())?;
    products(alloc, types, end)
}

fn shown_constructor(
    alloc: Global,
    family: u32,
    params: u32,
    con: &Constructor,
) -> Result<RawCon, Stop>
    ensures { Gives raw_constructor_of result (Ok (constructor_shown family params con.now)) }
{
    let ty = shown_type(alloc, family, params, con)?;
    let name = copy_name(alloc, &con.name)?;
    Ok(RawCon { name, ty })
}

fn shown_constructors(
    alloc: Global,
    family: u32,
    params: u32,
    cons: &[Constructor],
) -> Result<Items<RawCon>, Stop>
    ensures { Gives (map raw_constructor_of) result (Ok (map (constructor_shown family params) cons.now)) }
{
    let mut shown = Items::new(alloc);
    for con in cons {
        shown.push(shown_constructor(alloc, family, params, con)?)?;
    }
    Ok(shown)
}

/// The type of a family behind the parameters.
#[tactic(auto, using(core_sig::proofs::Arguments::index_laws))]
fn shown_family_type(alloc: Global, family: &Family) -> Result<Term, Stop>
    ensures { Gives tree_of result (Ok (type_shown (family_of family.now))) }
{
    let types = types_of(alloc, family.indices.as_slice())?;
    products(alloc, types, Term::Sort(family.level))
}

/// The family with the number as its line shows it.
pub(crate) fn shown_family(alloc: Global, number: u32, family: &Family) -> Result<RawFamily, Stop>
    requires { HasKinds number family.now }
    ensures { Gives raw_of result (Ok (family_shown number (family_of family.now))) }
{
    let params = number_of(family.params.as_slice().len())?;
    let cons = shown_constructors(alloc, number, params, family.cons.as_slice())?;
    let ty = shown_family_type(alloc, family)?;
    named_family(alloc, family, ty, cons)
}

/// The family with these types.
fn named_family(
    alloc: Global,
    family: &Family,
    ty: Term,
    cons: Items<RawCon>,
) -> Result<RawFamily, Stop>
    ensures { Gives raw_of result (Ok (record { name = family.now.name; parameters = tele_of family.now.params; type = tree_of ty; constructors = map raw_constructor_of cons })) }
{
    let name = copy_name(alloc, &family.name)?;
    let params = copy_tele(alloc, family.params.as_slice())?;
    Ok(RawFamily {
        name,
        params,
        ty,
        cons,
    })
}
