ghost use Rattle.std.specs.Prelude.{◌≡◌, ◌+◌, ◌<◌, ◌^◌, map, length, Ok, IfOk, OnErr};
ghost use Rattle.theory.specs.Telescopes as spec;
ghost use Rattle.theory.specs.Terms as tree;
ghost use Rattle.core_terms.specs.Answers.{Gives};
ghost use Rattle.core_terms.specs.Meanings.{tree_of, tele_of};
ghost use Rattle.core_terms.specs.declared.stop.Stop.TheVariants.{Memory};
ghost use Rattle.core_sig.specs.Kinds.{HasEntryKinds, HasKinds};
ghost use Rattle.core_sig.specs.Meanings.{entry_of, family_of};
ghost use Rattle.core_sig.specs.Raw.{raw_constructor_of, raw_of};
ghost use Rattle.core_text.specs.RawEntries.{entry_shown, family_shown};
ghost use Rattle.core_text.specs.Records.{constructor_shown, type_of_constructor};
ghost use Rattle.elab_session.specs.Meanings.{raw_entry_of};

use crate::raw_entry::{Definition, RawEntry};
use core_sig::{Constructor, Entry, Family, RawCon, RawFamily, types_of};
use core_terms::{
    Items, Stop, Term, applied, applied_to_variables, copy_name, copy_tele, number_of, products,
};
use std::alloc::Global;

/// The entry as its line shows it.
pub(crate) fn entry_shown(alloc: Global, number: u32, entry: Entry) -> Result<RawEntry, Stop>
    requires { HasEntryKinds number entry }
    ensures { Gives raw_entry_of result (Ok (entry_shown number (entry_of entry))) }
{
    match entry {
        Entry::Family(family) => Ok(RawEntry::Family(family_shown(alloc, number, &family)?)),
        Entry::Elim(family, m) => Ok(RawEntry::Elim(family, m)),
        Entry::AxiomK(i, m) => Ok(RawEntry::AxiomK(i, m)),
        Entry::Def { name, ty, body } => Ok(RawEntry::Def(Definition { name, ty, body })),
    }
}

/// The family as its line shows it.
fn family_shown(alloc: Global, number: u32, f: &Family) -> Result<RawFamily, Stop>
    requires { HasKinds number f.now }
    ensures { Gives raw_of result (Ok (family_shown number (family_of f.now))) }
{
    let name = copy_name(alloc, &f.name)?;
    let params = copy_tele(alloc, f.params.as_slice())?;
    let types = types_of(alloc, f.indices.as_slice())?;
    let ty = products(alloc, types, Term::Sort(f.level))?;
    let count = number_of(f.params.as_slice().len())?;
    let cons = constructors_shown(alloc, number, count, f.cons.as_slice())?;
    Ok(RawFamily {
        name,
        params,
        ty,
        cons,
    })
}

/// The constructors of the family with the number and so many parameters.
fn constructors_shown(
    alloc: Global,
    number: u32,
    params: u32,
    cons: &[Constructor],
) -> Result<Items<RawCon>, Stop>
    ensures { Gives (map raw_constructor_of) result (Ok (map (constructor_shown number params) cons.now)) }
{
    let mut shown = Items::new(alloc);
    for con in cons {
        let name = copy_name(alloc, &con.name)?;
        let ty = constructor_type(alloc, number, params, con)?;
        shown.push(RawCon { name, ty })?;
    }
    Ok(shown)
}

/// The type of a constructor in the context of the parameters. Memory is also answered where a number would not fit.
fn constructor_type(
    alloc: Global,
    number: u32,
    params: u32,
    con: &Constructor,
) -> Result<Term, Stop>
    ensures { Gives tree_of result (Ok (type_of_constructor number params con.now)) }
{
    let types = types_of(alloc, con.args.as_slice())?;
    let from = number_of(con.args.as_slice().len())?;
    if from.checked_add(params).is_none() {
        return Err(Stop::Memory);
    }
    let head = applied_to_variables(alloc, Term::Fam(number), from, params)?;
    let targets = copy_tele(alloc, con.targets.as_slice())?;
    let end = applied(alloc, head, targets.into_vec())?;
    products(alloc, types, end)
}
