ghost use Rattle.std.specs.Prelude.{◌≡◌, ◌≤◌, [], ◌∷◌, ◌++◌, Ok, length};
ghost use Rattle.theory.specs.Terms as tree;
ghost use Rattle.core_terms.specs.Answers.{Gives};
ghost use Rattle.core_terms.specs.Meanings.{tree_of};
ghost use Rattle.tree_translation.specs.Naming as spec;
ghost use Rattle.run_terms.specs.CodeNaming.{naming_of};

use core_terms::{Items, Name, Stop, Term, copy_name, number_of};
use std::alloc::Global;

/// Names for the constants from `base` on.
#[derive(Clone, Copy)]
pub struct Naming<'a> {
    pub base: u32,
    pub names: &'a [Name],
}

/// The place of a name in a list of names, or their number.
pub fn place_of(names: &[Name], name: &Name) -> usize
    ensures is { result ≡ spec.place_of names.now name.now }
    ensures low { result ≤ length names.now }
{
    match names {
        [] => 0,
        [other, rest @ ..] => {
            if other.as_slice() == name.as_slice() {
                0
            } else {
                place_of(rest, name) + 1
            }
        }
    }
}

/// The constant that stands for a name.
pub fn constant(naming: Naming, name: &Name) -> Result<Term, Stop>
    ensures { Gives tree_of result (Ok (tree.Const (naming_of naming.entry name.now))) }
{
    let place = number_of(place_of(naming.names, name))?;
    Ok(Term::Const(number_of(naming.base as usize + place as usize)?))
}

fn is_named(names: &[Name], name: &Name) -> bool
    ensures { result ≡ spec.is_named names.now name.now }
{
    match names {
        [] => false,
        [other, rest @ ..] => name.as_slice() == other.as_slice() || is_named(rest, name),
    }
}

/// Names, followed by one more if it is not among them yet.
pub fn with_name(alloc: Global, mut names: Items<Name>, name: &Name) -> Result<Items<Name>, Stop>
    ensures { Gives (λ ns. ns) result (Ok (spec.with_names names (name.now ∷ []))) }
{
    if !is_named(names.as_slice(), name) {
        names.push(copy_name(alloc, name)?)?;
    }
    Ok(names)
}

/// Names, followed by those of others that are not there yet, each once.
pub fn with_names(alloc: Global, names: Items<Name>, others: &[Name]) -> Result<Items<Name>, Stop>
    ensures { Gives (λ ns. ns) result (Ok (spec.with_names names others.now)) }
{
    match others {
        [] => Ok(names),
        [name, rest @ ..] => {
            let names = with_name(alloc, names, name)?;
            with_names(alloc, names, rest)
        }
    }
}
