ghost use Rattle.std.specs.Prelude.{◌≡◌, ◌+◌, Ok, Some, option_map, bytes_eq, position, reverse};
ghost use Rattle.std.specs.Option.{option_copied};
ghost use Rattle.resolve.specs.Answers.{Gives};
ghost use Rattle.resolve.specs.Names.{variable_of, has_name, scope_of};
ghost use Rattle.resolve.specs.Scopes.{names_of};

use crate::ResolveStop;
use crate::binders::Binders;
use crate::variables::Variables;
use core_terms::{Name, number_of};

/// The names of the binders around a term.
#[derive(Drop)]
pub(crate) enum Scope<'a> {
    /// The names that were given, from the outermost on.
    Given(&'a Variables),
    /// A binder more, where `None` stands for `_`.
    Under(Option<&'a Name>, &'a Scope<'a>),
    /// The binders of a telescope more.
    Behind(&'a Binders, &'a Scope<'a>),
}

impl<'a> Scope<'a> {
    /// The number of the nearest variable that has the name.
    pub(crate) fn variable(&self, name: &[u8]) -> Result<Option<u32>, ResolveStop>
        ensures { Gives (λ found. found) result (Ok (variable_of name.now (names_of self.now))) }
    {
        match self {
            Scope::Given(names) => variable_among(names, name),
            Scope::Under(x, outer) => {
                if has_name(*x, name) {
                    return Ok(Some(0));
                }
                further(outer.variable(name)?, 1)
            }
            Scope::Behind(binders, outer) => match binders.variable(name) {
                Some(n) => some_number(n),
                None => further(outer.variable(name)?, binders.len()),
            },
        }
    }
}

/// Whether the binder has the name.
fn has_name(x: Option<&Name>, name: &[u8]) -> bool
    ensures { result ≡ has_name name.now (option_copied x.entry) }
{
    x.is_some_and(|other| other.as_slice() == name)
}

/// The number of the variable that has the name.
fn variable_among(names: &Variables, name: &[u8]) -> Result<Option<u32>, ResolveStop>
    ensures { Gives (λ found. found) result (Ok (variable_of name.now (scope_of names.now))) }
{
    match names.variable(name) {
        Some(at) => some_number(at),
        None => Ok(None),
    }
}

/// The number of a variable, seen from inside so many binders more.
fn further(found: Option<u32>, binders: usize) -> Result<Option<u32>, ResolveStop>
    ensures { Gives (λ found. found) result (Ok (option_map (λ n. n + binders) found)) }
{
    match found {
        Some(n) => match binders.checked_add(n as usize) {
            Some(at) => some_number(at),
            None => Err(ResolveStop::Memory),
        },
        None => Ok(None),
    }
}

/// The number of a variable that is there.
fn some_number(at: usize) -> Result<Option<u32>, ResolveStop>
    ensures { Gives (λ found. found) result (Ok (Some at)) }
{
    Ok(Some(number_of(at)?))
}
