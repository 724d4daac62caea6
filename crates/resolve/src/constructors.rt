ghost use Rattle.std.specs.Prelude.{◌≡◌, length, option_map, slice_get};
ghost use Rattle.std.specs.Option.{option_map_or};
ghost use Rattle.resolve.specs.PatternMeanings.{constructor_of};
ghost use Rattle.resolve.specs.Patterns as spec;

use core_sig::{Entry, Found, Signature};
use core_terms::Name;

/// A constructor: the entry number of its family, its own number, and how many arguments it has.
#[derive(Clone, Copy)]
pub(crate) struct Constructor {
    pub(crate) family: u32,
    pub(crate) number: u32,
    pub(crate) arguments: usize,
}

/// The constructor that has the name.
pub(crate) fn find_constructor(sig: &Signature, name: &Name) -> Option<Constructor>
    ensures { option_map constructor_of result ≡ spec.constructor sig.now name.now }
{
    match sig.find(name.as_slice())? {
        Found::Entry(_) => None,
        Found::Con(family, number) => Some(Constructor {
            family,
            number,
            arguments: arguments_at(sig, family, number),
        }),
    }
}

/// How many arguments the constructor has.
fn arguments_at(sig: &Signature, family: u32, number: u32) -> usize
    ensures { result ≡ spec.arguments_in number (slice_get sig.now.entries family) }
{
    match sig.entry(family) {
        Some(Entry::Family(f)) => arguments_among(f.cons.as_slice(), number),
        _ => 0,
    }
}

/// How many arguments the constructor of the list has.
fn arguments_among(cons: &[core_sig::Constructor], number: u32) -> usize
    ensures { result ≡ option_map_or (λ c. length c.args) (slice_get cons.now number) 0 }
{
    match cons.get(number as usize) {
        Some(con) => con.args.as_slice().len(),
        None => 0,
    }
}
