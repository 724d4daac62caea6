ghost use Rattle.std.specs.Prelude.{◌≡◌, ◌++◌, length, take, map, OnOk, OnErr, IfOk};
ghost use Rattle.theory.specs.Signatures.{names_of};
ghost use Rattle.core_terms.specs.declared.stop.Stop.TheVariants.{Memory};
ghost use Rattle.core_sig.specs.Meanings.{entry_of};
ghost use Rattle.core_sig.specs.Names.{AreNew, named, named_by, named_constructors};

use crate::name_index::NameIndex;
use crate::{Constructor, Entry, Found};
use core_terms::{Stop, number_of};

/// How many names the entry brings.
pub(crate) fn name_count(entry: &Entry) -> usize
    ensures { result ≡ length (named_by 0 (entry_of entry.now)) }
{
    match entry {
        Entry::Family(family) => 1 + family.cons.as_slice().len(),
        Entry::Def { .. } => 1,
        Entry::Elim(..) | Entry::AxiomK(..) => 0,
    }
}

/// Adds the names of the entry with the given number, or none.
pub(crate) fn add_names(names: &mut NameIndex, number: u32, entry: &Entry) -> Result<(), Stop>
    requires { AreNew names.old (names_of (entry_of entry.now)) }
    ensures ok { OnOk result (names.new ≡ names.old ++ named_by number (entry_of entry.now)) }
    ensures err { OnErr result (names.new ≡ names.old) }
    ensures memory { OnErr result (result ≡ Err Memory) }
{
    let known = names.len();
    let added = add_some_names(names, number, entry);
    if added.is_err() {
        names.truncate(known);
    }
    added
}

/// Adds the names of the entry with the given number. After an error some of them are there.
fn add_some_names(names: &mut NameIndex, number: u32, entry: &Entry) -> Result<(), Stop>
    requires { AreNew names.old (names_of (entry_of entry.now)) }
    ensures ok { OnOk result (names.new ≡ names.old ++ named_by number (entry_of entry.now)) }
    ensures kept { take (length names.old) names.new ≡ names.old }
    ensures memory { OnErr result (result ≡ Err Memory) }
{
    match entry {
        Entry::Family(family) => {
            names.insert(family.name.as_slice(), Found::Entry(number))?;
            add_constructors(names, number, family.cons.as_slice())
        }
        Entry::Def { name, .. } => names.insert(name.as_slice(), Found::Entry(number)),
        Entry::Elim(..) | Entry::AxiomK(..) => Ok(()),
    }
}

/// Adds the names of the constructors of a family. After an error some of them are there.
fn add_constructors(names: &mut NameIndex, family: u32, cons: &[Constructor]) -> Result<(), Stop>
    requires { AreNew names.old (map (λ c. c.name) cons.now) }
    ensures ok { OnOk result (names.new ≡ names.old ++ named_constructors family 0 (map (λ c. c.name) cons.now)) }
    ensures kept { take (length names.old) names.new ≡ names.old }
    ensures memory { OnErr result (result ≡ Err Memory) }
{
    for (number, con) in cons.iter().enumerate() {
        let found = Found::Con(family, number_of(number)?);
        names.insert(con.name.as_slice(), found)?;
    }
    Ok(())
}
