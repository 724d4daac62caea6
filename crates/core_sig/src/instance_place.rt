ghost use Rattle.std.specs.Prelude.{◌≡◌, ◌<◌, ◌^◌, length, map};
ghost use Rattle.std.specs.List.{position_from};
ghost use Rattle.core_sig.specs.Instances.{is_instance};
ghost use Rattle.core_sig.specs.Meanings.{entry_of};

use crate::Entry;

/// The eliminator of a family at a level, or axiom K of an identity family at a level.
#[derive(Clone, Copy, Debug, PartialEq, Eq)]
pub(crate) enum Instance {
    Eliminator(u32, u8),
    AxiomK(u8, u8),
}

/// The number of the instance, where it is an entry.
pub(crate) fn place_of(entries: &[Entry], wanted: Instance) -> Option<u32>
    requires { length entries.now < 2 ^ 32 }
    ensures { result ≡ position_from (is_instance wanted) 0 (map entry_of entries.now) }
{
    for (at, entry) in entries.iter().enumerate() {
        if is_instance(wanted, entry) {
            return Some(at as u32);
        }
    }
    None
}

fn is_instance(wanted: Instance, entry: &Entry) -> bool
    ensures { result ≡ is_instance wanted (entry_of entry.now) }
{
    match (wanted, entry) {
        (Instance::Eliminator(n, m), Entry::Elim(fam, level)) => *fam == n && *level == m,
        (Instance::AxiomK(i, m), Entry::AxiomK(identity, level)) => *identity == i && *level == m,
        _ => false,
    }
}
