ghost use Rattle.std.specs.Prelude.{◌≡◌, ℕ, List, Option};
ghost use Rattle.std.specs.Option.{option_copied};
ghost use Rattle.core_text.specs.SymbolNames.{name_at, constructor_name_at, with_own};

use core_sig::{Entry, Signature};

/// The name of the definition or family with the number.
pub(crate) fn name_at(sig: &Signature, at: u32) -> &[u8]
    ensures { result.now ≡ name_at sig.now at }
{
    match sig.entry(at) {
        Some(Entry::Family(family)) => family.name.as_slice(),
        Some(Entry::Def { name, .. }) => name.as_slice(),
        _ => &[],
    }
}

/// The name of the definition or family with the number, where `own` is the name of the entry with the next number, which is
/// being declared.
pub fn name_with<'a>(sig: &'a Signature, own: Option<&'a [u8]>, at: u32) -> &'a [u8]
    ensures { result.now ≡ name_at (with_own sig.now (option_copied own.entry)) at }
{
    match own {
        Some(name) if at == sig.len() => name,
        _ => name_at(sig, at),
    }
}

/// The name of a constructor of the family with the number. An entry that is being declared has none.
pub(crate) fn constructor_name_at(sig: &Signature, family: u32, con: u32) -> &[u8]
    ensures { (own : Option (List ℕ)) → result.now ≡ constructor_name_at (with_own sig.now own) family con }
{
    match sig.entry(family) {
        Some(Entry::Family(family)) => match family.cons.as_slice().get(con as usize) {
            Some(con) => con.name.as_slice(),
            None => &[],
        },
        _ => &[],
    }
}
