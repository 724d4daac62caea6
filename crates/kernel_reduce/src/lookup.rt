ghost use Rattle.std.specs.Prelude.{◌≡◌, ◌+◌, ◌==◌, length, option_map, slice_get, IfSome};
ghost use Rattle.std.specs.Option.{option_copied};
ghost use Rattle.core_sig.specs.Kinds.{HasKinds};
ghost use Rattle.core_sig.specs.Meanings.{family_of};
ghost use Rattle.kernel_reduce.specs.Entries.{family_at};
ghost use Rattle.kernel_reduce.specs.Tests.{family_takes};

use core_sig::{Constructor, Entry, Family, Signature};

/// The family with the number, where the entry is one.
pub fn family(sig: &Signature, n: u32) -> Option<&Family>
    ensures family { option_map family_of (option_copied result) ≡ family_at sig.now n }
    ensures kinds { IfSome result (λ f. HasKinds n f.now) }
{
    match sig.entry(n) {
        Some(Entry::Family(f)) => Some(f),
        _ => None,
    }
}

/// The constructor of the family with the number.
pub fn constructor(f: &Family, number: u32) -> Option<&Constructor>
    ensures { option_copied result ≡ slice_get f.now.cons number }
{
    f.cons.as_slice().get(number as usize)
}

/// How many arguments an eliminator of the family takes before its scrutinee.
pub fn eliminator_arity(f: &Family) -> u128
    ensures { result ≡ length (family_of f.now).parameters + (1 + (length (family_of f.now).constructors + length (family_of f.now).indices)) }
{
    let params = f.params.as_slice().len() as u128;
    let cons = f.cons.as_slice().len() as u128;
    let indices = f.indices.as_slice().len() as u128;
    params + (1 + (cons + indices))
}

/// Whether constructor `number` of the family takes exactly `count` arguments, the parameters among them.
pub fn takes(f: &Family, number: u32, count: u32) -> bool
    ensures { result ≡ family_takes number count (Some (family_of f.now)) }
{
    match f.cons.as_slice().get(number as usize) {
        Some(c) => {
            let params = f.params.as_slice().len() as u128;
            count as u128 == params + c.args.as_slice().len() as u128
        }
        None => false,
    }
}
