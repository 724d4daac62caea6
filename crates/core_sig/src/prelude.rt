ghost use Rattle.std.specs.Prelude.{◌≡◌, ◌<◌, ◌≤◌, ◌+◌, ◌*◌, ◌++◌, ◌∷◌, [], Bool, ℕ, codes, length, IfOk, OnOk, OnErr};
ghost use Rattle.theory.specs.Terms.{top};
ghost use Rattle.theory.specs.Signatures.{FamilyOf, IsEntryAt, equality};
ghost use Rattle.theory.specs.Prelude as spec;
ghost use Rattle.theory.specs.WellFormed.{first_entries};
ghost use Rattle.core_terms.specs.declared.stop.Stop.TheVariants.{Memory};
ghost use Rattle.core_sig.specs.Kinds.{HasKinds};
ghost use Rattle.core_sig.specs.Meanings.{family_of};

use crate::{Arg, ArgKind, Constructor, Entry, Family, Signature};
use core_terms::{Items, Name, Stop, TOP, Term};
use std::alloc::Global;

/// How many families the prelude has.
const FAMILIES: u32 = 3 * TOP as u32 + 1;

impl Signature {
    /// The families `Empty`, then `Eq.i`, then `Unit.i`, then `Pair.i`, each for the levels i below `TOP`.
    pub fn prelude(alloc: Global, k: bool) -> Result<Signature, Stop>
        ensures ok { IfOk result (λ s. s ≡ spec.prelude k) }
        ensures memory { OnErr result (result ≡ Err Memory) }
    {
        let mut sig = Signature::new(alloc, k);
        for _number in 0..FAMILIES {
            push_next(alloc, &mut sig)?;
        }
        Ok(sig)
    }
}

/// The number of the family `Eq.i` in each signature that begins with the prelude.
pub fn equality(i: u8) -> u32
    ensures { result ≡ equality i }
{
    i as u32 + 1
}

/// The number of the family `Unit.m` in each signature that begins with the prelude.
pub fn unit(m: u8) -> u32
    ensures { result ≡ spec.unit_type m }
{
    equality(TOP) + m as u32
}

/// The number of the family `Pair.m` in each signature that begins with the prelude.
pub fn pair(m: u8) -> u32
    ensures { result ≡ spec.pair_type m }
{
    unit(TOP) + m as u32
}

/// Adds the next family of the prelude.
fn push_next(alloc: Global, sig: &mut Signature) -> Result<(), Stop>
    requires so_far { sig.old ≡ first_entries (spec.prelude sig.old.has_k) (length sig.old.entries) }
    requires room { length sig.old.entries < 3 * top + 1 }
    ensures ok { OnOk result (sig.new ≡ first_entries (spec.prelude sig.old.has_k) (length sig.old.entries + 1)) }
    ensures memory { OnErr result (result ≡ Err Memory) }
{
    let family = family_at(alloc, sig.len())?;
    sig.push(Entry::Family(family))?;
    Ok(())
}

/// The family of the prelude with the number.
fn family_at(alloc: Global, number: u32) -> Result<Family, Stop>
    requires { number < 3 * top + 1 }
    ensures ok { (k : Bool) → IfOk result (λ f. IsEntryAt (spec.prelude k) number (FamilyOf (family_of f))) }
    ensures kinds { (n : ℕ) → IfOk result (HasKinds n) }
    ensures memory { OnErr result (result ≡ Err Memory) }
{
    let levels = TOP as u32;
    if number == 0 {
        empty_family(alloc)
    } else if number <= levels {
        equality_family(alloc, (number - 1) as u8)
    } else if number <= 2 * levels {
        unit_family(alloc, (number - levels - 1) as u8)
    } else {
        pair_family(alloc, (number - 2 * levels - 1) as u8)
    }
}

/// A list of one.
fn only<T: Drop>(alloc: Global, x: T) -> Result<Items<T>, Stop>
    ensures ok { IfOk result (λ xs. xs ≡ x ∷ []) }
    ensures memory { OnErr result (result ≡ Err Memory) }
{
    let mut items = Items::new(alloc);
    items.push(x)?;
    Ok(items)
}

/// A list of two.
fn two<T: Drop>(alloc: Global, x: T, y: T) -> Result<Items<T>, Stop>
    ensures ok { IfOk result (λ xs. xs ≡ x ∷ y ∷ []) }
    ensures memory { OnErr result (result ≡ Err Memory) }
{
    let mut items = Items::new(alloc);
    items.push(x)?;
    items.push(y)?;
    Ok(items)
}

/// The bytes with the level after them, in decimal.
fn name_at(alloc: Global, bytes: &[u8], level: u8) -> Result<Name, Stop>
    requires { level < 100 }
    ensures ok { IfOk result (λ n. n ≡ bytes.now ++ spec.level_text level) }
    ensures memory { OnErr result (result ≡ Err Memory) }
{
    let mut name = Vec::from_slice(alloc, bytes)?;
    if level >= 10 {
        name.push(b'0' + level / 10)?;
    }
    name.push(b'0' + level % 10)?;
    Ok(Name::from_vec(name))
}

fn empty_family(alloc: Global) -> Result<Family, Stop>
    ensures ok { IfOk result (λ f. family_of f ≡ spec.empty_family) }
    ensures kinds { (n : ℕ) → IfOk result (HasKinds n) }
    ensures memory { OnErr result (result ≡ Err Memory) }
{
    Ok(Family {
        name: Name::from_vec(Vec::from_slice(alloc, b"Empty")?),
        params: Items::new(alloc),
        indices: Items::new(alloc),
        level: 0,
        cons: Items::new(alloc),
    })
}

/// An argument or an index whose type is a variable.
fn variable(n: u32, level: u8) -> Arg
    ensures { result ≡ record { ty = Term.Var n; level = level; kind = ArgKind.Plain } }
{
    Arg {
        ty: Term::Var(n),
        level,
        kind: ArgKind::Plain,
    }
}

/// The constructor of `Eq.level`.
fn reflexivity(alloc: Global, level: u8) -> Result<Constructor, Stop>
    requires { level < 100 }
    ensures ok { IfOk result (λ c. c ≡ record { name = codes "refl." ++ spec.level_text level; args = []; targets = Term.Var 0 ∷ [] }) }
    ensures memory { OnErr result (result ≡ Err Memory) }
{
    let name = name_at(alloc, b"refl.", level)?;
    let targets = only(alloc, Term::Var(0))?;
    Ok(Constructor {
        name,
        args: Items::new(alloc),
        targets,
    })
}

fn equality_family(alloc: Global, level: u8) -> Result<Family, Stop>
    requires { level < 100 }
    ensures ok { IfOk result (λ f. family_of f ≡ spec.equality_family level) }
    ensures kinds { (n : ℕ) → IfOk result (HasKinds n) }
    ensures memory { OnErr result (result ≡ Err Memory) }
{
    let name = name_at(alloc, b"Eq.", level)?;
    let params = two(alloc, Term::Sort(level), Term::Var(0))?;
    let indices = only(alloc, variable(1, level))?;
    let cons = only(alloc, reflexivity(alloc, level)?)?;
    Ok(Family {
        name,
        params,
        indices,
        level,
        cons,
    })
}

/// The constructor of `Unit.level`.
fn unit_constructor(alloc: Global, level: u8) -> Result<Constructor, Stop>
    requires { level < 100 }
    ensures ok { IfOk result (λ c. c ≡ record { name = codes "unit." ++ spec.level_text level; args = []; targets = [] }) }
    ensures memory { OnErr result (result ≡ Err Memory) }
{
    Ok(Constructor {
        name: name_at(alloc, b"unit.", level)?,
        args: Items::new(alloc),
        targets: Items::new(alloc),
    })
}

fn unit_family(alloc: Global, level: u8) -> Result<Family, Stop>
    requires { level < 100 }
    ensures ok { IfOk result (λ f. family_of f ≡ spec.unit_family level) }
    ensures kinds { (n : ℕ) → IfOk result (HasKinds n) }
    ensures memory { OnErr result (result ≡ Err Memory) }
{
    let name = name_at(alloc, b"Unit.", level)?;
    let cons = only(alloc, unit_constructor(alloc, level)?)?;
    Ok(Family {
        name,
        params: Items::new(alloc),
        indices: Items::new(alloc),
        level,
        cons,
    })
}

/// The constructor of `Pair.level`. The type of a component is the second variable, both before and after the first one.
fn pair_constructor(alloc: Global, level: u8) -> Result<Constructor, Stop>
    requires { level < 100 }
    ensures ok { IfOk result (λ c. c ≡ record { name = codes "pair." ++ spec.level_text level; args = record { ty = Term.Var 1; level = level; kind = ArgKind.Plain } ∷ record { ty = Term.Var 1; level = level; kind = ArgKind.Plain } ∷ []; targets = [] }) }
    ensures memory { OnErr result (result ≡ Err Memory) }
{
    let name = name_at(alloc, b"pair.", level)?;
    let args = two(alloc, variable(1, level), variable(1, level))?;
    Ok(Constructor {
        name,
        args,
        targets: Items::new(alloc),
    })
}

fn pair_family(alloc: Global, level: u8) -> Result<Family, Stop>
    requires { level < 100 }
    ensures ok { IfOk result (λ f. family_of f ≡ spec.pair_family level) }
    ensures kinds { (n : ℕ) → IfOk result (HasKinds n) }
    ensures memory { OnErr result (result ≡ Err Memory) }
{
    let name = name_at(alloc, b"Pair.", level)?;
    let params = two(alloc, Term::Sort(level), Term::Sort(level))?;
    let cons = only(alloc, pair_constructor(alloc, level)?)?;
    Ok(Family {
        name,
        params,
        indices: Items::new(alloc),
        level,
        cons,
    })
}
