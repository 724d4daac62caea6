ghost use Rattle.std.specs.Prelude.{◌≡◌, ◌++◌, IfOk, OnErr, map};
ghost use Rattle.core_terms.specs.declared.stop.Stop.TheVariants.{Memory};
ghost use Rattle.core_sig.specs.Shapes.{constructor_shape};
ghost use Rattle.generators.specs.acyclic_gen.AcyclicEntries as spec;
ghost use Rattle.generators.specs.acyclic_gen.DirectEntries.{direct_name};

use crate::acyclic_gen::direct_arguments::has_direct;
use core_sig::Constructor;
use core_terms::{Items, Name, Stop};
use std::alloc::Global;

/// `D!direct`.
pub fn direct_name(alloc: Global, family: &Name) -> Result<Name, Stop>
    ensures ok { IfOk result (λ name. name ≡ direct_name family.now) }
    ensures memory { OnErr result (result ≡ Err Memory) }
{
    let mut name = family.as_slice().to_vec(alloc)?;
    name.extend_from_slice(b"!direct")?;
    Ok(Name::from_vec(name))
}

/// `D!acyclic`.
pub fn acyclic_name(alloc: Global, family: &Name) -> Result<Name, Stop>
    ensures ok { IfOk result (λ name. name ≡ spec.acyclic_name family.now) }
    ensures memory { OnErr result (result ≡ Err Memory) }
{
    let mut name = family.as_slice().to_vec(alloc)?;
    name.extend_from_slice(b"!acyclic")?;
    Ok(Name::from_vec(name))
}

/// `D!noconf.c.0`.
fn noconf_name(alloc: Global, family: &Name, constructor: &Name) -> Result<Name, Stop>
    ensures ok { IfOk result (λ name. name ≡ spec.noconf_name family.now constructor.now) }
    ensures memory { OnErr result (result ≡ Err Memory) }
{
    let mut name = family.as_slice().to_vec(alloc)?;
    name.extend_from_slice(b"!noconf.")?;
    name.extend_from_slice(constructor.as_slice())?;
    name.extend_from_slice(b".0")?;
    Ok(Name::from_vec(name))
}

/// `D!noconf.c.0` for each constructor with direct arguments, after the names that are there.
#[tactic(auto, using(tele_eq::proofs::Growing::listing))]
fn with_noconf_names(
    alloc: Global,
    family: &Name,
    cons: &[Constructor],
    mut names: Items<Name>,
) -> Result<Items<Name>, Stop>
    ensures ok { IfOk result (λ made. made ≡ names ++ spec.noconf_names family.now (map (λ c. c.name) cons.now) (map constructor_shape cons.now)) }
    ensures memory { OnErr result (result ≡ Err Memory) }
{
    match cons {
        [] => Ok(names),
        [con, rest @ ..] => {
            if has_direct(con.args.as_slice()) {
                names.push(noconf_name(alloc, family, &con.name)?)?;
            }
            with_noconf_names(alloc, family, rest, names)
        }
    }
}

/// `D!direct`, and `D!noconf.c.0` for each constructor with direct arguments.
pub fn names_for(alloc: Global, family: &Name, cons: &[Constructor]) -> Result<Items<Name>, Stop>
    ensures ok { IfOk result (λ made. made ≡ spec.names_for family.now (map (λ c. c.name) cons.now) (map constructor_shape cons.now)) }
    ensures memory { OnErr result (result ≡ Err Memory) }
{
    let mut names = Items::new(alloc);
    names.push(direct_name(alloc, family)?)?;
    with_noconf_names(alloc, family, cons, names)
}
