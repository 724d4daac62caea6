ghost use Rattle.std.specs.Prelude.{◌≡◌, ◌<◌, ◌++◌, IfOk, OnErr, map};
ghost use Rattle.core_terms.specs.declared.stop.Stop.TheVariants.{Memory};
ghost use Rattle.core_sig.specs.Shapes.{constructor_shape, shape_of};
ghost use Rattle.decide_eq.specs.DecisionEntries as spec;

use core_sig::{Constructor, Family, generated_name};
use core_terms::{Items, Name, Stop};
use std::alloc::Global;

/// Whether the term mentions no confusions.
fn has_confusions(cons: &[Constructor]) -> bool
    ensures { result ≡ spec.has_confusions (map constructor_shape cons.now) }
{
    match cons {
        [] => false,
        [con] => !con.args.as_slice().is_empty(),
        [_, _, ..] => true,
    }
}

/// `D!noconf.c.0`.
fn confusion_name(alloc: Global, family: &Name, constructor: &Name) -> Result<Name, Stop>
    ensures ok { IfOk result (λ name. name ≡ spec.confusion_name family.now constructor.now) }
    ensures memory { OnErr result (result ≡ Err Memory) }
{
    let mut mark = b"!noconf.".to_vec(alloc)?;
    mark.extend_from_slice(constructor.as_slice())?;
    mark.push(b'.')?;
    generated_name(alloc, family, mark.as_slice(), 0)
}

/// `D!noconf.c.0` for each constructor, after the names that are there.
#[tactic(auto, using(tele_eq::proofs::Growing::listing))]
fn with_confusion_names(
    alloc: Global,
    family: &Name,
    cons: &[Constructor],
    mut names: Items<Name>,
) -> Result<Items<Name>, Stop>
    ensures ok { IfOk result (λ made. made ≡ names ++ map (spec.confusion_name family.now) (map (λ c. c.name) cons.now)) }
    ensures memory { OnErr result (result ≡ Err Memory) }
{
    match cons {
        [] => Ok(names),
        [con, rest @ ..] => {
            names.push(confusion_name(alloc, family, &con.name)?)?;
            with_confusion_names(alloc, family, rest, names)
        }
    }
}

/// The names that the term mentions, in the order of first mention.
pub fn names_for(alloc: Global, f: &Family) -> Result<Items<Name>, Stop>
    requires { f.now.level < 100 }
    ensures ok { IfOk result (λ made. made ≡ spec.names_for f.now.name (map (λ c. c.name) f.now.cons) (shape_of f.now)) }
    ensures memory { OnErr result (result ≡ Err Memory) }
{
    let cons = f.cons.as_slice();
    let mut names = Items::new(alloc);
    if cons.is_empty() {
        return Ok(names);
    }
    names.push(generated_name(alloc, &f.name, b"!case.", f.level)?)?;
    if has_confusions(cons) {
        return with_confusion_names(alloc, &f.name, cons, names);
    }
    Ok(names)
}
