ghost use Rattle.std.specs.Prelude.{◌≡◌, [], ◌++◌, Ok, codes, get_or, map};
ghost use Rattle.core_terms.specs.Answers.{Gives};
ghost use Rattle.core_sig.specs.Drafts as drafts;
ghost use Rattle.core_sig.specs.Meanings.{family_of};
ghost use Rattle.theory.specs.PreludeFamilies.{level_text};
ghost use Rattle.generators.specs.noconf_gen.NoConfusionTypes as confusion;
ghost use Rattle.generators.specs.acyclic_gen.AcyclicEntries as acyclic;
ghost use Rattle.generators.specs.acyclic_gen.DirectEntries as direct;
ghost use Rattle.tree_translation.specs.Naming as spec;

use core_sig::{Constructor, Family};
use core_terms::{Name, Stop};
use std::alloc::Global;

/// `text` with a level after it, in decimal.
fn with_level(mut text: Vec<u8>, m: u8) -> Result<Vec<u8>, Stop>
    ensures { Gives (λ v. v.items) result (Ok (text.items ++ level_text m)) }
{
    if m >= 10 {
        text.push(b'0' + m / 10)?;
    }
    text.push(b'0' + m % 10)?;
    Ok(text)
}

/// The name of an entry that is generated for a family at a level: the family's name, a mark and the level.
pub fn generated_name(alloc: Global, family: &[u8], mark: &[u8], m: u8) -> Result<Name, Stop>
    ensures { Gives (λ name. name) result (Ok (drafts.generated_name family.now mark.now m)) }
{
    let mut text = family.to_vec(alloc)?;
    text.extend_from_slice(mark)?;
    Ok(Name::from_vec(with_level(text, m)?))
}

/// `D!case.m`.
pub fn case_name(alloc: Global, f: &Family, m: u8) -> Result<Name, Stop>
    ensures { Gives (λ name. name) result (Ok (spec.case_name (family_of f.now) m)) }
{
    generated_name(alloc, f.name.as_slice(), b"!case.", m)
}

/// `D!below.m`.
pub fn below_name(alloc: Global, f: &Family, m: u8) -> Result<Name, Stop>
    ensures { Gives (λ name. name) result (Ok (spec.below_name (family_of f.now) m)) }
{
    generated_name(alloc, f.name.as_slice(), b"!below.", m)
}

/// `D!rec.m`.
pub fn rec_name(alloc: Global, f: &Family, m: u8) -> Result<Name, Stop>
    ensures { Gives (λ name. name) result (Ok (spec.rec_name (family_of f.now) m)) }
{
    generated_name(alloc, f.name.as_slice(), b"!rec.", m)
}

/// The name at a position, or none.
fn name_at(cons: &[Constructor], number: u32) -> &[u8]
    ensures { result.now ≡ get_or (map (λ c. c.name) cons.now) number [] }
{
    match cons {
        [] => &[],
        [con, rest @ ..] => {
            if number == 0 {
                con.name.as_slice()
            } else {
                name_at(rest, number - 1)
            }
        }
    }
}

/// The name of a constructor, or none.
#[tactic(auto, using(crate::proofs::RecordNames::constructor_names))]
fn constructor_name(f: &Family, number: u32) -> &[u8]
    ensures { result.now ≡ confusion.constructor_name (family_of f.now) number }
{
    name_at(f.cons.as_slice(), number)
}

/// The part between the family's name and the level: a mark, the constructor's name and a dot.
fn constructor_mark(alloc: Global, mark: &[u8], name: &[u8]) -> Result<Vec<u8>, Stop>
    ensures { Gives (λ v. v.items) result (Ok (confusion.constructor_mark mark.now name.now)) }
{
    let mut text = mark.to_vec(alloc)?;
    text.extend_from_slice(name)?;
    text.push(b'.')?;
    Ok(text)
}

/// `D!noconf.c.m`.
pub fn noconf_name(alloc: Global, f: &Family, number: u32, m: u8) -> Result<Name, Stop>
    ensures { Gives (λ name. name) result (Ok (spec.noconf_name (family_of f.now) number m)) }
{
    let mark = constructor_mark(alloc, b"!noconf.", constructor_name(f, number))?;
    generated_name(alloc, f.name.as_slice(), mark.as_slice(), m)
}

/// `Eq.i!left.m`.
pub fn left_name(alloc: Global, i: u8, m: u8) -> Result<Name, Stop>
    ensures { Gives (λ name. name) result (Ok (spec.left_name i m)) }
{
    let family = with_level(b"Eq.".to_vec(alloc)?, i)?;
    generated_name(alloc, family.as_slice(), b"!left.", m)
}

/// A family's name with a mark after it.
fn marked(alloc: Global, family: &[u8], mark: &[u8]) -> Result<Name, Stop>
    ensures { Gives (λ name. name) result (Ok (family.now ++ mark.now)) }
{
    let mut text = family.to_vec(alloc)?;
    text.extend_from_slice(mark)?;
    Ok(Name::from_vec(text))
}

/// `D!direct`.
pub fn direct_name(alloc: Global, f: &Family) -> Result<Name, Stop>
    ensures { Gives (λ name. name) result (Ok (direct.direct_name f.now.name)) }
{
    marked(alloc, f.name.as_slice(), b"!direct")
}

/// `D!acyclic`.
pub fn acyclic_name(alloc: Global, f: &Family) -> Result<Name, Stop>
    ensures { Gives (λ name. name) result (Ok (acyclic.acyclic_name f.now.name)) }
{
    marked(alloc, f.name.as_slice(), b"!acyclic")
}
