ghost use Rattle.std.specs.Prelude.{◌≡◌, ◌≤◌, Ok, Err, OnOk, OnErr, option_map};
ghost use Rattle.core_terms.specs.Answers.{Gives};
ghost use Rattle.core_terms.specs.Bounds.{most_inner_variables};
ghost use Rattle.core_terms.specs.Meanings.{tree_of};
ghost use Rattle.core_terms.specs.declared.stop.Stop.TheVariants.{Memory};
ghost use Rattle.core_sig.specs.Meanings.{family_of};
ghost use Rattle.theory.specs.Signatures.{FamilyOf, IsEntryAt};
ghost use Rattle.theory.specs.Terms as tree;
ghost use Rattle.case_below_gen.specs.Paths as paths;
ghost use Rattle.leaf_terms.specs.CodeRightSides as spec;
ghost use Rattle.leaf_terms.specs.PlaceMeanings.{descent_of, found_of};

use case_below_gen::below_path;
use core_sig::{Family, Signature};
use core_terms::{MAX_HEIGHT, Stop, Term};
use run_terms::free_of;
use std::alloc::Global;

/// How many variables may be free in a term that a path is made of.
const MOST_INNER_VARIABLES: u64 = 3221225472;

/// The data of a path: a part of terms of family `fam`, and the motive into `Type level`, where the constant `below` is
/// `D!below.level`.
#[derive(Clone, Copy)]
pub struct Descent<'a> {
    pub fam: u32,
    pub family: &'a Family,
    pub level: u8,
    pub below: u32,
    pub motive: &'a Term,
    pub part: &'a Term,
}

/// Memory where the variables of a term have too great numbers.
fn few_variables(t: &Term) -> Result<(), Stop>
    ensures few { OnOk result (tree.free_of (tree_of t.now) ≤ most_inner_variables) }
    ensures memory { OnErr result (result ≡ Err Memory) }
{
    if free_of(t) > MOST_INNER_VARIABLES {
        return Err(Stop::Memory);
    }
    Ok(())
}

/// The path to a strict part of a term in a below value for the term, or None where it is no strict part. Deep where it is one, and
/// the path, the part or the term is too high.
fn path_to(
    alloc: Global,
    sig: &Signature,
    d: &Descent,
    whole: &Term,
    below: &Term,
) -> Result<Option<Term>, Stop>
    requires { IsEntryAt sig.now d.now.fam (FamilyOf (family_of d.now.family.now)) }
    ensures { Gives (option_map tree_of) result (paths.path_to (descent_of d.now) (tree_of whole.now) (tree_of below.now)) }
{
    few_variables(d.motive)?;
    few_variables(whole)?;
    few_variables(d.part)?;
    few_variables(below)?;
    below_path(
        alloc, sig, d.fam, d.level, d.below, d.motive, whole, d.part, below,
    )
}

/// Where the argument of a call is looked for in a below value: the argument is itself too high, it is no strict part of the leaf's term,
/// the path to it is too high, or there is a path.
#[derive(Drop)]
pub enum Found {
    Missing,
    Elsewhere,
    TooHigh,
    At(Term),
}

/// A strict part of a term is looked for.
fn found_in(
    alloc: Global,
    sig: &Signature,
    d: &Descent,
    whole: &Term,
    below: &Term,
) -> Result<Found, Stop>
    requires { IsEntryAt sig.now d.now.fam (FamilyOf (family_of d.now.family.now)) }
    ensures { Gives found_of result (Ok (spec.found_by (paths.path_to (descent_of d.now) (tree_of whole.now) (tree_of below.now)))) }
{
    match path_to(alloc, sig, d, whole, below) {
        Ok(Some(path)) => Ok(Found::At(path)),
        Ok(None) => Ok(Found::Elsewhere),
        Err(Stop::Memory) => Err(Stop::Memory),
        Err(_) => Ok(Found::TooHigh),
    }
}

/// A strict part of a term is looked for. Deep where the term is too high.
pub fn found_for(
    alloc: Global,
    sig: &Signature,
    d: &Descent,
    whole: &Term,
    below: &Term,
) -> Result<Found, Stop>
    requires { IsEntryAt sig.now d.now.fam (FamilyOf (family_of d.now.family.now)) }
    ensures { Gives found_of result (spec.found_for (descent_of d.now) (tree_of whole.now) (tree_of below.now)) }
{
    if whole.height() > MAX_HEIGHT {
        return Err(Stop::Deep);
    }
    found_in(alloc, sig, d, whole, below)
}
