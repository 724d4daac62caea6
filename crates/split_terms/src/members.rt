ghost use Rattle.std.specs.Prelude.{◌≡◌, ◌++◌, Some, Ok, IfOk, IfSome, length, option_map};
ghost use Rattle.core_terms.specs.Answers.{Gives};
ghost use Rattle.core_terms.specs.Meanings.{tree_of, tele_of};
ghost use Rattle.core_sig.specs.Meanings.{family_of};
ghost use Rattle.kernel_reduce.specs.Entries.{family_at};
ghost use Rattle.tele_eq.specs.Items.{items_of};
ghost use Rattle.tree_translation.specs.Splits as splits;
ghost use Rattle.problems.specs.MemberMeanings.{member_meant};
ghost use Rattle.split_terms.specs.CodeSplits as spec;
ghost use Rattle.split_terms.specs.NodeMeanings.{IsWhole};

use core_sig::Signature;
use core_terms::{MAX_HEIGHT, Stop, Tele, Term, copy_tele, copy_whole};
use kernel_reduce::family;
use problems::{Member, member_of};
use std::alloc::Global;
use tele_eq::Item;

/// The member with the record of its family in the signature, whose arguments have the kinds of their types.
fn with_record<'a>(sig: &'a Signature, m: Member<'a>) -> Option<Member<'a>>
    requires there { family_at sig.now m.number ≡ Some (family_of m.family.now) }
    requires parameters { length m.params ≡ length m.family.now.params }
    ensures answer { option_map member_meant result ≡ Some (member_meant m.entry) }
    ensures member { IfSome result IsWhole }
{
    let Member {
        number,
        params,
        indices,
        ..
    } = m;
    let family = family(sig, number)?;
    Some(Member {
        number,
        family,
        params,
        indices,
    })
}

/// A type as a family with all its parameters and indices, or Deep where the type is too high.
pub fn type_member<'a>(
    alloc: Global,
    sig: &'a Signature,
    ty: &Term,
) -> Result<Option<Member<'a>>, Stop>
    ensures answer { Gives (option_map member_meant) result (spec.member_made sig.now (tree_of ty.now)) }
    ensures member { IfOk result (λ found. IfSome found IsWhole) }
{
    if ty.height() > MAX_HEIGHT {
        return Err(Stop::Deep);
    }
    match member_of(alloc, sig, ty)? {
        None => Ok(None),
        Some(m) => Ok(with_record(sig, m)),
    }
}

/// The indices, and the variable that is split.
#[tactic(auto, using(tele_eq::proofs::Growing::growing))]
pub fn scrutinee(alloc: Global, m: &Member, x: u32) -> Result<Tele, Stop>
    ensures { Gives tele_of result (Ok (splits.scrutinee (member_meant m.now) x)) }
{
    let mut made = copy_tele(alloc, m.indices.as_slice())?;
    made.push(Term::Var(x))?;
    Ok(made)
}

/// Types, followed by those of a telescope.
#[tactic(auto, using(tele_eq::proofs::Growing::growing))]
pub fn with_types(alloc: Global, items: &[Item], mut made: Tele) -> Result<Tele, Stop>
    ensures { Gives tele_of result (Ok (tele_of made ++ splits.member_types (items_of items.now))) }
{
    match items {
        [] => Ok(made),
        [item, rest @ ..] => {
            made.push(copy_whole(alloc, &item.ty)?)?;
            with_types(alloc, rest, made)
        }
    }
}
