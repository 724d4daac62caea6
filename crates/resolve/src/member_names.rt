ghost use Rattle.std.specs.Prelude.{◌≡◌, map, Ok};
ghost use Rattle.surface_syntax.specs.TreeMeanings.{member_of};
ghost use Rattle.resolve.specs.Answers.{Gives};
ghost use Rattle.resolve.specs.MemberNumbers as spec;

use crate::ResolveStop;
use crate::variables::Variables;
use core_terms::number_of;
use std::alloc::Global;
use std::marker::Model;
use surface_syntax::SurfMember;

/// The names of families that refer to each other. The first one has the first number, and each other one the next number. A name is
/// found by a hash.
#[derive(Drop)]
pub(crate) struct MemberNames {
    first: u32,
    names: Variables,
}

impl Model for MemberNames {
    ghost use Rattle.resolve.specs.MemberNumbers.{MemberNumbers, HaveNumbers};

    ghost Value = { MemberNumbers };

    ghost view = { λ m. record { first = m.first; names = m.names } };

    ghost invariant = { HaveNumbers };
}

impl MemberNames {
    /// The number of the last member that has the name.
    pub(crate) fn number(&self, name: &[u8]) -> Option<u32>
        ensures { result ≡ spec.number_of self.now name.now }
    {
        match self.names.variable(name) {
            Some(at) => Some(self.first + (self.names.len() - 1 - at) as u32),
            None => None,
        }
    }
}

/// The names of members. Memory where a number does not fit 32 bits.
pub(crate) fn numbered(
    alloc: Global,
    first: u32,
    members: &[SurfMember],
) -> Result<MemberNames, ResolveStop>
    ensures { Gives (λ names. names) result (Ok (record { first = first; names = map (λ m. m.name.text) (map member_of members.now) })) }
{
    number_of(first as usize + members.len() + 1)?;
    let names = names_of(alloc, members)?;
    Ok(MemberNames { first, names })
}

fn names_of(alloc: Global, members: &[SurfMember]) -> Result<Variables, ResolveStop>
    ensures { Gives (λ names. names) result (Ok (map (λ m. m.name.text) (map member_of members.now))) }
{
    let mut names = Variables::new(alloc);
    for member in members {
        names.push(&member.name.text)?;
    }
    Ok(names)
}
