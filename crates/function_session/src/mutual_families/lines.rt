ghost use Rattle.std.specs.Prelude.{◌++◌, map, Ok};
ghost use Rattle.core_terms.specs.Answers.{Gives};
ghost use Rattle.core_sig.specs.Raw.{member_of, raw_constructor_of};
ghost use Rattle.function_session.specs.mutual_families.EquationLines as spec;

use core_sig::{RawCon, RawMember};
use core_terms::{Items, Name, Stop, copy_name};
use std::alloc::Global;

/// Lines, and then those of the constructors of a member.
fn add_lines(
    alloc: Global,
    member: &Name,
    cons: &[RawCon],
    mut lines: Items<(Name, Name)>,
) -> Result<Items<(Name, Name)>, Stop>
    ensures { Gives (λ lines. lines) result (Ok (lines ++ map (λ c. (member.now, c.name)) (map raw_constructor_of cons.now))) }
{
    match cons {
        [] => Ok(lines),
        [con, rest @ ..] => {
            lines.push((copy_name(alloc, member)?, copy_name(alloc, &con.name)?))?;
            add_lines(alloc, member, rest, lines)
        }
    }
}

/// Lines, and then those of members.
fn add_members(
    alloc: Global,
    members: &[RawMember],
    lines: Items<(Name, Name)>,
) -> Result<Items<(Name, Name)>, Stop>
    ensures { Gives (λ lines. lines) result (Ok (lines ++ spec.mutual_lines (map member_of members.now))) }
{
    match members {
        [] => Ok(lines),
        [member, rest @ ..] => {
            let lines = add_lines(alloc, &member.name, member.cons.as_slice(), lines)?;
            add_members(alloc, rest, lines)
        }
    }
}

/// For each constructor the names of its member and its own.
pub(crate) fn mutual_lines(
    alloc: Global,
    members: &[RawMember],
) -> Result<Items<(Name, Name)>, Stop>
    ensures { Gives (λ lines. lines) result (Ok (spec.mutual_lines (map member_of members.now))) }
{
    add_members(alloc, members, Items::new(alloc))
}
