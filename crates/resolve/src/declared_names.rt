ghost use Rattle.std.specs.Prelude.{◌≡◌, map};
ghost use Rattle.surface_syntax.specs.TreeMeanings.{decl_of, member_of};
ghost use Rattle.resolve.specs.DeclaredNames as spec;

use surface_syntax::{Decl, SurfMember, Word};

/// The name of a declaration; of families that refer to each other it is the first one's.
pub fn declared_word(d: &Decl) -> &Word
    ensures { result.now ≡ spec.declared_word (decl_of d.now) }
{
    match d {
        Decl::Def { name, .. }
        | Decl::Decide { name, .. }
        | Decl::Data { name, .. }
        | Decl::Fun { name, .. } => name,
        Decl::Mutual {
            members,
            family,
            ..
        } => first_name(members.as_slice(), family),
    }
}

/// The first of the names that families which refer to each other declare.
fn first_name<'a>(members: &'a [SurfMember], family: &'a Word) -> &'a Word
    ensures { result.now ≡ spec.first_name (map member_of members.now) family.now }
{
    match members.first() {
        Some(member) => &member.name,
        None => family,
    }
}
