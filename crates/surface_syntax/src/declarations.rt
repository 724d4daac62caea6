ghost use Rattle.std.specs.Prelude.{◌++◌, [], ◌∷◌, map, option_map};
ghost use Rattle.surface_syntax.specs.Machine as machine;
ghost use Rattle.surface_syntax.specs.Steps.{Follows};
ghost use Rattle.surface_syntax.specs.StateMeanings.{families_of, part_of, def_state_of, data_state_of, mutual_state_of};
ghost use Rattle.surface_syntax.specs.TreeMeanings.{decl_of, param_of, member_of};

use crate::building::{with_member, with_word};
use crate::closing::member_end;
use crate::context::{Families, Part};
use crate::due::{colon, name, open_brace};
use crate::halt::Halt;
use crate::state::{DataState, DefState, MutualState, State, Step};
use crate::{Decl, Lexeme, SurfMember, SurfParam, Word};
use core_terms::Items;
use std::alloc::Global;

fn in_def(state: DefState) -> Result<Step, Halt>
    ensures { Follows result (machine.to (machine.In_def (def_state_of state))) }
{
    Ok(Step::to(State::InDef(state)))
}

fn in_data(state: DataState) -> Result<Step, Halt>
    ensures { Follows result (machine.to (machine.In_data (data_state_of state))) }
{
    Ok(Step::to(State::InData(state)))
}

fn in_mutual(state: MutualState) -> Result<Step, Halt>
    ensures { Follows result (machine.to (machine.In_mutual (mutual_state_of state))) }
{
    Ok(Step::to(State::InMutual(state)))
}

fn part(part: Part) -> Result<Step, Halt>
    ensures { Follows result (machine.to (machine.part (part_of part))) }
{
    Ok(Step::to(State::part(part)))
}

/// Where a declaration may begin, or the file may end.
pub(crate) fn start(whole: Option<Decl>, lexeme: Lexeme) -> Result<Step, Halt>
    ensures { Follows result (machine.start (option_map decl_of whole) lexeme) }
{
    match lexeme {
        Lexeme::Def => Ok(Step::Goes(whole, State::InDef(DefState::DefName))),
        Lexeme::Data => Ok(Step::Goes(whole, State::InData(DataState::DataName))),
        Lexeme::Fun => Ok(Step::Goes(whole, State::InDef(DefState::FunName))),
        Lexeme::End => Ok(Step::Ends(whole)),
        _ => Err(Halt::Stuck),
    }
}

fn def_next(word: Word, lexeme: Lexeme) -> Result<Step, Halt>
    ensures { Follows result (machine.def_step (machine.DefNext word) lexeme) }
{
    match lexeme {
        Lexeme::Colon => part(Part::DefType(word)),
        Lexeme::Equals => in_def(DefState::DecideData(word)),
        _ => Err(Halt::Stuck),
    }
}

fn decide_data(word: Word, lexeme: Lexeme) -> Result<Step, Halt>
    ensures { Follows result (machine.def_step (machine.DecideData word) lexeme) }
{
    match lexeme {
        Lexeme::Data => in_def(DefState::DecideFamily(word)),
        _ => Err(Halt::Stuck),
    }
}

/// After `def`.
fn def_name(lexeme: Lexeme) -> Result<Step, Halt>
    ensures { Follows result (machine.def_step machine.DefName lexeme) }
{
    let word = name(lexeme)?;
    in_def(DefState::DefNext(word))
}

/// Where the family of a decision is due.
fn decide_family(word: Word, lexeme: Lexeme) -> Result<Step, Halt>
    ensures { Follows result (machine.def_step (machine.DecideFamily word) lexeme) }
{
    let family = name(lexeme)?;
    in_def(DefState::DecideDecision(word, family))
}

/// Where the last name of a decision is due.
fn decide_decision(word: Word, family: Word, lexeme: Lexeme) -> Result<Step, Halt>
    ensures { Follows result (machine.def_step (machine.DecideDecision word family) lexeme) }
{
    let decision = name(lexeme)?;
    let whole = Decl::Decide {
        name: word,
        family,
        decision,
    };
    Ok(Step::Goes(Some(whole), State::Start))
}

/// After `fun`.
fn fun_name(lexeme: Lexeme) -> Result<Step, Halt>
    ensures { Follows result (machine.def_step machine.FunName lexeme) }
{
    let word = name(lexeme)?;
    in_def(DefState::FunColon(word))
}

/// After the name of a function.
fn fun_colon(word: Word, lexeme: Lexeme) -> Result<Step, Halt>
    ensures { Follows result (machine.def_step (machine.FunColon word) lexeme) }
{
    colon(lexeme).and(part(Part::FunType(word)))
}

/// The states of a definition, or of the head of a function.
pub(crate) fn def_step(state: DefState, lexeme: Lexeme) -> Result<Step, Halt>
    ensures { Follows result (machine.def_step (def_state_of state) lexeme) }
{
    match state {
        DefState::DefName => def_name(lexeme),
        DefState::DefNext(word) => def_next(word, lexeme),
        DefState::DecideData(word) => decide_data(word, lexeme),
        DefState::DecideFamily(word) => decide_family(word, lexeme),
        DefState::DecideDecision(word, family) => decide_decision(word, family, lexeme),
        DefState::FunName => fun_name(lexeme),
        DefState::FunColon(word) => fun_colon(word, lexeme),
    }
}

/// After parameters of a family.
fn params(alloc: Global, word: Word, params: Items<SurfParam>, lexeme: Lexeme) -> Result<Step, Halt>
    ensures { Follows result (machine.data_step (machine.Params word (map param_of params)) lexeme) }
{
    match lexeme {
        Lexeme::Open => in_data(DataState::ParamName(word, params)),
        Lexeme::Colon => {
            let families = Families {
                params,
                members: Items::new(alloc),
            };
            part(Part::MemberType(families, word))
        }
        _ => Err(Halt::Stuck),
    }
}

/// After the `{` of constructors.
fn first_con(families: Families, member: SurfMember, lexeme: Lexeme) -> Result<Step, Halt>
    ensures { Follows result (machine.data_step (machine.FirstCon (families_of families) (member_of member)) lexeme) }
{
    match lexeme {
        Lexeme::CloseBrace => member_end(families, member),
        Lexeme::Plain(con) => in_data(DataState::ConColon(families, member, con)),
        _ => Err(Halt::Stuck),
    }
}

/// On to the name of one family more.
fn another_member(families: Families, member: SurfMember) -> Result<Step, Halt>
    ensures { Follows result (machine.to (machine.In_mutual (machine.MemberName (record { params = map param_of families.params; members = map member_of families.members ++ member_of member ∷ [] })))) }
{
    let families = with_member(families, member)?;
    in_mutual(MutualState::MemberName(families))
}

/// After the first family of a declaration.
fn family_end(
    alloc: Global,
    params: Items<SurfParam>,
    member: SurfMember,
    lexeme: Lexeme,
) -> Result<Step, Halt>
    ensures { Follows result (machine.data_step (machine.FamilyEnd (map param_of params) (member_of member)) lexeme) }
{
    match lexeme {
        Lexeme::With => {
            let members = Items::new(alloc);
            another_member(Families { params, members }, member)
        }
        other => {
            let SurfMember { name, ty, cons } = member;
            start(
                Some(Decl::Data {
                    name,
                    params,
                    ty,
                    cons,
                }),
                other,
            )
        }
    }
}

/// After `data`.
fn data_name(alloc: Global, lexeme: Lexeme) -> Result<Step, Halt>
    ensures { Follows result (machine.data_step machine.DataName lexeme) }
{
    let word = name(lexeme)?;
    let params = Items::new(alloc);
    in_data(DataState::Params(word, params))
}

/// After the `(` of a parameter.
fn param_name(word: Word, params: Items<SurfParam>, lexeme: Lexeme) -> Result<Step, Halt>
    ensures { Follows result (machine.data_step (machine.ParamName word (map param_of params)) lexeme) }
{
    let param = name(lexeme)?;
    in_data(DataState::ParamColon(word, params, param))
}

/// After the name of a parameter.
fn param_colon(
    word: Word,
    params: Items<SurfParam>,
    param: Word,
    lexeme: Lexeme,
) -> Result<Step, Halt>
    ensures { Follows result (machine.data_step (machine.ParamColon word (map param_of params) param) lexeme) }
{
    colon(lexeme).and(part(Part::ParamType(word, params, param)))
}

/// Where one constructor more is due.
fn con_name(families: Families, member: SurfMember, lexeme: Lexeme) -> Result<Step, Halt>
    ensures { Follows result (machine.data_step (machine.ConName (families_of families) (member_of member)) lexeme) }
{
    let con = name(lexeme)?;
    in_data(DataState::ConColon(families, member, con))
}

/// After the name of a constructor.
fn con_colon(
    families: Families,
    member: SurfMember,
    con: Word,
    lexeme: Lexeme,
) -> Result<Step, Halt>
    ensures { Follows result (machine.data_step (machine.ConColon (families_of families) (member_of member) con) lexeme) }
{
    colon(lexeme).and(part(Part::ConType(families, member, con)))
}

/// The states of a family.
pub(crate) fn data_step(alloc: Global, state: DataState, lexeme: Lexeme) -> Result<Step, Halt>
    ensures { Follows result (machine.data_step (data_state_of state) lexeme) }
{
    match state {
        DataState::DataName => data_name(alloc, lexeme),
        DataState::Params(word, list) => params(alloc, word, list, lexeme),
        DataState::ParamName(word, list) => param_name(word, list, lexeme),
        DataState::ParamColon(word, list, param) => param_colon(word, list, param, lexeme),
        DataState::FirstCon(families, member) => first_con(families, member, lexeme),
        DataState::ConName(families, member) => con_name(families, member, lexeme),
        DataState::ConColon(families, member, con) => con_colon(families, member, con, lexeme),
        DataState::FamilyEnd(list, member) => family_end(alloc, list, member, lexeme),
    }
}

/// After a family among those that refer to each other.
fn members_end(families: Families, lexeme: Lexeme) -> Result<Step, Halt>
    ensures { Follows result (machine.mutual_step (machine.MembersEnd (families_of families)) lexeme) }
{
    match lexeme {
        Lexeme::With => in_mutual(MutualState::MemberName(families)),
        Lexeme::In => in_mutual(MutualState::PackedName(families)),
        _ => Err(Halt::Stuck),
    }
}

/// After a tag.
fn tag_next(
    families: Families,
    family: Word,
    tag: Word,
    tags: Items<Word>,
    lexeme: Lexeme,
) -> Result<Step, Halt>
    ensures { Follows result (machine.mutual_step (machine.TagNext (families_of families) family tag tags) lexeme) }
{
    match lexeme {
        Lexeme::Semicolon => in_mutual(MutualState::TagName(families, family, tag, tags)),
        Lexeme::CloseBrace => {
            let Families { params, members } = families;
            let whole = Decl::Mutual {
                params,
                members,
                family,
                tag,
                tags,
            };
            Ok(Step::Goes(Some(whole), State::Start))
        }
        _ => Err(Halt::Stuck),
    }
}

/// After the `with` of one family more.
fn member_name(families: Families, lexeme: Lexeme) -> Result<Step, Halt>
    ensures { Follows result (machine.mutual_step (machine.MemberName (families_of families)) lexeme) }
{
    let word = name(lexeme)?;
    in_mutual(MutualState::MemberColon(families, word))
}

/// After the name of one family more.
fn member_colon(families: Families, word: Word, lexeme: Lexeme) -> Result<Step, Halt>
    ensures { Follows result (machine.mutual_step (machine.MemberColon (families_of families) word) lexeme) }
{
    colon(lexeme).and(part(Part::MemberType(families, word)))
}

/// After the `in` of families.
fn packed_name(families: Families, lexeme: Lexeme) -> Result<Step, Halt>
    ensures { Follows result (machine.mutual_step (machine.PackedName (families_of families)) lexeme) }
{
    let family = name(lexeme)?;
    in_mutual(MutualState::TagFamily(families, family))
}

/// After the name of the packed family.
fn tag_family(families: Families, family: Word, lexeme: Lexeme) -> Result<Step, Halt>
    ensures { Follows result (machine.mutual_step (machine.TagFamily (families_of families) family) lexeme) }
{
    let tag = name(lexeme)?;
    in_mutual(MutualState::TagsOpen(families, family, tag))
}

/// After the name of the family of tags.
fn tags_open(
    alloc: Global,
    families: Families,
    family: Word,
    tag: Word,
    lexeme: Lexeme,
) -> Result<Step, Halt>
    ensures { Follows result (machine.mutual_step (machine.TagsOpen (families_of families) family tag) lexeme) }
{
    let tags = Items::new(alloc);
    open_brace(lexeme).and(in_mutual(MutualState::TagName(families, family, tag, tags)))
}

/// On after one tag more.
fn behind_tag(
    families: Families,
    family: Word,
    tag: Word,
    tags: Items<Word>,
    word: Word,
) -> Result<Step, Halt>
    ensures { Follows result (machine.to (machine.In_mutual (machine.TagNext (families_of families) family tag (tags ++ word ∷ [])))) }
{
    let tags = with_word(tags, word)?;
    in_mutual(MutualState::TagNext(families, family, tag, tags))
}

/// Where a tag is due.
fn tag_name(
    families: Families,
    family: Word,
    tag: Word,
    tags: Items<Word>,
    lexeme: Lexeme,
) -> Result<Step, Halt>
    ensures { Follows result (machine.mutual_step (machine.TagName (families_of families) family tag tags) lexeme) }
{
    let word = name(lexeme)?;
    behind_tag(families, family, tag, tags, word)
}

/// The states of families that refer to each other, after the first.
pub(crate) fn mutual_step(alloc: Global, state: MutualState, lexeme: Lexeme) -> Result<Step, Halt>
    ensures { Follows result (machine.mutual_step (mutual_state_of state) lexeme) }
{
    match state {
        MutualState::MembersEnd(families) => members_end(families, lexeme),
        MutualState::MemberName(families) => member_name(families, lexeme),
        MutualState::MemberColon(families, word) => member_colon(families, word, lexeme),
        MutualState::PackedName(families) => packed_name(families, lexeme),
        MutualState::TagFamily(families, family) => tag_family(families, family, lexeme),
        MutualState::TagsOpen(families, family, tag) => {
            tags_open(alloc, families, family, tag, lexeme)
        }
        MutualState::TagName(families, family, tag, tags) => {
            tag_name(families, family, tag, tags, lexeme)
        }
        MutualState::TagNext(families, family, tag, tags) => {
            tag_next(families, family, tag, tags, lexeme)
        }
    }
}
