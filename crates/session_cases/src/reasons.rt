use elab_session::{PartName, Refusal};

fn part(name: &PartName) -> &'static str {
    match name {
        PartName::Ty => "IllTyped type",
        PartName::Body => "IllTyped body",
        PartName::Param(_) => "IllTyped param",
        PartName::Con(_) => "IllTyped con",
        PartName::Dot(_, _) => "IllTyped dot",
        PartName::Side(_, _) => "IllTyped side",
        PartName::With(_, _) => "IllTyped with",
        PartName::Goal(_, _) => "IllTyped goal",
    }
}

/// The name of the reason for which a declaration is refused, and the part that the checker rejects.
pub(crate) fn reason(refusal: &Refusal) -> &'static str {
    match refusal {
        Refusal::Memory => "Memory",
        Refusal::Fuel(_) => "Fuel",
        Refusal::Deep => "Deep",
        Refusal::UnknownName(_, _) => "UnknownName",
        Refusal::Duplicate(_, _) => "Duplicate",
        Refusal::WrongArity(_, _) => "WrongArity",
        Refusal::NotLinear(_, _) => "NotLinear",
        Refusal::BadFamily => "BadFamily",
        Refusal::NotPositive(_, _) => "NotPositive",
        Refusal::IndexTooLarge(_, _) => "IndexTooLarge",
        Refusal::NotPlainFamily(_) => "NotPlainFamily",
        Refusal::NotDecision(_) => "NotDecision",
        Refusal::NotFirstOrder(_, _) => "NotFirstOrder",
        Refusal::TagCount(_) => "TagCount",
        Refusal::MemberLevel(_) => "MemberLevel",
        Refusal::Unequal { .. } => "Unequal",
        Refusal::IllTyped { part: name, .. } => part(name),
        Refusal::WrongConstructor { .. } => "WrongConstructor",
        Refusal::Stuck { .. } => "Stuck",
        Refusal::Uncovered { .. } => "Uncovered",
        Refusal::NotAbsurd { .. } => "NotAbsurd",
        Refusal::Impossible { .. } => "Impossible",
        Refusal::DotMismatch { .. } => "DotMismatch",
        Refusal::SelfInType { .. } => "SelfInType",
        Refusal::NotSmaller(_) => "NotSmaller",
        Refusal::Rejected { .. } => "Rejected",
    }
}
