use core_terms::{Items, Name, Tele, Term};

/// A family as declared: its type and the types of its constructors are under the parameters.
#[derive(Debug, Drop)]
pub struct RawFamily {
    pub name: Name,
    pub params: Tele,
    pub ty: Term,
    pub cons: Items<RawCon>,
}

/// A constructor as declared. In its type the family has the number that it will have once it is in the signature.
#[derive(Debug, Drop)]
pub struct RawCon {
    pub name: Name,
    pub ty: Term,
}

/// Families as declared that refer to each other, with the names of the one family that stands for all of them, of its
/// tag type and of the tags.
#[derive(Debug, Drop)]
pub struct MutualRaw {
    pub params: Tele,
    pub members: Items<RawMember>,
    pub family: Name,
    pub tag: Name,
    pub tags: Items<Name>,
}

/// One of the families that refer to each other. In the types of constructors member k, from 1 on, is the constant
/// numbered k - 1 after the entries of the signature.
#[derive(Debug, Drop)]
pub struct RawMember {
    pub name: Name,
    pub ty: Term,
    pub cons: Items<RawCon>,
}
