use core_sig::{Entry, RawFamily};
use core_terms::Items;

/// Families that refer to each other as one family.
///
/// For the signature for which they were packed, the tag family has the first number that is free, and the packed family and the
/// definitions of the members have those after it. `owners` has for each constructor of the packed family the member that declares it,
/// counted from 0.
#[derive(Debug, Drop)]
pub struct Packed {
    pub tag: RawFamily,
    pub family: RawFamily,
    pub members: Items<Entry>,
    pub owners: Items<u32>,
}
