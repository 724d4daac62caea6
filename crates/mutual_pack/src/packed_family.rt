/// A packed family by its numbers: that of its tag family, which the packed family and the members follow; how many parameters, members
/// and constructors there are; and the level.
#[derive(Clone, Copy)]
pub struct PackedFamily {
    pub tag: u32,
    pub params: u32,
    pub members: u32,
    pub constructors: u32,
    pub level: u8,
}
