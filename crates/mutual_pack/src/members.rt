/// The members of a declaration: the constant that stands for the first of them, which the others follow; how many there are; and how many
/// parameters they have.
#[derive(Clone, Copy)]
pub struct Members {
    pub first: u32,
    pub count: u32,
    pub params: u32,
}
