/// Why no rule goes on with an equation.
///
/// `NeedsK`: its sides are convertible, and K is off. `OccursNotRigid`: a side is a variable that occurs in the other one, and not
/// along direct arguments of constructors. `Depends`: a side is a variable that the other one can't stand for, since the type or
/// the other side depends on it. `NeedsIndexEquations`: one constructor of a family with indices is on both sides, and the
/// equations of the indices are not there. `NotRigid`: none of these, as where a side is neither variable nor constructor.
#[derive(Clone, Copy, Debug, PartialEq, Eq)]
pub enum Why {
    NeedsK,
    NotRigid,
    OccursNotRigid,
    Depends,
    NeedsIndexEquations,
}
