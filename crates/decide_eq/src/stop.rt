/// Why equality of a family is not decided.
///
/// `NotFirstOrder` has a constructor, counted from 0, and its argument, counted from 1. `Memory` and `Deep` are those of `Stop`. No call
/// answers `Deep`: whether a term is too high shows where the entry is made.
#[derive(Clone, Copy, Debug, PartialEq, Eq)]
pub enum DecideStop {
    Memory,
    Deep,
    NotPlainFamily,
    NotDecision,
    NotFirstOrder(u32, u32),
}
