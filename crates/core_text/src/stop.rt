use thiserror::Error;

/// Why core text was not read, with the offset of a byte.
///
/// `Memory` is out of memory. `Nested` is a term inside 2,000 terms, or one that is higher than 2,000. `NotCoreText` is the first
/// byte with which no core file continues, or the first byte of a name that is unknown or taken.
#[derive(Clone, Copy, Debug, PartialEq, Eq, Error)]
pub enum CoreTextStop {
    #[error("Memory")]
    Memory,
    #[error("Nested")]
    Nested(u32),
    #[error("NotCoreText")]
    NotCoreText(u32),
}
