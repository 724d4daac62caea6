ghost use Rattle.std.specs.Prelude.{◌≡◌};
ghost use Rattle.kernel_check.specs.TypeIds.{known_type};

/// The id of the type of a variable or a symbol.
pub(crate) enum TypeId<I> {
    Of(I),
    /// The type is higher than 2,000, so it has no id.
    TooHigh,
    /// There is no such variable or symbol.
    Unknown,
}

/// The id of a type that is given.
pub(crate) fn known<I>(ty: Option<I>) -> TypeId<I>
    ensures { result ≡ known_type ty }
{
    match ty {
        Some(id) => TypeId::Of(id),
        None => TypeId::TooHigh,
    }
}
