//! The law on sorts. A level that is read off a reduct of a typed term is at most the greatest one, because of it.
ghost use Rattle.theory.specs.SortLaws.{SortsOfDerivation, SortsOfSymbolType, SortsOfStep};

/// A term that has a type has sorts below the greatest level only.
pub fn sorts_of_derivation()
    ensures { SortsOfDerivation }
{}

/// The type of a symbol has sorts below the greatest level only.
pub fn sorts_of_symbol_type()
    ensures { SortsOfSymbolType }
{}

/// A step brings in no sort of the greatest level or above.
pub fn sorts_of_step()
    ensures { SortsOfStep }
{}
