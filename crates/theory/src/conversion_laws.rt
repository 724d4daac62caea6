//! The laws of reduction steps, conversion and cumulativity. A signature whose definitions have closed bodies keeps all
//! three under lifting and substitution.
ghost use Rattle.theory.specs.ConversionLaws.{ConvertsSymmetric, ConvertsTransitive, ConvertsProducts, ConvertsFunctions, ConvertsApplications, ConvertsLets, StepOfLift, StepOfSubst, ConvertsOfLift, ConvertsOfSubst, BelowOfLift, BelowOfSubst};

/// Conversion is symmetric.
pub fn converts_symmetric()
    ensures { ConvertsSymmetric }
{}

/// Conversion is transitive.
pub fn converts_transitive()
    ensures { ConvertsTransitive }
{}

/// Products of convertible parts are convertible.
pub fn converts_products()
    ensures { ConvertsProducts }
{}

/// Functions of convertible parts are convertible.
pub fn converts_functions()
    ensures { ConvertsFunctions }
{}

/// Applications of convertible parts are convertible.
pub fn converts_applications()
    ensures { ConvertsApplications }
{}

/// Local definitions of convertible parts are convertible.
pub fn converts_lets()
    ensures { ConvertsLets }
{}

/// A lift keeps a step.
pub fn step_of_lift()
    ensures { StepOfLift }
{}

/// A substitution keeps a step.
pub fn step_of_subst()
    ensures { StepOfSubst }
{}

/// A lift keeps conversion.
pub fn converts_of_lift()
    ensures { ConvertsOfLift }
{}

/// A substitution keeps conversion, in the term and in the one that it puts.
pub fn converts_of_subst()
    ensures { ConvertsOfSubst }
{}

/// A lift keeps cumulativity.
pub fn below_of_lift()
    ensures { BelowOfLift }
{}

/// A substitution keeps cumulativity.
pub fn below_of_subst()
    ensures { BelowOfSubst }
{}
