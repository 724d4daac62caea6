//! Laws of reduction and comparison, in the words of the theory.
ghost use Rattle.kernel_reduce.specs.SignatureLaws.{PreludeScoped, PushedScoped, FirstEntriesScoped, WellFormedScoped, WellFormedWhole, SoFarScoped, TypedTermScoped, TypedContextScoped};
ghost use Rattle.kernel_reduce.specs.Laws.{HeadStepIsStep, HeadStepIsLow, WhnfIsHeadForm, NormalConverts, ConvertibleConverts, SubtypeIsBelow, HeadStepSpends, WhnfSpends, NormalSpends, ConvertibleSpends, SubtypeSpends, StepScoped, HeadStepScoped, WhnfScoped, NormalScoped};

/// A head step is a step of the theory.
pub fn head_step_is_step()
    ensures { HeadStepIsStep }
{}

/// A head step is no higher than 2,000.
pub fn head_step_is_low()
    ensures { HeadStepIsLow }
{}

/// Head reduction answers a head form that its term converts to.
pub fn whnf_is_head_form()
    ensures { WhnfIsHeadForm }
{}

/// A term converts to its normal form.
pub fn normal_converts()
    ensures { NormalConverts }
{}

/// Terms that are found convertible convert.
pub fn convertible_converts()
    ensures { ConvertibleConverts }
{}

/// A term that is found below another one is below it.
pub fn subtype_is_below()
    ensures { SubtypeIsBelow }
{}

/// A head step gives no units back.
pub fn head_step_spends()
    ensures { HeadStepSpends }
{}

/// Head reduction gives no units back.
pub fn whnf_spends()
    ensures { WhnfSpends }
{}

/// Normalisation gives no units back.
pub fn normal_spends()
    ensures { NormalSpends }
{}

/// Comparison for convertibility gives no units back.
pub fn convertible_spends()
    ensures { ConvertibleSpends }
{}

/// Comparison for cumulativity gives no units back.
pub fn subtype_spends()
    ensures { SubtypeSpends }
{}

/// A head step keeps terms scoped.
pub fn step_scoped()
    ensures { StepScoped }
{}

/// So does the call for one head step.
pub fn head_step_scoped()
    ensures { HeadStepScoped }
{}

/// Head reduction keeps terms scoped.
pub fn whnf_scoped()
    ensures { WhnfScoped }
{}

/// Normalisation keeps terms scoped.
pub fn normal_scoped()
    ensures { NormalScoped }
{}

/// The prelude is scoped.
pub fn prelude_scoped()
    ensures { PreludeScoped }
{}

/// A scoped signature without a provisional entry is scoped with one scoped entry more.
pub fn pushed_scoped()
    ensures { PushedScoped }
{}

/// The first entries of a scoped signature are scoped.
pub fn first_entries_scoped()
    ensures { FirstEntriesScoped }
{}

/// A well-formed signature is scoped.
pub fn well_formed_scoped()
    ensures { WellFormedScoped }
{}

/// A well-formed signature has no provisional entry.
pub fn well_formed_whole()
    ensures { WellFormedWhole }
{}

/// A signature that is well formed up to a provisional entry at its end is scoped.
pub fn so_far_scoped()
    ensures { SoFarScoped }
{}

/// A term that has a type is scoped.
pub fn typed_term_scoped()
    ensures { TypedTermScoped }
{}

/// A well-formed context is scoped.
pub fn typed_context_scoped()
    ensures { TypedContextScoped }
{}
