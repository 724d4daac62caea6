//! Laws of the entries of a function: Deep is answered only where they are too high.
ghost use Rattle.exact_laws.specs.deep_laws.Laws.{TranslateAnswers, TranslateIsExact};

use crate::leaf_laws::part_is_exact;

/// The code makes the entries that a plan translates to.
pub fn translate_answers()
    ensures { TranslateAnswers }
{
    part_is_exact();
}

/// The code's answer for a plan is its translation, and `Deep` exactly where the translation is `Deep`.
pub fn translate_is_exact()
    ensures { TranslateIsExact }
{
    part_is_exact();
}
