//! Scopes of the drafts of helpers.
ghost use Rattle.exact_laws.specs.helper_scopes.Laws.{PlainHelperScoped};

/// A helper of a function that does not call itself is a scoped draft.
pub fn plain_helper_scoped()
    ensures { PlainHelperScoped }
{}
