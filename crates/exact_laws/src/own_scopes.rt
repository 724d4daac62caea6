//! Scopes of a function's own draft.
ghost use Rattle.exact_laws.specs.own_scopes.Laws.{PlainFunctionScoped, RecursiveFunctionScoped};

/// The own entry of a function that does not call itself is a scoped draft.
pub fn plain_function_scoped()
    ensures { PlainFunctionScoped }
{}

/// The own entry of a function by recursion is a scoped draft.
pub fn recursive_function_scoped()
    ensures { RecursiveFunctionScoped }
{}
