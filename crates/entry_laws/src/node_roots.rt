//! The nodes at which the trees of a function begin: what is seen of them is the part's own telescope.
ghost use Rattle.entry_laws.specs.node_roots.Laws.{HelperNodeOver, StepNodeOver};

/// At the node of a helper, what is seen is the helper's telescope.
pub fn helper_node_over()
    ensures { HelperNodeOver }
{}

/// At the node of the step, what is seen is the function's telescope in the order of recursion.
pub fn step_node_over()
    ensures { StepNodeOver }
{}
