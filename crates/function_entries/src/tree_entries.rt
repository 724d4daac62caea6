ghost use Rattle.std.specs.Prelude.{◌≡◌, Ok, option_map};
ghost use Rattle.std.specs.Option.{option_copied};
ghost use Rattle.core_terms.specs.Answers.{Gives};
ghost use Rattle.core_terms.specs.Meanings.{tree_of};
ghost use Rattle.core_sig.specs.Drafts.{draft_of};
ghost use Rattle.split_terms.specs.NodeMeanings.{node_of};
ghost use Rattle.leaf_terms.specs.PlaceMeanings.{HaveFamilies, translation_of};
ghost use Rattle.leaf_terms.specs.PlanMeanings.{part_of, plan_of};
ghost use Rattle.leaf_terms.specs.RecursionMeanings.{recursion_of};
ghost use Rattle.function_entries.specs.CodeEntries as spec;

use crate::candidates::side_names;
use crate::tree_naming::tree_names;
use crate::trees::tree_term;
use core_sig::{Draft, Signature};
use core_terms::{Items, Name, Stop, Term, copy_tele, copy_whole, functions, products};
use leaf_terms::{Part, Plan, Recursion, Translation, numbered};
use run_terms::outlines::whole;
use run_terms::with_names;
use split_terms::Node;
use std::alloc::Global;

/// The names that an entry with a tree may mention: these, and those of the tree, or Deep.
pub fn table_from(
    alloc: Global,
    sig: &Signature,
    names: Items<Name>,
    part: &Part,
    node: &Node,
) -> Result<Items<Name>, Stop>
    ensures { Gives (λ ns. ns) result (spec.table_from sig.now names (part_of part.now) (node_of node.now)) }
{
    let names = tree_names(alloc, sig, part.level, &part.tree, node, names)?;
    with_names(alloc, Items::new(alloc), names.as_slice())
}

/// The names that the entry of a part may mention, or Deep.
pub fn table_of(
    alloc: Global,
    sig: &Signature,
    plan: &Plan,
    r: Option<&Recursion>,
    at: u32,
    part: &Part,
    node: &Node,
) -> Result<Items<Name>, Stop>
    ensures { Gives (λ ns. ns) result (spec.table_made sig.now (plan_of plan.now) (option_map recursion_of (option_copied r.entry)) at (part_of part.now) (node_of node.now)) }
{
    let names = side_names(alloc, plan, r, at)?;
    table_from(alloc, sig, names, part, node)
}

/// `\context. tree`, or Deep.
fn tree_body(alloc: Global, w: &Translation, node: &Node) -> Result<Term, Stop>
    requires { HaveFamilies w.now.sig.now (translation_of w.now).recursions }
    ensures { Gives tree_of result (spec.body_made (translation_of w.now) (node_of node.now)) }
{
    let body = tree_term(alloc, w, &w.part.tree, node)?;
    let context = copy_tele(alloc, node.ctx.as_slice())?;
    functions(alloc, context.into_vec(), whole(alloc, body)?)
}

/// The draft of an entry with a tree, whose type and tree are made with the numbers of these names, or Deep.
pub fn tree_entry(
    alloc: Global,
    name: Name,
    w: &Translation,
    node: &Node,
    ty: &Term,
) -> Result<Draft, Stop>
    requires { HaveFamilies w.now.sig.now (translation_of w.now).recursions }
    ensures { Gives draft_of result (spec.tree_entry_made name w.now.naming.names.now (translation_of w.now) (node_of node.now) (tree_of ty.now)) }
{
    let body = tree_body(alloc, w, node)?;
    numbered(alloc, name, w.plan.base, w.naming.names, ty, &body)
}

/// `(context) -> goal`.
fn node_type(alloc: Global, node: &Node) -> Result<Term, Stop>
    ensures { Gives tree_of result (Ok (spec.node_type (node_of node.now))) }
{
    let context = copy_tele(alloc, node.ctx.as_slice())?;
    let goal = copy_whole(alloc, &node.goal)?;
    products(alloc, context.into_vec(), goal)
}

/// The draft of an entry with a tree, whose type is its node's, or Deep.
pub fn node_entry(alloc: Global, name: Name, w: &Translation, node: &Node) -> Result<Draft, Stop>
    requires { HaveFamilies w.now.sig.now (translation_of w.now).recursions }
    ensures { Gives draft_of result (spec.tree_entry_made name w.now.naming.names.now (translation_of w.now) (node_of node.now) (spec.node_type (node_of node.now))) }
{
    let ty = node_type(alloc, node)?;
    tree_entry(alloc, name, w, node, &ty)
}
