ghost use Rattle.std.specs.Prelude.{◌≡◌, ◌++◌, [], cond, true, IsTrue, OnOk, OnErr, Err};
ghost use Rattle.core_terms.specs.Meanings.{tree_of};
ghost use Rattle.core_terms.specs.declared.stop.Stop.TheVariants.{Memory};
ghost use Rattle.core_text.specs.TermReading.{is_application};
ghost use Rattle.core_text.specs.TermText.{term_text};
ghost use Rattle.term_pool.specs.Pools.{pool_held};
ghost use Rattle.theory.specs.Terms as tree;
ghost use Rattle.shared_text.specs.BlockText.{head_number, in_full, numbered, shared_text};
ghost use Rattle.shared_text.specs.CodeMeanings.{AreLive, shared_of};

use crate::id_set::IdSet;
use crate::met::is_application;
use crate::tree_set::number_of_tree;
use core_sig::Signature;
use core_terms::{Stop, Term};
use core_text::bytes::{write, write_numbered};
use core_text::print_term;
use std::alloc::Global;
use term_pool::{Id, Node, Pool};

/// Where terms are written: the signature, and the shared terms at their numbers.
#[derive(Clone, Copy)]
pub(crate) struct Texts<'a> {
    pub(crate) alloc: Global,
    pub(crate) sig: &'a Signature,
    pub(crate) pool: &'a Pool,
    pub(crate) shared: &'a IdSet,
}

/// Writes the term by its number where it is shared, else in full.
#[cycle(write_shared)]
pub(crate) fn write_shared(out: &mut Vec<u8>, texts: &Texts, id: Id) -> Result<(), Stop>
    requires live { IsTrue ((pool_held texts.now.pool.now).live id) }
    requires shared { AreLive texts.now.pool.now texts.now.shared.now }
    ensures ok { OnOk result (out.new.items ≡ out.old.items ++ shared_text (texts.now.sig.now) (shared_of texts.now) ((pool_held texts.now.pool.now).tree id)) }
    ensures memory { OnErr result (result ≡ Err Memory) }
{
    match number_of_tree(texts.pool, texts.shared, id) {
        Some(number) => write_numbered(out, b"$", number as u64),
        None => write_full(out, texts, id, false),
    }
}

/// Writes the function of an application.
#[cycle(write_shared)]
fn write_function(out: &mut Vec<u8>, texts: &Texts, id: Id) -> Result<(), Stop>
    requires live { IsTrue ((pool_held texts.now.pool.now).live id) }
    requires shared { AreLive texts.now.pool.now texts.now.shared.now }
    ensures ok { OnOk result (out.new.items ≡ out.old.items ++ numbered (head_number (shared_of texts.now) ((pool_held texts.now.pool.now).tree id)) (in_full (texts.now.sig.now) (shared_of texts.now) true ((pool_held texts.now.pool.now).tree id))) }
    ensures memory { OnErr result (result ≡ Err Memory) }
{
    if is_application(texts.pool, id) {
        write_full(out, texts, id, true)
    } else {
        write_shared(out, texts, id)
    }
}

/// Writes the term in full, with the numbers of shared terms in it. `is_function` where it is the function of an application.
#[cycle(write_shared)]
pub(crate) fn write_full(
    out: &mut Vec<u8>,
    texts: &Texts,
    id: Id,
    is_function: bool,
) -> Result<(), Stop>
    requires live { IsTrue ((pool_held texts.now.pool.now).live id) }
    requires shared { AreLive texts.now.pool.now texts.now.shared.now }
    ensures ok { OnOk result (out.new.items ≡ out.old.items ++ in_full (texts.now.sig.now) (shared_of texts.now) is_function ((pool_held texts.now.pool.now).tree id)) }
    ensures memory { OnErr result (result ≡ Err Memory) }
{
    match texts.pool.node(id) {
        Node::Pi(domain, codomain) => {
            write(out, b"(")?;
            write_shared(out, texts, domain)?;
            write(out, b" -> ")?;
            write_shared(out, texts, codomain)?;
            write(out, b")")
        }
        Node::Lam(domain, body) => {
            write(out, b"(\\")?;
            write_shared(out, texts, domain)?;
            write(out, b" . ")?;
            write_shared(out, texts, body)?;
            write(out, b")")
        }
        Node::App(function, argument) => {
            write_unless(out, is_function, b"(")?;
            write_function(out, texts, function)?;
            write(out, b" ")?;
            write_shared(out, texts, argument)?;
            write_unless(out, is_function, b")")
        }
        Node::Let(ty, value, rest) => {
            write(out, b"(let ")?;
            write_shared(out, texts, ty)?;
            write(out, b" = ")?;
            write_shared(out, texts, value)?;
            write(out, b" . ")?;
            write_shared(out, texts, rest)?;
            write(out, b")")
        }
        Node::Var(n) => write_leaf(out, texts, &Term::Var(n)),
        Node::Sort(i) => write_leaf(out, texts, &Term::Sort(i)),
        Node::Const(at) => write_leaf(out, texts, &Term::Const(at)),
        Node::Fam(at) => write_leaf(out, texts, &Term::Fam(at)),
        Node::Con(family, con) => write_leaf(out, texts, &Term::Con(family, con)),
        Node::Elim(family, level) => write_leaf(out, texts, &Term::Elim(family, level)),
        Node::AxiomK(i, level) => write_leaf(out, texts, &Term::AxiomK(i, level)),
    }
}

/// Writes a term without parts.
fn write_leaf(out: &mut Vec<u8>, texts: &Texts, t: &Term) -> Result<(), Stop>
    ensures ok { OnOk result (out.new.items ≡ out.old.items ++ term_text texts.now.sig.now (tree_of t.now)) }
    ensures memory { OnErr result (result ≡ Err Memory) }
{
    match print_term(texts.alloc, texts.sig, t) {
        Ok(text) => write(out, text.as_slice()),
        Err(_) => Err(Stop::Memory),
    }
}

/// Writes bytes, or nothing where they are left out.
fn write_unless(out: &mut Vec<u8>, left_out: bool, bytes: &[u8]) -> Result<(), Stop>
    ensures ok { OnOk result (out.new.items ≡ out.old.items ++ cond left_out [] bytes.now) }
    ensures memory { OnErr result (result ≡ Err Memory) }
{
    if left_out {
        return Ok(());
    }
    write(out, bytes)
}
