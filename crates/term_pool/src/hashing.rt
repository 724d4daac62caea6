//! How nodes and the keys of tables are hashed: by one word, with one multiplication.
ghost use Rattle.std.specs.Prelude.{◌≡◌, fold};
ghost use Rattle.std.proofs.Common.{rules};
ghost use Rattle.std.specs.Cmp.Rules.{hashing};
ghost use Rattle.std.specs.Hash as fed;
ghost use Rattle.term_pool.specs.Hashing as hashed;

use crate::{Id, Node};
use std::hash::{BuildHasherDefault, Hash, Hasher};

const MULTIPLIER: u64 = 0x9e37_79b9_7f4a_7c15;

/// A hasher of words, each of which takes one multiplication.
#[derive(Clone, Copy)]
pub struct WordHasher {
    state: u64,
}

/// What makes the hasher for each key.
pub(crate) type ByWord = BuildHasherDefault<WordHasher>;

/// Hashing by words.
pub(crate) fn by_word() -> ByWord {
    BuildHasherDefault::new()
}

impl Default for WordHasher {
    ghost is_default = { λ h. h.state ≡ 0x243f_6a88_85a3_08d3 };

    fn default() -> WordHasher {
        WordHasher {
            state: 0x243f_6a88_85a3_08d3,
        }
    }
}

impl Hasher for WordHasher {
    ghost write = { hashed.write };

    ghost finish = { λ h. h.state };

    #[inline(always)]
    fn finish(&self) -> u64 {
        self.state
    }

    #[inline(always)]
    fn write(&mut self, bytes: &[u8]) {
        self.state = step(self.state, word_of_bytes(bytes));
    }
}

/// Eight bytes as one word, the lowest first. Nothing else is hashed here; other bytes are taken as they come.
#[inline(always)]
fn word_of_bytes(bytes: &[u8]) -> u64
    ensures { result ≡ hashed.word_of_bytes bytes.now }
{
    if bytes.len() == 8 {
        return u64::from_le_bytes([
            bytes[0], bytes[1], bytes[2], bytes[3], bytes[4], bytes[5], bytes[6], bytes[7],
        ]);
    }
    folded(bytes)
}

/// Bytes as a word, by their remainder.
fn folded(bytes: &[u8]) -> u64
    ensures { result ≡ fold hashed.byte_step 0 bytes.now }
{
    let mut word: u64 = 0;
    for b in bytes {
        word = word.wrapping_mul(256).wrapping_add(*b as u64);
    }
    word
}

/// The state after a word.
#[inline(always)]
fn step(state: u64, word: u64) -> u64
    ensures { result ≡ hashed.step state word }
{
    halves(state ^ word, MULTIPLIER)
}

/// The two halves of a product, joined.
#[inline(always)]
fn halves(a: u64, b: u64) -> u64
    ensures { result ≡ hashed.halves a b }
{
    let product = a as u128 * b as u128;
    (product & 0xFFFF_FFFF_FFFF_FFFF) as u64 ^ (product >> 64) as u64
}

/// One word of two numbers. Different pairs of numbers that fit 32 bits have different words.
pub(crate) fn word(first: u64, second: u64) -> u64
    ensures { result ≡ hashed.word first second }
{
    first.wrapping_mul(0x1_0000_0000).wrapping_add(second)
}

/// One word of a node, as different as may be for different nodes.
fn word_of(node: &Node<Id>) -> u64
    ensures { result ≡ hashed.word_of node.now }
{
    match node {
        Node::Var(n) => *n as u64,
        Node::Sort(i) => word(268435456, *i as u64),
        Node::Pi(a, b) => word(134217728 + a.at as u64, b.at as u64),
        Node::Lam(a, b) => word(201326592 + a.at as u64, b.at as u64),
        Node::App(f, a) => word(268435456 + f.at as u64, a.at as u64),
        Node::Let(t, v, b) => word(
            335544320 + t.at as u64,
            word(v.at as u64, 0)
                .wrapping_mul(31)
                .wrapping_add(b.at as u64),
        ),
        Node::Const(n) => word(1610612736, *n as u64),
        Node::Fam(n) => word(1879048192, *n as u64),
        Node::Con(n, c) => word(536870912 + *n as u64, *c as u64),
        Node::Elim(n, m) => word(603979776 + *n as u64, *m as u64),
        Node::AxiomK(i, m) => word(671088640 + *i as u64, *m as u64),
    }
}

impl Hash for Node<Id> {
    ghost hash_input = { λ n. fed.u64 (hashed.word_of n) };

    ghost respects_eq = { Prim.search (hashing, rules) };

    fn hash<H: Hasher>(&self, state: &mut H) {
        state.write_u64(word_of(self));
    }
}
