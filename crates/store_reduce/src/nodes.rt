ghost use Rattle.std.specs.Prelude.{◌≡◌, ◌&&◌, IsTrue, IfSome, Some, is_some, option_map};
ghost use Rattle.theory.specs.Terms as tree;
ghost use Rattle.store_reduce.specs.Formers.{are_same, form_of, former_of, is_product, leaves_same, sort_of, sorts_below};

use crate::form::{Former, Pair, Pairs, Products};
use term_pool::{Node, TermStore};

/// The form and the children of a product, a function or an application.
pub(crate) fn pair_in<S: TermStore>(store: &S, t: S::Id) -> Option<Pair<S::Id>>
    requires { IsTrue ((S.held store.now).live t) }
    ensures is { IfSome result (λ p. (S.held store.now).tree t ≡ form_of p.former ((S.held store.now).tree p.first) ((S.held store.now).tree p.second)) }
    ensures first { IfSome result (λ p. IsTrue ((S.held store.now).live p.first)) }
    ensures second { IfSome result (λ p. IsTrue ((S.held store.now).live p.second)) }
    ensures former { option_map (λ p. p.former) result ≡ former_of ((S.held store.now).tree t) }
{
    match store.look(&t) {
        Node::Pi(a, b) => Some(Pair {
            former: Former::Pi,
            first: a,
            second: b,
        }),
        Node::Lam(a, b) => Some(Pair {
            former: Former::Lam,
            first: a,
            second: b,
        }),
        Node::App(a, b) => Some(Pair {
            former: Former::App,
            first: a,
            second: b,
        }),
        _ => None,
    }
}

/// Whether the forms are the same.
fn same_former(f: Former, g: Former) -> bool
    ensures same { IsTrue result → g ≡ f }
    ensures are { result ≡ are_same (Some f) (Some g) }
{
    match (f, g) {
        (Former::Pi, Former::Pi) => true,
        (Former::Lam, Former::Lam) => true,
        (Former::App, Former::App) => true,
        _ => false,
    }
}

/// The children of two terms of the same form.
pub(crate) fn pairs_in<S: TermStore>(store: &S, a: S::Id, b: S::Id) -> Option<Pairs<S::Id>>
    requires a { IsTrue ((S.held store.now).live a) }
    requires b { IsTrue ((S.held store.now).live b) }
    ensures first { IfSome result (λ p. (S.held store.now).tree a ≡ form_of p.former ((S.held store.now).tree p.a) ((S.held store.now).tree p.b)) }
    ensures second { IfSome result (λ p. (S.held store.now).tree b ≡ form_of p.former ((S.held store.now).tree p.c) ((S.held store.now).tree p.d)) }
    ensures a_live { IfSome result (λ p. IsTrue ((S.held store.now).live p.a)) }
    ensures b_live { IfSome result (λ p. IsTrue ((S.held store.now).live p.b)) }
    ensures c_live { IfSome result (λ p. IsTrue ((S.held store.now).live p.c)) }
    ensures d_live { IfSome result (λ p. IsTrue ((S.held store.now).live p.d)) }
    ensures are { is_some result ≡ are_same (former_of ((S.held store.now).tree a)) (former_of ((S.held store.now).tree b)) }
{
    match (pair_in(store, a), pair_in(store, b)) {
        (Some(p), Some(q)) => {
            if same_former(p.former, q.former) {
                Some(Pairs {
                    former: p.former,
                    a: p.first,
                    b: p.second,
                    c: q.first,
                    d: q.second,
                })
            } else {
                None
            }
        }
        _ => None,
    }
}

/// Whether two terms are the same variable, sort or symbol, where constants are not compared.
pub(crate) fn leaves_same_in<S: TermStore>(store: &S, a: S::Id, b: S::Id) -> bool
    requires a { IsTrue ((S.held store.now).live a) }
    requires b { IsTrue ((S.held store.now).live b) }
    ensures { result ≡ leaves_same ((S.held store.now).tree a) ((S.held store.now).tree b) }
{
    match (store.look(&a), store.look(&b)) {
        (Node::Var(n), Node::Var(m)) => n == m,
        (Node::Sort(i), Node::Sort(j)) => i == j,
        (Node::Fam(f), Node::Fam(g)) => f == g,
        (Node::Con(f, c), Node::Con(g, d)) => f == g && c == d,
        (Node::Elim(f, m), Node::Elim(g, n)) => f == g && m == n,
        (Node::AxiomK(i, m), Node::AxiomK(j, n)) => i == j && m == n,
        _ => false,
    }
}

/// The level of a sort.
fn sort_in<S: TermStore>(store: &S, t: S::Id) -> Option<u8>
    requires { IsTrue ((S.held store.now).live t) }
    ensures { result ≡ sort_of ((S.held store.now).tree t) }
{
    match store.look(&t) {
        Node::Sort(i) => Some(i),
        _ => None,
    }
}

/// Of two sorts, whether the first one is at most the second one.
pub(crate) fn sorts_below_in<S: TermStore>(store: &S, a: S::Id, b: S::Id) -> Option<bool>
    requires a { IsTrue ((S.held store.now).live a) }
    requires b { IsTrue ((S.held store.now).live b) }
    ensures { result ≡ sorts_below ((S.held store.now).tree a) ((S.held store.now).tree b) }
{
    match (sort_in(store, a), sort_in(store, b)) {
        (Some(i), Some(j)) => Some(i <= j),
        _ => None,
    }
}

/// The children of a product.
fn product_in<S: TermStore>(store: &S, t: S::Id) -> Option<(S::Id, S::Id)>
    requires { IsTrue ((S.held store.now).live t) }
    ensures is { IfSome result (λ p. (S.held store.now).tree t ≡ tree.Pi ((S.held store.now).tree p.0) ((S.held store.now).tree p.1)) }
    ensures first { IfSome result (λ p. IsTrue ((S.held store.now).live p.0)) }
    ensures second { IfSome result (λ p. IsTrue ((S.held store.now).live p.1)) }
    ensures product { is_some result ≡ is_product ((S.held store.now).tree t) }
{
    match store.look(&t) {
        Node::Pi(a, b) => Some((a, b)),
        _ => None,
    }
}

/// The children of two products.
pub(crate) fn products_in<S: TermStore>(store: &S, a: S::Id, b: S::Id) -> Option<Products<S::Id>>
    requires a { IsTrue ((S.held store.now).live a) }
    requires b { IsTrue ((S.held store.now).live b) }
    ensures first { IfSome result (λ p. (S.held store.now).tree a ≡ tree.Pi ((S.held store.now).tree p.a) ((S.held store.now).tree p.b)) }
    ensures second { IfSome result (λ p. (S.held store.now).tree b ≡ tree.Pi ((S.held store.now).tree p.c) ((S.held store.now).tree p.d)) }
    ensures a_live { IfSome result (λ p. IsTrue ((S.held store.now).live p.a)) }
    ensures b_live { IfSome result (λ p. IsTrue ((S.held store.now).live p.b)) }
    ensures c_live { IfSome result (λ p. IsTrue ((S.held store.now).live p.c)) }
    ensures d_live { IfSome result (λ p. IsTrue ((S.held store.now).live p.d)) }
    ensures are { is_some result ≡ (is_product ((S.held store.now).tree a) && is_product ((S.held store.now).tree b)) }
{
    match (product_in(store, a), product_in(store, b)) {
        (Some((a, b)), Some((c, d))) => Some(Products { a, b, c, d }),
        _ => None,
    }
}
