//! The surface language: the tokens of a source file, and the declarations that they spell.
#![tactic(auto)]

mod awaiting;
mod building;
mod clauses;
mod closing;
mod context;
mod declarations;
mod due;
mod endings;
mod halt;
mod laws;
mod lexeme;
mod lexemes;
mod lexer;
mod onward;
mod parser;
mod spans;
mod state;
mod stop;
mod terms;
mod token;
mod tree;
pub mod word_laws;

pub use laws::{
    finds_nothing_else, finds_the_longest, goes_too_deep_with_the_grammar,
    goes_wrong_with_the_grammar, has_one_reading, nested_comes_first, nested_in_a_text,
    passes_over_gaps, reads_the_grammar, splits_by_spellings, splits_in_one_way, tokens_are_slices,
};
pub use lexeme::Lexeme;
pub use lexer::piece;
pub use parser::parse;
pub use spans::tokens;
pub use stop::SyntaxStop;
pub use token::{Piece, Token, TokenKind};
pub use tree::{
    Binder, Decl, Surf, SurfClause, SurfCon, SurfMember, SurfParam, SurfPat, SurfRight, Word,
};
