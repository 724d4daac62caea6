/// The kinds of tokens: plain names, dotted names, numbers, keywords and marks.
#[derive(Clone, Copy, Debug, PartialEq, Eq)]
pub enum TokenKind {
    Plain,
    Dotted,
    Number,
    Keyword,
    Mark,
}

/// A token of a source file, by the offsets in bytes at which it begins and after which it ends.
#[derive(Clone, Copy, Debug, PartialEq, Eq)]
pub struct Token {
    pub kind: TokenKind,
    pub start: u32,
    pub end: u32,
}

/// The front of a text, by its number of characters: a blank or a comment, or a token. `Bad` is none of them, or a token over its
/// limit.
#[derive(Clone, Copy, Debug, PartialEq, Eq)]
pub enum Piece {
    Gap(usize),
    Found(TokenKind, usize),
    Bad,
}
