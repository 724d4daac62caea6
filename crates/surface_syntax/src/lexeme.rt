use crate::tree::Word;

/// A token as the grammar sees it. `Level` is a number that is the level of a sort, and `Number` any other number. `End`
/// comes after the last token.
#[derive(Debug, Drop)]
pub enum Lexeme {
    Plain(Word),
    Dotted(Word),
    Level(u8),
    Number,
    Data,
    Def,
    Fun,
    With,
    Let,
    In,
    Type,
    Open,
    Close,
    OpenBrace,
    CloseBrace,
    Colon,
    Semicolon,
    Equals,
    Backslash,
    Arrow,
    Underscore,
    Dot,
    End,
}
