use crate::characters::char_len;
use crate::matter::{Matter, number, simple};
use crate::page::Page;
use crate::places::Spot;
use crate::source::{part, token_at};

fn spot_of_character(m: &Matter<'_>, at: usize) -> Spot {
    Spot {
        from: at,
        to: at.saturating_add(char_len(m.s.bytes, at)),
    }
}

pub fn too_long(page: &mut Page, m: &Matter<'_>) {
    let at = number(m, 3);
    let advice = "divide it into files, each with the declarations that it uses.";
    simple(
        page,
        m,
        spot_of_character(m, at),
        "the file is longer than 1048576 bytes",
        advice,
    );
}

pub fn not_utf8(page: &mut Page, m: &Matter<'_>) {
    let at = number(m, 3);
    simple(
        page,
        m,
        spot_of_character(m, at),
        "no character of UTF-8 begins here",
        "save the file as UTF-8.",
    );
}

/// Signs of other languages, and what is written in their place.
const SIGNS: [(&str, &str); 26] = [
    ("→", "write `->` for an arrow."),
    ("∀", "write `(x : A) -> ..` for all x of A."),
    ("≡", "write `Eq.0 A x y` for the equation of x and y."),
    (
        "?",
        "there are no holes: write `Empty` here, and the refusal shows the type that is wanted.",
    ),
    (
        ",",
        "there is no comma: write a pair as `pair.0 A B x y`, and one `with` inside the other.",
    ),
    (
        "|",
        "write `;` between two clauses and between two constructors.",
    ),
    (
        "\"",
        "there are no texts: declare a family for what is meant.",
    ),
    (
        "[",
        "there are no lists in brackets: write `cons A x (nil A)`.",
    ),
    (
        "]",
        "there are no lists in brackets: write `cons A x (nil A)`.",
    ),
    ("->", "write a term before the arrow."),
    (
        "-",
        "write `->` for an arrow and `--` before a comment; there are no operators: write `minus m n`.",
    ),
    (
        ">",
        "write `->` for an arrow; there are no operators: write a name before its arguments, as `less m n`.",
    ),
    (
        "+",
        "there are no operators: write a name before its arguments, as `plus m n`.",
    ),
    (
        "*",
        "there are no operators: write a name before its arguments, as `times m n`.",
    ),
    (
        "/",
        "there are no operators, and a comment begins with `--`.",
    ),
    ("#", "a comment begins with `--`."),
    ("%", "variables have names here: write the name."),
    (
        "!",
        "names with `!` are generated and have no place in a source file: declare what is meant.",
    ),
    (
        "0",
        "a number has at most three digits, and is the level of a sort; write three as `suc (suc (suc zero))`.",
    ),
    (
        "1",
        "a number has at most three digits, and is the level of a sort; write three as `suc (suc (suc zero))`.",
    ),
    (
        "2",
        "a number has at most three digits, and is the level of a sort; write three as `suc (suc (suc zero))`.",
    ),
    (
        "3",
        "a number has at most three digits, and is the level of a sort; write three as `suc (suc (suc zero))`.",
    ),
    (
        "<",
        "there are no operators: write a name before its arguments, as `less m n`.",
    ),
    (
        "&",
        "there are no operators: write a name before its arguments, as `and a b`.",
    ),
    (
        "@",
        "write the name alone, and the pattern in the place of another variable.",
    ),
    ("×", "write `Pair.0 A B` for the type of pairs."),
];

fn is_digit(byte: u8) -> bool {
    byte.is_ascii_digit()
}

fn advice_for(front: &[u8]) -> &'static str {
    for (sign, advice) in SIGNS.iter() {
        if front.starts_with(sign.as_bytes()) {
            return advice;
        }
    }
    let first = front.first().copied().unwrap_or(0);
    if is_digit(first) {
        "a number has at most three digits, and is the level of a sort; write three as `suc (suc (suc zero))`."
    } else if first.is_ascii_alphabetic() || first == b'_' {
        "a name has at most 255 bytes, and a level behind it at most two digits, as `Eq.0`."
    } else if first >= 0x80 {
        "a name begins with a letter, and there are no other signs than ( ) { } : ; = \\ -> _ and the dot."
    } else {
        "leave it out: the signs are ( ) { } : ; = \\ -> _ and the dot, and a comment begins with `--`."
    }
}

pub fn bad_token(page: &mut Page, m: &Matter<'_>) {
    let at = number(m, 3);
    let front = part(m.s.bytes, at, m.s.bytes.len());
    let first = front.first().copied().unwrap_or(0);
    let is_word = first.is_ascii_alphanumeric() || first == b'_';
    let message = if is_word {
        "this is too long for a name or a number"
    } else {
        "no word of the language begins with this sign"
    };
    simple(
        page,
        m,
        spot_of_character(m, at),
        message,
        advice_for(front),
    );
}

pub fn nested(page: &mut Page, m: &Matter<'_>) {
    let at = number(m, 3);
    let token = token_at(m.s, at);
    let spot = Spot {
        from: at,
        to: crate::source::end_of(m.s, token),
    };
    let advice = "give parts of it names of their own, by definitions before this one.";
    simple(
        page,
        m,
        spot,
        "more than 2000 terms, patterns or clauses are inside one another here",
        advice,
    );
}
