//! The words of a parsed source file, and how many parts its declarations have.
ghost use Rattle.surface_syntax.specs.word_laws.Laws.{PartsAreFew, PlainNamesAreShort, WordsAreSpelled};

/// Each word of a parsed declaration is the spelling of a name.
pub fn words_are_spelled()
    ensures { WordsAreSpelled }
{}

/// A plain name has at most 255 bytes, and is no keyword.
pub fn plain_names_are_short()
    ensures { PlainNamesAreShort }
{}

/// A declaration has no more parts than the file has bytes.
pub fn parts_are_few()
    ensures { PartsAreFew }
{}
