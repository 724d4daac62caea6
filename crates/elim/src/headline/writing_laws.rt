//! The signature after accepted declarations can be written in a core file: names are plain, and no shown term is too
//! high.
ghost use Rattle.elim.specs.headline.writing_laws.Writing.{AcceptedIsWritable, EntriesStayLow, TextIsOrdinary};

/// Whatever is accepted is low enough for a core file.
pub fn entries_stay_low()
    ensures { EntriesStayLow }
{}

/// The signature after the accepted declarations of a source file can be written in a core file.
pub fn accepted_is_writable()
    ensures { AcceptedIsWritable }
{}

/// Each declaration of a source file is ordinary: its names are plain ones, and it has few parameters and parts.
pub fn text_is_ordinary()
    ensures { TextIsOrdinary }
{}
