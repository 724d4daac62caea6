ghost use Rattle.core_text.specs.LineLaws.{EndsAreRead, LinesAreRead, NotesArePassedOver};
ghost use Rattle.core_text.specs.Lines.{LinesAreApart};
ghost use Rattle.core_text.specs.Places.{NestedPlacesAreReached, PlacesAreFirst};
ghost use Rattle.core_text.specs.ReadableNames.{NamesAreSpelled, NamesStayReadable, PreludeHasReadableNames};
ghost use Rattle.core_text.specs.ReadBack.{EntriesAreReadBack, TermsAreReadBack};
ghost use Rattle.core_text.specs.ReadLaws.{WhatIsRead};
ghost use Rattle.core_text.specs.SpelledLines.{SpelledLinesAreRead};
ghost use Rattle.core_text.specs.SurfaceNames.{SurfaceNamesAreReadable};
ghost use Rattle.core_text.specs.WrittenEntries.{EntriesThatFollow};

/// No line of an entry begins another.
pub fn lines_are_apart()
    ensures { LinesAreApart }
{}

/// An entry that is read has new names, and its terms are scoped and not too high.
pub fn what_is_read()
    ensures { WhatIsRead }
{}

/// A term that is written is read back, whatever follows that goes on with no name and no number.
pub fn terms_are_read_back()
    ensures { TermsAreReadBack }
{}

/// An entry that is written is read back over the entries before it, whatever follows, with the offset after its line.
pub fn entries_are_read_back()
    ensures { EntriesAreReadBack }
{}

/// The bytes that are read as an entry are the line of the entry, after lines that begin with `#`.
pub fn lines_are_read()
    ensures { LinesAreRead }
{}

/// Where names are readable, each symbol is looked up by its name, which ends before the bytes that follow.
pub fn names_are_spelled()
    ensures { NamesAreSpelled }
{}

/// Names stay readable with an entry more whose names are readable.
pub fn names_stay_readable()
    ensures { NamesStayReadable }
{}

/// Lines that begin with `#` are passed over.
pub fn notes_are_passed_over()
    ensures { NotesArePassedOver }
{}

/// No entry is left exactly where nothing but such lines follows.
pub fn ends_are_read()
    ensures { EndsAreRead }
{}

/// The names of the prelude are readable.
pub fn prelude_has_readable_names()
    ensures { PreludeHasReadableNames }
{}

/// An entry that may follow others is read back over them, where their names are readable.
pub fn entries_that_follow()
    ensures { EntriesThatFollow }
{}

/// A core file may declare each plain name of the surface text, and none of them holds a `!`.
pub fn surface_names_are_readable()
    ensures { SurfaceNamesAreReadable }
{}

/// The place of a refusal is the first byte with which no core file over the entries so far goes on.
pub fn places_are_first()
    ensures { PlacesAreFirst }
{}

/// A line that is spelled right is read, unless a term in it is too deep or too high, or it shows no record.
pub fn spelled_lines_are_read()
    ensures { SpelledLinesAreRead }
{}

/// A core file goes on with the bytes before the place at which a term is too deep or too high.
pub fn nested_places_are_reached()
    ensures { NestedPlacesAreReached }
{}
