//! Laws of the definitions: functions that do nothing, each with its law as its contract.

ghost use Rattle.soup_file.specs.Laws.{OneCreatureIsGrown, SoupFilesAreClear};

/// Does nothing: its contract is the law that bytes have at most one setup and at most one fault, and never both.
pub fn soup_files_are_clear()
    ensures { SoupFilesAreClear }
{}

/// Does nothing: its contract is the law that a file with only one creature, at 0, has the setup that `grow` makes.
pub fn one_creature_is_grown()
    ensures { OneCreatureIsGrown }
{}
