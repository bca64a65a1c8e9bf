// What is written is read back. The law is the contract of a function that does nothing.
ghost use Rattle.season_files.specs.Laws.{SeasonIsReadBack};

/// The season file of visits of an airport is read as the data that the uncancelled ones were added
/// with.
pub fn seasons_are_read_back()
    ensures read { SeasonIsReadBack }
{}
