// A journal that was just made can be opened.
ghost use Rattle.journal_disk.specs.Laws.{EmptyOpens};

/// A journal that was just made opens, and has no entry.
pub fn a_new_journal_opens()
    ensures opens { EmptyOpens }
{}
