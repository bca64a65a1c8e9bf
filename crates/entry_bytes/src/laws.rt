// What holds between entries and their bytes, for all of them. Each law is the contract of a
// function that does nothing.
ghost use Rattle.entry_bytes.specs.Entries.{entry_fields};
ghost use Rattle.entry_bytes.specs.Former.{former_fields};
ghost use Rattle.entry_bytes.specs.Laws.{EntriesDiffer, EntryIsShort, FaultIsOne, FormerEntriesDiffer};

/// No two entries of an airport have the same bytes, nor had they before messages and reports named
/// their desk.
pub fn entries_differ()
    ensures differ { EntriesDiffer }
    ensures former { FormerEntriesDiffer }
{}

/// Bytes have at most one first fault, and had before messages and reports named their desk.
pub fn faults_are_one()
    ensures one { FaultIsOne entry_fields }
    ensures former { FaultIsOne former_fields }
{}

/// An entry has at most 671 bytes.
pub fn entries_are_short()
    ensures short { EntryIsShort }
{}
