// What standard error adds to a fault of a journal: its path, and what to do.

use crate::front::Front;
use apron_base::Word;
use apron_run::Status;

/// Says what is wrong with the journal of the last word, and what to do, if the status is that of a
/// journal's fault.
pub(crate) fn tell_journal_fault<R: Eprint>(rt: &R, words: &[Word], status: u8, front: &Front) {
    let Some(journal) = words.last() else {
        return;
    };
    let journal = journal.text();
    // If standard error fails too, only the line on standard output says it.
    let _ = match advice_for(status, front) {
        Some(advice) => eprintln!(rt; "apron: {journal}: {advice}"),
        None => Ok(()),
    };
}

// What is wrong, and what to do; `None` for what is no fault of a journal.
fn advice_for(status: u8, front: &Front) -> Option<&'static str> {
    if status == Status::NotEmpty.code() {
        return Some(
            "this file has bytes, and was left as it is; give another path, or move it away",
        );
    }
    if status != Status::JournalFault.code() {
        return None;
    }
    for (begin, advice) in ADVICE {
        if front.begins_with(begin.as_bytes()) {
            return Some(advice);
        }
    }
    None
}

// How the line on standard output begins, and what is said of it.
const ADVICE: [(&str, &str); 5] = [
    (
        "journal: not a journal",
        "not a journal: give the path of one, or make one with apron init, which takes an empty file",
    ),
    (
        "journal: other airport",
        "the journal of other files: start with the airport file and the type file that it was made with (sha256sum)",
    ),
    (
        "journal: old format",
        "a journal of format 1: copy it, and convert it with apron upgrade",
    ),
    (
        "journal: record",
        "cut short or damaged there: copy the file, and start again once; then scripts/salvage keeps what is whole, or take the latest back-up that opens",
    ),
    (
        "journal: entry",
        "not written so by this apron with these files: copy the file, and take the latest back-up that opens",
    ),
];
