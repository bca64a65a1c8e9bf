// Why calls of the system failed, as standard error says it.

ghost use Rattle.std.specs.Prelude.{◌≡◌, Some, not};
ghost use Rattle.std.specs.IoError.{error_kind};
ghost use Rattle.system_files.specs.Causes.{is_said, is_signal, news, number_of, said_after};

use std::io;

/// Says why a call failed, in a line of its own: `apron: NAME: CAUSE`, the cause in the system's
/// words.
pub fn report_cause<R: Eprint>(rt: &R, name: &str, cause: &io::Error) {
    // If standard error fails too, there is no other place to say it.
    let _ = eprintln!(rt; "apron: {name}: {cause}");
}

/// Says why a call failed, as `report_cause`, and what that means: `apron: NAME: CAUSE; MEANING`.
pub fn report_meaning<R: Eprint>(rt: &R, name: &str, cause: &io::Error, meaning: &str) {
    // If standard error fails too, there is no other place to say it.
    let _ = eprintln!(rt; "apron: {name}: {cause}; {meaning}");
}

/// The last cause reported for one kind of call, until a call of that kind succeeds.
#[derive(Clone, Copy)]
pub(crate) struct LastCause {
    said: Option<i32>,
}

impl LastCause {
    /// Nothing was reported yet.
    pub(crate) const NONE: LastCause = LastCause { said: None };

    /// Takes in how a call went, and says why it failed, unless that was said already. A call that
    /// a signal interrupted is made again, and is no fault.
    pub(crate) fn hear<R: Eprint, T>(&mut self, rt: &R, name: &str, answer: &io::Result<T>) {
        if let Some(cause) = self.news_of(answer) {
            report_cause(rt, name, &cause);
        }
    }

    /// The same of a call that writes or syncs. If it failed for another cause than room, it also
    /// says what that means.
    pub(crate) fn hear_change<R: Eprint>(
        &mut self,
        rt: &R,
        name: &str,
        answer: &io::Result<()>,
        meaning: &str,
    ) {
        match self.news_of(answer) {
            Some(cause) if wants_room(&cause) => report_cause(rt, name, &cause),
            Some(cause) => report_meaning(rt, name, &cause, meaning),
            None => {}
        }
    }

    // The cause of a failed call, if it was not reported yet.
    fn news_of<T>(&mut self, answer: &io::Result<T>) -> Option<io::Error>
        ensures news { result ≡ news self.old.said answer.now }
        ensures said { self.new.said ≡ said_after self.old.said answer.now }
    {
        match answer {
            Ok(_) => {
                self.said = None;
                None
            }
            Err(cause) if is_signal(cause.kind()) => None,
            Err(cause) => {
                if self.is_news(os_error_number(cause)) {
                    Some(*cause)
                } else {
                    None
                }
            }
        }
    }

    // Whether this cause differs from the one that was reported last; if so, it is the last one
    // from now on.
    fn is_news(&mut self, cause: i32) -> bool
        ensures news { result ≡ not (is_said self.old.said cause) }
        ensures said { self.new.said ≡ Some cause }
    {
        let is_news = self.said != Some(cause);
        self.said = Some(cause);
        is_news
    }
}

// Whether a signal came meanwhile.
fn is_signal(kind: io::ErrorKind) -> bool
    ensures { result ≡ is_signal kind }
{
    matches!(kind, io::ErrorKind::Interrupted)
}

// Whether room is wanting: on the disk, in the user's share of it, or below a limit on files.
fn wants_room(cause: &io::Error) -> bool {
    cause.kind() == io::ErrorKind::StorageFull
        || cause.kind() == io::ErrorKind::QuotaExceeded
        || cause.kind() == io::ErrorKind::FileTooLarge
}

// The system's number of a cause; 0 if it is not the system's.
fn os_error_number(cause: &io::Error) -> i32
    ensures { result ≡ number_of cause.now }
{
    cause.raw_os_error().unwrap_or(0)
}
