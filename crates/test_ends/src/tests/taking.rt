// Accepts that fail, and are tried again.
use std::io;
use std::sync::Wait;
use tcp_desks::{Doorway, Reporter, take_next};

// The failure with this number of the system.
fn failure(number: i32) -> io::Error {
    io::Error::from_raw_os_error(number)
}

const EINTR: i32 = 4;

const EBADF: i32 = 9;

const ENOMEM: i32 = 12;

const EINVAL: i32 = 22;

const ENFILE: i32 = 23;

const EMFILE: i32 = 24;

const ECONNABORTED: i32 = 103;

const ENOBUFS: i32 = 105;

const EHOSTUNREACH: i32 = 113;

// A doorway with these failures to come. Then there is a connection.
#[derive(Drop)]
struct LateDoorway<'a> {
    causes: &'a [io::Error],
}

impl<'a> Doorway for LateDoorway<'a> {
    ghost use Rattle.std.specs.Prelude.{Some};

    type Ends = ();

    ghost failures = { λ d. Some d.causes.now };

    fn take(&mut self) -> io::Result<()> {
        let Some((first, rest)) = self.causes.split_first() else {
            return Ok(());
        };
        self.causes = rest;
        Err(*first)
    }
}

// What was reported: the causes for which it waited, and how often a connection was taken again.
#[derive(Clone, Copy)]
struct Reported {
    last: Option<i32>,
    waited: u32,
    taken_again: u32,
}

impl Reporter for Reported {
    ghost use Rattle.std.specs.Prelude.{None};

    ghost reported = { λ _. None };

    fn report_waiting(&mut self, cause: &io::Error) {
        self.last = cause.raw_os_error();
        self.waited = self.waited.saturating_add(1);
    }

    fn taken_again(&mut self) {
        self.taken_again = self.taken_again.saturating_add(1);
    }
}

// The number of the cause for which none was taken after these failures, and what was reported.
fn after<R: Wait>(rt: &R, causes: &[io::Error]) -> (Option<i32>, Reported) {
    let mut reported = Reported {
        last: None,
        waited: 0,
        taken_again: 0,
    };
    let failed = match take_next(rt, &mut LateDoorway { causes }, &mut reported) {
        Ok(()) => None,
        Err(cause) => cause.raw_os_error(),
    };
    (failed, reported)
}

// Whether a connection is taken after these failures, with one line for the first of them and one
// for the end.
fn is_taken_again<R: Wait>(rt: &R, causes: &[io::Error]) -> bool {
    let (failed, reported) = after(rt, causes);
    let first = causes.first().and_then(io::Error::raw_os_error);
    failed.is_none() && reported.last == first && reported.waited == 1 && reported.taken_again == 1
}

#[test]
fn an_accept_that_fails_once_is_tried_again(rt: HostRuntime) {
    let causes = [EMFILE, ENFILE, ENOBUFS, ENOMEM, ECONNABORTED, EHOSTUNREACH];
    for cause in causes {
        assert!(rt; is_taken_again(&rt, &[failure(cause)]));
    }
}

#[test]
fn of_a_row_of_failures_the_first_and_the_end_are_reported(rt: HostRuntime) {
    let row = [EMFILE, EMFILE, ENFILE, EINTR, ECONNABORTED].map(failure);
    assert!(rt; is_taken_again(&rt, &row));
}

// Whether nothing is reported of these failures. The last has this number if it ends the worker.
fn is_silent<R: Wait>(rt: &R, causes: &[io::Error], last: Option<i32>) -> bool {
    let (failed, reported) = after(rt, causes);
    failed == last && reported.waited == 0 && reported.taken_again == 0
}

#[test]
fn without_a_failure_and_at_a_signal_nothing_is_reported(rt: HostRuntime) {
    assert!(rt; is_silent(&rt, &[], None));
    assert!(rt; is_silent(&rt, &[failure(EINTR), failure(EINTR)], None));
}

#[test]
fn another_cause_is_not_tried_again(rt: HostRuntime) {
    for cause in [EBADF, EINVAL] {
        assert!(rt; is_silent(&rt, &[failure(cause)], Some(cause)));
        let (failed, reported) = after(&rt, &[failure(EMFILE), failure(cause)]);
        assert!(rt; failed == Some(cause) && reported.waited == 1 && reported.taken_again == 0);
    }
}
