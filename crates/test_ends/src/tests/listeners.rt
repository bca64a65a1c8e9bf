// Connections in memory.
use apron_base::{Finished, ListListener, Listener, Memory, NullSink, Outcome, SteadySource};
use std::alloc::Global;
use std::sync::Wait;
use std::test::Fail;

// A listener of two connections, whose second call fails.
fn two_connections(alloc: Global) -> Result<ListListener<SteadySource, NullSink>, Memory> {
    let one = SteadySource::new(Vec::from_slice(alloc, b"one")?, Vec::new(alloc));
    let two = SteadySource::new(Vec::from_slice(alloc, b"two")?, Vec::new(alloc));
    let to_come = Vec::from_array(alloc, [(one, NullSink), (two, NullSink)])?;
    let listener = ListListener::new(alloc, to_come, Vec::from_slice(alloc, &[1])?)?;
    Ok(listener)
}

// Accepts a connection and finishes it with this outcome; whether there was one.
fn is_finished<L: Listener, R: Wait>(rt: &R, listener: &mut L, outcome: Outcome) -> bool {
    match listener.accept(rt) {
        Ok((source, sink)) => {
            listener.finish(source, sink, outcome);
            true
        }
        Err(_) => false,
    }
}

// Whether the connections were finished with these outcomes.
fn have_outcomes(finished: &[Finished<SteadySource, NullSink>], want: &[Outcome]) -> bool {
    finished.len() == want.len()
        && finished
            .iter()
            .zip(want)
            .all(|(finished, want)| finished.outcome == *want)
}

// How each accepted connection ends, and whether one is accepted.
const CALLS: [(Outcome, bool); 4] = [
    (Outcome::Closed, true),
    (Outcome::Limit, false),
    (Outcome::Cut, true),
    (Outcome::Ended, false),
];

#[test]
fn connections_come_in_order_and_fail_as_told(rt: HostRuntime) -> Result<(), Fail> {
    let mut listener = two_connections(rt.alloc())?;
    for (outcome, want) in CALLS {
        let is_finished = is_finished(&rt, &mut listener, outcome);
        assert!(rt; is_finished == want, "{outcome:?}");
    }
    assert!(rt; have_outcomes(listener.finished(), &[Outcome::Closed, Outcome::Cut]));
    Ok(())
}
