// Journals of format 1: a desk refuses them, and an upgrade makes them journals of format 2.
use super::crashes::EACH_UNSYNCED;
use super::journals::{ADDS, PUTS};
use super::runs::{DEMO, Ended, FORMAT_1, FORMAT_2, Run, journal};
use super::versions::{AT_TWO, VERSION, is_told_on};
use apron_base::Memory;
use journal_disk::Unsynced;
use std::alloc::Global;
use std::test::Fail;

// A journal of format 1 with the two entries: 132 bytes.
fn former_of_two(alloc: Global) -> Result<Vec<u8>, Memory> {
    journal(alloc, &DEMO, FORMAT_1, &[&[ADDS, PUTS]])
}

// The same in format 2: the old section stays, and the new one has the same entries, since their
// bytes are alike in both formats.
fn upgraded_of_two(alloc: Global) -> Result<Vec<u8>, Memory> {
    journal(alloc, &DEMO, FORMAT_2, &[&[ADDS, PUTS], &[ADDS, PUTS]])
}

// A run of these words on these bytes, with these calls of the disk failing. No byte of the input
// is taken.
fn ends_on<'a>(
    alloc: Global,
    words: &'a str,
    stored: &'a [u8],
    failing_calls: &'a [u64],
) -> Result<Ended, Memory> {
    let run = Run {
        words,
        is_new: false,
        stored,
        failing_calls,
        failing_reads: &[0],
        ..DEMO
    };
    run.ends(alloc)
}

const UPGRADE: &str = "upgrade A T";

const UPGRADED: &[u8] = b"upgraded 2\n";

const ALREADY: &[u8] = b"already format 2\n";

const OLD: &[u8] = b"journal: old format\n";

// The calls of an upgrade of two entries: three open the journal, three write the records and the
// gate, a sync makes them safe, and two write the format byte and make it safe.
const CALLS: usize = 9;

// A desk leaves a journal of format 1.
fn is_refused(alloc: Global) -> Result<bool, Memory> {
    let former = former_of_two(alloc)?;
    let ended = ends_on(alloc, "desk A T", &former, &[])?;
    Ok(former.len() == 132 && ended.is(OLD, 8) && ended.disk.bytes() == former.as_slice())
}

// An upgrade converts it.
fn is_converted(alloc: Global) -> Result<bool, Memory> {
    let former = former_of_two(alloc)?;
    let wanted = upgraded_of_two(alloc)?;
    let ended = ends_on(alloc, UPGRADE, &former, &[])?;
    Ok(
        wanted.len() == 192
            && ended.is(UPGRADED, 0)
            && ended.disk.bytes() == wanted.as_slice()
            && ended.disk.calls().len() == CALLS,
    )
}

// A second upgrade leaves it.
fn is_left(alloc: Global) -> Result<bool, Memory> {
    let wanted = upgraded_of_two(alloc)?;
    let ended = ends_on(alloc, UPGRADE, &wanted, &[])?;
    Ok(ended.is(ALREADY, 0) && ended.disk.bytes() == wanted.as_slice())
}

#[test]
fn a_journal_of_format_1_is_refused_until_it_is_upgraded(rt: HostRuntime) -> Result<(), Fail> {
    let steps = [
        is_refused(rt.alloc())?,
        is_converted(rt.alloc())?,
        is_left(rt.alloc())?,
    ];
    assert_eq!(rt; steps, [true; 3]);
    Ok(())
}

#[test]
fn an_upgraded_journal_has_its_entries(rt: HostRuntime) -> Result<(), Fail> {
    let upgraded = upgraded_of_two(rt.alloc())?;
    let has_two = is_told_on(rt.alloc(), &upgraded, VERSION, AT_TWO)?;
    assert!(rt; has_two);
    Ok(())
}

// On this image an upgrade succeeds, and the entries are then the converted ones.
fn succeeds(alloc: Global, image: &[u8], wanted: &[u8]) -> Result<bool, Memory> {
    let ended = ends_on(alloc, UPGRADE, image, &[])?;
    let is_told = ended.is(UPGRADED, 0) || ended.is(ALREADY, 0);
    Ok(is_told && ended.disk.bytes().starts_with(wanted))
}

// What becomes of what is not safe, if an upgrade after a stop of another at this moment does not
// succeed.
fn stops_at(alloc: Global, moment: usize) -> Result<Option<Unsynced>, Memory> {
    let former = former_of_two(alloc)?;
    let wanted = upgraded_of_two(alloc)?;
    let ended = ends_on(alloc, UPGRADE, &former, &[])?;
    for unsynced in EACH_UNSYNCED {
        let image = ended.disk.image(alloc, moment, unsynced)?;
        if !succeeds(alloc, &image, &wanted)? {
            return Ok(Some(unsynced));
        }
    }
    Ok(None)
}

#[test]
fn an_upgrade_after_a_stop_succeeds(rt: HostRuntime) -> Result<(), Fail> {
    for moment in 0..=CALLS {
        let stops = stops_at(rt.alloc(), moment)?;
        assert_eq!(rt; stops, None, "{moment}");
    }
    Ok(())
}

// Whether an upgrade of which this call of the disk fails says so, and the next one succeeds.
fn fails_once(alloc: Global, call: u64) -> Result<bool, Memory> {
    let former = former_of_two(alloc)?;
    let wanted = upgraded_of_two(alloc)?;
    let ended = ends_on(alloc, UPGRADE, &former, &[call])?;
    let again = succeeds(alloc, ended.disk.bytes(), &wanted)?;
    Ok(again && ended.is(b"disk fault\n", 7))
}

#[test]
fn each_call_of_an_upgrade_fails(rt: HostRuntime) -> Result<(), Fail> {
    for call in 0..CALLS as u64 {
        let holds = fails_once(rt.alloc(), call)?;
        assert!(rt; holds, "{call}");
    }
    Ok(())
}
