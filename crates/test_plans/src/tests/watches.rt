// Watches and feeds over notes.
ghost use Rattle.std.specs.Prelude.{◌≡◌, Bool};
ghost use Rattle.watch_list.specs.declared.note.Note.{Note};

mod cases;

use apron_base::{Memory, Name};
use cases::{ALL, BY_A_MESSAGE, BY_A_REPORT, Bumped, FEEDS, Fed, note};
use std::alloc::Global;
use std::test::Fail;
use watch_list::{Note, NoteTest, Shown, Stated, TestBy, Watch, WatchFault, Watches, feed};

fn are_notes(notes: &[Note], expected: &[Bumped]) -> bool {
    if notes.len() != expected.len() {
        return false;
    }
    for (found, bumped) in notes.iter().zip(expected) {
        if *found != note(bumped) {
            return false;
        }
    }
    true
}

// What a watch is fed with after an entry, by this test.
fn fed_by<R: Stated + Drop, T: NoteTest + Drop>(
    alloc: Global,
    notes: &[Note],
    stated: R,
    test: T,
    after: u32,
) -> Result<Vec<Note>, Memory>
    requires callable { T.can_test test }
    requires answers { (note : Note) (answer : Bool)
        → T.answers test note answer → answer ≡ R.tells stated note }
{
    let watch = Watch::new(Name::literal(b"W"), stated, test);
    feed(alloc, notes, &watch, after)
}

// Whether a watch is fed with these notes, by a closure.
fn is_fed(alloc: Global, notes: &[Note], fed: &Fed) -> Result<bool, Fail> {
    let (shown, after, expected) = *fed;
    let test = move |note: &Note| shown.shows(note);
    let found = fed_by(alloc, notes, shown, TestBy { test }, after)?;
    Ok(are_notes(found.as_slice(), expected))
}

// How many feeds in a row are as expected.
fn right_feeds(alloc: Global, notes: &[Note]) -> Result<usize, Fail> {
    for (place, fed) in FEEDS.iter().enumerate() {
        if !is_fed(alloc, notes, fed)? {
            return Ok(place);
        }
    }
    Ok(FEEDS.len())
}

#[test]
fn a_watch_is_fed_with_what_it_shows_after_an_entry(rt: HostRuntime) -> Result<(), Fail> {
    let notes = [note(&BY_A_MESSAGE), note(&BY_A_REPORT)];
    let right = right_feeds(rt.alloc(), &notes)?;
    assert_eq!(rt; right, FEEDS.len());
    Ok(())
}

// What comes of a watch of this name: whether it is added, or else found again.
fn is_added(watches: &mut Watches<Shown, Shown>, name: &[u8], fault: Option<WatchFault>) -> bool {
    let Some(name) = Name::new(name) else {
        return false;
    };
    let told = match watches.add(Watch::new(name, ALL, ALL)) {
        Ok(()) => None,
        Err((fault, _)) => Some(fault),
    };
    told == fault && watches.find(&name).is_some() == (fault != Some(WatchFault::Full))
}

#[test]
fn a_name_is_taken_once_and_sixteen_are_all(rt: HostRuntime) -> Result<(), Fail> {
    let mut watches = Watches::new(rt.alloc())?;
    for name in b'A'..=b'P' {
        let added = is_added(&mut watches, &[name], None);
        let again = is_added(&mut watches, &[name], Some(WatchFault::Taken));
        assert!(rt; added && again, "{name}");
    }
    let full = is_added(&mut watches, b"Q", Some(WatchFault::Full));
    let taken = is_added(&mut watches, b"A", Some(WatchFault::Taken));
    assert!(rt; full && taken);
    Ok(())
}
