// Two screens in threads of their own, beside a thread that shows.
use super::demo;
use super::stage::Stage;
use screen_feed::{Screen, Sheet};
use std::alloc::Global;
use std::sync::Wait;
use std::test::Fail;
use std::thread::{Threads, join};

// How many plans are shown.
const VERSIONS: u32 = 200;

// How often a screen looks at most, before it sees the last one.
const LOOKS: u32 = 1_000_000;

// Whether each plan is shown.
fn is_each_shown<R: Wait>(rt: &R, alloc: Global, stage: &mut Stage<'_>) -> bool {
    for number in 0..VERSIONS {
        if !stage.add(alloc, number) || !stage.show(rt, alloc) {
            return false;
        }
    }
    true
}

// Whether the first line of the text tells the sheet's version.
fn is_of_its_version(sheet: &Sheet) -> bool {
    let text = sheet.text();
    let Some(rest) = text.strip_prefix(b"STAND CHART APR 2026-03-27 VERSION ") else {
        return false;
    };
    let mut number = 0u32;
    for byte in rest {
        if *byte == b'\n' {
            return number == sheet.version();
        }
        number = number
            .wrapping_mul(10)
            .wrapping_add(u32::from(byte.wrapping_sub(b'0')));
    }
    false
}

// How many looks found no sheet, an older one than before, or a text of another version.
fn wrong_looks(screen: &mut Screen) -> u32 {
    let (mut last, mut wrong) = (0, 0u32);
    for _ in 0..LOOKS {
        match screen.look() {
            Ok(sheet) if sheet.version() >= last && is_of_its_version(&sheet) => {
                last = sheet.version();
            }
            _ => wrong = wrong.saturating_add(1),
        }
        if last == VERSIONS {
            return wrong;
        }
    }
    wrong
}

fn wrong_looks_of_both<R: Threads + Sync>(
    rt: &R,
    one: &mut Screen,
    two: &mut Screen,
) -> (u32, u32) {
    join(rt, || wrong_looks(one), || wrong_looks(two))
}

/// What comes of shows and looks at once.
#[derive(Clone, Copy, Debug, Drop, PartialEq, Eq)]
struct Met {
    is_each_shown: bool,
    wrong: (u32, u32),
    last: (Option<u32>, Option<u32>),
}

fn race<R: Threads + Wait + Sync>(
    rt: &R,
    alloc: Global,
    stage: &mut Stage<'_>,
    one: &mut Screen,
    two: &mut Screen,
) -> Met {
    let (first, second) = (&mut *one, &mut *two);
    let (is_each_shown, wrong) = join(
        rt,
        || is_each_shown(rt, alloc, stage),
        || wrong_looks_of_both(rt, first, second),
    );
    let last = |screen: &mut Screen| screen.look().ok().map(|sheet| sheet.version());
    Met {
        is_each_shown,
        wrong,
        last: (last(one), last(two)),
    }
}

#[test]
fn screens_in_two_threads_never_go_back(rt: HostRuntime) -> Result<(), Fail> {
    let airport = demo(rt.alloc())?;
    let (mut stage, mut one, mut two) = Stage::new(&rt, rt.alloc(), &airport)?;
    let found = race(&rt, rt.alloc(), &mut stage, &mut one, &mut two);
    stage.close(&rt);
    let expected = Met {
        is_each_shown: true,
        wrong: (0, 0),
        last: (Some(VERSIONS), Some(VERSIONS)),
    };
    assert_eq!(rt; found, expected);
    Ok(())
}
