// Screens at boards of the demo airport.
ghost use Rattle.std.specs.Prelude.{◌≡◌};

mod retries;
mod stage;
mod threads;

use airport_files::read_airport;
use apron_rules::Airport;
use screen_feed::Screen;
use stage::Stage;
use std::alloc::Global;
use std::sync::Wait;
use std::test::Fail;
use test_support::{AIRPORT, TYPES};

fn demo(alloc: Global) -> Result<Airport, Fail> {
    match read_airport(alloc, AIRPORT.as_bytes(), TYPES.as_bytes()) {
        Ok(airport) => Ok(airport),
        Err(_) => Err(Fail::new("an airport")),
    }
}

fn version_seen(screen: &mut Screen) -> Option<u32>
    ensures pair { screen.new.pair ≡ screen.old.pair }
{
    Some(screen.look().ok()?.version())
}

// Whether the text is the body of the reply.
fn is_body(reply: &[u8], text: &[u8]) -> bool {
    !text.is_empty()
        && reply
            .strip_suffix(text)
            .is_some_and(|head| head.ends_with(b"\r\nX-Version: 2\r\n\r\n"))
}

/// What two screens see before and after the plan is shown.
#[derive(Clone, Copy, Debug, Drop, PartialEq, Eq)]
struct Seen {
    before: (u32, u32),
    after: u32,
    is_chart: bool,
    is_no_less: bool,
}

fn look_twice<R: Wait>(
    rt: &R,
    alloc: Global,
    stage: &mut Stage<'_>,
    one: &mut Screen,
    two: &mut Screen,
) -> Option<Seen>
    requires pair { one.old.pair ≡ stage.old.0 }
    ensures pairs { stage.new ≡ stage.old }
{
    let before = (version_seen(one)?, version_seen(two)?);
    if !stage.add(alloc, 60) || !stage.put(alloc) || !stage.show(rt, alloc) {
        return None;
    }
    one.learn(stage.told());
    let sheet = one.look().ok()?;
    let reply = stage.chart(alloc)?;
    let other = version_seen(two)?;
    Some(Seen {
        before,
        after: sheet.version(),
        is_chart: is_body(reply.as_slice(), sheet.text()),
        is_no_less: (other == 0 || other == 2) && version_seen(two)? >= other,
    })
}

#[test]
fn a_screen_that_was_told_shows_the_chart_of_the_new_plan(rt: HostRuntime) -> Result<(), Fail> {
    let airport = demo(rt.alloc())?;
    let (mut stage, mut one, mut two) = Stage::new(&rt, rt.alloc(), &airport)?;
    let seen = look_twice(&rt, rt.alloc(), &mut stage, &mut one, &mut two);
    stage.close(&rt);
    let expected = Seen {
        before: (0, 0),
        after: 2,
        is_chart: true,
        is_no_less: true,
    };
    assert_eq!(rt; seen, Some(expected));
    Ok(())
}
