// Shows that are tried again if memory runs out, which happens only if an allocation is made to
// fail.
ghost use Rattle.std.specs.Prelude.{◌≡◌};

use super::stage::Stage;
use super::{demo, version_seen};
use screen_feed::Screen;
use std::alloc::Global;
use std::sync::Wait;
use std::test::Fail;

// How many plans are shown.
const VERSIONS: u32 = 40;

// Whether each plan is seen, if one of two tries has memory.
fn is_seen_each_time<R: Wait>(
    rt: &R,
    alloc: Global,
    stage: &mut Stage<'_>,
    screen: &mut Screen,
) -> bool
    requires pair { screen.old.pair ≡ stage.old.0 }
{
    for number in 0..VERSIONS {
        let is_added = stage.add(alloc, number) || stage.add(alloc, number);
        let is_shown = stage.show(rt, alloc) || stage.show(rt, alloc);
        screen.learn(stage.told());
        if !is_added || !is_shown || version_seen(screen) != Some(number + 1) {
            return false;
        }
    }
    true
}

#[test]
fn a_show_that_wanted_memory_is_seen_once_it_is_tried_again(rt: HostRuntime) -> Result<(), Fail> {
    let airport = demo(rt.alloc())?;
    let (mut stage, mut one, _two) = Stage::new(&rt, rt.alloc(), &airport)?;
    let is_seen = is_seen_each_time(&rt, rt.alloc(), &mut stage, &mut one);
    stage.close(&rt);
    assert!(rt; is_seen);
    Ok(())
}
