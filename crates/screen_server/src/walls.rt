// The workers of all screens, each in a thread of its own.
ghost use Rattle.std.specs.Prelude.{◌≡◌, length};
ghost use Rattle.screen_server.specs.Walls.{ShowsAll, walls_of};

use crate::look::Looks;
use desk_workers::{WorkEnd, Workplace, work_all};
use screen_feed::Screen;
use std::alloc::Global;
use std::sync::Wait;
use std::thread::Threads;

/// A worker for each screen with the listener of the same place, each in a thread of its own.
pub(crate) fn show_all<W: Workplace + Send, R: Threads + Wait + Sync>(
    rt: &R,
    alloc: Global,
    screens: &mut [Screen],
    walls: &mut [W],
    connections: u32,
) -> WorkEnd
    requires same { length screens.old ≡ length walls.old }
    ensures shows { ShowsAll W.states connections
        (walls_of W.state walls.old screens.old) (walls_of W.state walls.new screens.new) result }
{
    let (end, ()) = work_all(rt, alloc, &Looks, screens, walls, connections, &mut || ());
    end
}
