// Desks take turns at a board that is shown on screens.
use crate::hall::Hall;
use apron_base::Keeper;
use desk_workers::DeskMachine;
use std::sync::Wait;
use watch_list::{NoteTest, Stated};

impl<'a, W: Wait, K: Keeper, R: Stated, T: NoteTest> DeskMachine for Hall<'a, 'a, 'a, W, K, R, T> {
    ghost use Rattle.std.specs.Prelude.{refl};
    ghost use Rattle.desk_workers.specs.Watched.{watch_text};
    ghost use Rattle.desk_workers.specs.WatchFeeds.{watch_feeds};

    ghost airport = { λ fixed. fixed.watched.airport };

    ghost feed_text = { λ fixed. watch_text R.tells fixed.watched };

    ghost numbers = { refl };

    ghost can_ask = { λ fixed ask of. of };

    ghost can_feed = { λ fixed ask. tt };

    ghost adds_asked = { λ ask entry adds. adds };

    ghost adds_none = { λ ask entry adds. adds };

    ghost answers_as = { λ fixed before call ask answer after acts. acts };

    ghost feeds_as = { λ fixed before call ask answer after.
        watch_feeds R.tells fixed.watched before ask answer after };

    fn is_board(&self) {
        let _next = self.next_call();
    }
}
