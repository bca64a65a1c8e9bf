// A board with watches: desks take turns at it.
use crate::machine::DeskMachine;
use apron_base::Keeper;
use watch_list::{NoteTest, Stated, WatchBoard};

impl<'a, K: Keeper, R: Stated, T: NoteTest> DeskMachine for WatchBoard<'a, 'a, K, R, T> {
    ghost use Rattle.std.specs.Prelude.{refl};
    ghost use Rattle.desk_workers.specs.Watched.{watch_text};
    ghost use Rattle.desk_workers.specs.WatchFeeds.{watch_feeds};

    ghost airport = { λ fixed. fixed.airport };

    ghost feed_text = { watch_text R.tells };

    ghost numbers = { refl };

    ghost can_ask = { λ fixed ask of. of };

    ghost can_feed = { λ fixed ask. tt };

    ghost adds_asked = { λ ask entry adds. adds };

    ghost adds_none = { λ ask entry adds. adds };

    ghost answers_as = { λ fixed before call ask answer after acts. acts };

    ghost feeds_as = { λ fixed before call ask answer after. watch_feeds R.tells fixed
        before ask answer after };

    fn is_board(&self) {
        let _next = self.next_call();
    }
}
