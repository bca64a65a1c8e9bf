// The calls of the words `serve A T N` and `serve A T N screen DAY`.
ghost use Rattle.std.specs.Prelude.{◌≡◌, ◌↔◌, ◌⊎◌, ◌<◌, ◌≤◌, IfSome, IsSome, [], true, None, Some, is_some, length, map, not};
ghost use Rattle.std.specs.Option.{option_copied, option_map};
ghost use Rattle.apron_base.specs.Ends.{SinkState, SourceState};
ghost use Rattle.apron_base.specs.Shelf.{ShelfState};
ghost use Rattle.desk_workers.specs.Watched.{feed_texts, no_feeds};
ghost use Rattle.apron_run.specs.End.{status_of};
ghost use Rattle.apron_run.specs.Run.{KeptUnless};
ghost use Rattle.apron_run.specs.Statuses.{exit_code};
ghost use Rattle.apron_serve.specs.Board.{AtServe, serve_world};
ghost use Rattle.apron_serve.specs.Complete.{IsServeComplete};
ghost use Rattle.apron_serve.specs.Orders.{Order as Ordered, may_have, most_listeners, order_of};
ghost use Rattle.apron_serve.specs.OrdersShown.{order_shown};
ghost use Rattle.apron_serve.specs.Serve.{HaveFinished, ServesAs, ServesOrder, SomeFailed, has_served, serve_ends_before_journal, is_attended};

use crate::board::serve_desks;
use crate::words::{Order, order_of};
use apron_base::{Shelf, Sink, Word};
use apron_check::{AirportFiles, airport_of};
use apron_run::{End, Status, tell_end};
use desk_workers::Workplace;
use journal_disk::Disk;
use screen_server::Task;
use std::alloc::Global;
use std::marker::Brand;
use std::sync::Wait;
use std::thread::Threads;
use watch_list::{NoteTest, Shown, Stated, Watches};

/// Serves many desks at once, and gives the disk back with the number of the
/// [`Status`](apron_run::Status) that the program ends with.
///
/// `serve A T N` reads the airport file and the type file of these names from the shelf, opens the
/// journal of these files on the disk, and takes `N` connections of each listener, 1 to 1,000,000.
/// Each listener has a worker in a thread of its own, which answers the requests of one connection
/// after the other; all workers take turns at the one board over the journal. Other words, no
/// listener or more than 16 print the line `usage`. It ends when each worker has ended, and returns
/// only if each call that waits does. There is no watch: each feed is answered that there is none.
///
/// | Status | Comes if |
/// |---|---|
/// | 0 | each listener has finished `N` connections more, however their sessions ended |
/// | 2 | the words ask for nothing known, or the number of listeners is none of 1 to 16 |
/// | 3 | a file has a fault, which is printed, or is over 1 MiB |
/// | 4 | the shelf failed |
/// | 7 | the disk failed before a journal was open, which is printed; later a reply says so |
/// | 8 | the disk has no journal of these files, or no history of their airport, which is printed |
/// | 11 | a listener failed, which is printed when all workers have ended |
/// | 12 | memory has run out before any connection is taken, which is printed |
pub fn serve<F: Shelf, L: Workplace + Send, W: Sink, D: Disk + Send, Rt: Wait + Threads + Sync>(
    rt: &Rt,
    alloc: Global,
    words: &[Word],
    shelf: &mut F,
    listeners: &mut [L],
    sink: &mut W,
    disk: D,
) -> (u8, D)
    ensures headline { (source : SourceState) → ServesAs
        (record { states = L.states; feeds = no_feeds })
        (order_of words.now (length listeners.old) 0)
        (serve_world L.state (F.state shelf.old) source listeners.old [] (W.state sink.old)
        (D.state disk))
        (serve_world L.state (F.state shelf.new) source listeners.new [] (W.state sink.new)
        (D.state result.1)) result.0 }
    ensures done { (order : Ordered)
        → order_of words.now (length listeners.old) 0 ≡ Some order
        → (result.0 ≡ exit_code Status.Done
        ↔ HaveFinished order.connections (map L.state listeners.old)
        (map L.state listeners.new)) }
    ensures failed { result.0 ≡ exit_code Status.ListenerFault
        → SomeFailed (map L.state listeners.old) (map L.state listeners.new) }
    ensures usage { result.0 ≡ exit_code Status.Usage
        ↔ order_of words.now (length listeners.old) 0 ≡ None }
    ensures complete { (source : SourceState) → IsServeComplete
        (order_of words.now (length listeners.old) 0)
        (serve_world L.state (F.state shelf.old) source listeners.old [] (W.state sink.old)
        (D.state disk))
        (serve_world L.state (F.state shelf.new) source listeners.new [] (W.state sink.new)
        (D.state result.1)) result.0 }
    ensures shelf_kept { KeptUnless (is_some (order_of words.now (length listeners.old) 0))
        shelf.old shelf.new }
    ensures listeners_kept { KeptUnless (has_served 0 result.0) listeners.old listeners.new }
    ensures disk_kept { KeptUnless (not (serve_ends_before_journal result.0)) disk result.1 }
{
    let watches = Watches::<Shown, Shown>::none(alloc);
    serve_with(rt, alloc, words, &watches, shelf, listeners, sink, disk)
}

/// The same with these watches, whose feeds each desk can ask for.
pub fn serve_with<
    F: Shelf,
    L: Workplace + Send,
    W: Sink,
    D: Disk + Send,
    R: Stated + Sync,
    T: NoteTest + Sync,
    Rt: Wait + Threads + Sync,
>(
    rt: &Rt,
    alloc: Global,
    words: &[Word],
    watches: &Watches<R, T>,
    shelf: &mut F,
    listeners: &mut [L],
    sink: &mut W,
    disk: D,
) -> (u8, D)
    ensures headline { (source : SourceState) → ServesAs
        (record { states = L.states; feeds = feed_texts R.tells watches.now })
        (order_of words.now (length listeners.old) 0)
        (serve_world L.state (F.state shelf.old) source listeners.old [] (W.state sink.old)
        (D.state disk))
        (serve_world L.state (F.state shelf.new) source listeners.new [] (W.state sink.new)
        (D.state result.1)) result.0 }
    ensures done { (order : Ordered)
        → order_of words.now (length listeners.old) 0 ≡ Some order
        → (result.0 ≡ exit_code Status.Done
        ↔ HaveFinished order.connections (map L.state listeners.old)
        (map L.state listeners.new)) }
    ensures failed { result.0 ≡ exit_code Status.ListenerFault
        → SomeFailed (map L.state listeners.old) (map L.state listeners.new) }
    ensures usage { result.0 ≡ exit_code Status.Usage
        ↔ order_of words.now (length listeners.old) 0 ≡ None }
    ensures complete { (source : SourceState) → IsServeComplete
        (order_of words.now (length listeners.old) 0)
        (serve_world L.state (F.state shelf.old) source listeners.old [] (W.state sink.old)
        (D.state disk))
        (serve_world L.state (F.state shelf.new) source listeners.new [] (W.state sink.new)
        (D.state result.1)) result.0 }
    ensures shelf_kept { KeptUnless (is_some (order_of words.now (length listeners.old) 0))
        shelf.old shelf.new }
    ensures listeners_kept { KeptUnless (has_served 0 result.0) listeners.old listeners.new }
    ensures disk_kept { KeptUnless (not (serve_ends_before_journal result.0)) disk result.1 }
{
    let (none, desks) = listeners.split_at_mut(0);
    serve_all(rt, alloc, words, watches, shelf, desks, none, sink, disk)
}

/// The same with screens beside the desks.
///
/// `serve A T N screen DAY` also takes `N` connections of the listener of each of 1 to 8 screens,
/// each by a worker in a thread of its own. It reads nothing from a connection. It puts the chart
/// of this day, counted from 1, of the plan that the screen then sees, and finishes the connection.
/// Without `screen DAY` there may be no such listener.
///
/// Its statuses are those of [`serve`] with these besides:
///
/// | Status | Comes if |
/// |---|---|
/// | 2 | the plan has no such day, or there are other screens than the words order |
/// | 11 | a listener of a screen failed |
/// | 12 | all connections were finished, but memory ran out for a screen's last version |
pub fn serve_all<
    F: Shelf,
    L: Workplace + Send,
    W: Sink,
    D: Disk + Send,
    R: Stated + Sync,
    T: NoteTest + Sync,
    Rt: Wait + Threads + Sync,
>(
    rt: &Rt,
    alloc: Global,
    words: &[Word],
    watches: &Watches<R, T>,
    shelf: &mut F,
    listeners: &mut [L],
    screens: &mut [L],
    sink: &mut W,
    disk: D,
) -> (u8, D)
    ensures headline { (source : SourceState) → ServesAs
        (record { states = L.states; feeds = feed_texts R.tells watches.now })
        (order_of words.now (length listeners.old) (length screens.old))
        (serve_world L.state (F.state shelf.old) source listeners.old screens.old
        (W.state sink.old) (D.state disk))
        (serve_world L.state (F.state shelf.new) source listeners.new screens.new
        (W.state sink.new) (D.state result.1)) result.0 }
    ensures done { (order : Ordered)
        → order_of words.now (length listeners.old) (length screens.old) ≡ Some order
        → result.0 ≡ exit_code Status.Done
        → HaveFinished order.connections (map L.state listeners.old) (map L.state listeners.new)
        × HaveFinished order.connections (map L.state screens.old) (map L.state screens.new) }
    ensures finished { (order : Ordered)
        → order_of words.now (length listeners.old) (length screens.old) ≡ Some order
        → HaveFinished order.connections (map L.state listeners.old) (map L.state listeners.new)
        → HaveFinished order.connections (map L.state screens.old) (map L.state screens.new)
        → (result.0 ≡ exit_code Status.Done)
        ⊎ ((result.0 ≡ exit_code Status.Memory) × (0 < length screens.old)) }
    ensures failed { result.0 ≡ exit_code Status.ListenerFault
        → SomeFailed (map L.state listeners.old) (map L.state listeners.new)
        ⊎ SomeFailed (map L.state screens.old) (map L.state screens.new) }
    ensures usage { order_of words.now (length listeners.old) (length screens.old) ≡ None
        → result.0 ≡ exit_code Status.Usage }
    ensures usage_alone { result.0 ≡ exit_code Status.Usage
        → IfSome (order_of words.now (length listeners.old) (length screens.old))
        (λ order. IsSome order.day) }
    ensures complete { (source : SourceState) → IsServeComplete
        (order_of words.now (length listeners.old) (length screens.old))
        (serve_world L.state (F.state shelf.old) source listeners.old screens.old
        (W.state sink.old) (D.state disk))
        (serve_world L.state (F.state shelf.new) source listeners.new screens.new
        (W.state sink.new) (D.state result.1)) result.0 }
    ensures shelf_kept { KeptUnless
        (is_some (order_of words.now (length listeners.old) (length screens.old))) shelf.old
        shelf.new }
    ensures listeners_kept { KeptUnless (has_served (length screens.old) result.0)
        listeners.old listeners.new }
    ensures screens_kept { KeptUnless (has_served (length screens.old) result.0)
        screens.old screens.new }
    ensures disk_kept { KeptUnless (not (serve_ends_before_journal result.0)) disk result.1 }
{
    let order = order_of(words, listeners.len(), screens.len());
    let (end, disk) = serve_order(rt, alloc, order, watches, shelf, listeners, screens, disk);
    (tell_end(sink, &end).code(), disk)
}

// Serves what is ordered, if anything is, at the journal of its files, if their plan has the day
// that is ordered.
fn serve_order<
    F: Shelf,
    L: Workplace + Send,
    D: Disk + Send,
    R: Stated + Sync,
    T: NoteTest + Sync,
    Rt: Wait + Threads + Sync,
>(
    rt: &Rt,
    alloc: Global,
    order: Option<Order<'_>>,
    watches: &Watches<R, T>,
    shelf: &mut F,
    listeners: &mut [L],
    screens: &mut [L],
    disk: D,
) -> (End, D)
    requires few { IfSome order (λ _. length listeners.old ≤ most_listeners) }
    requires screens { IfSome order
        (λ order. may_have (length screens.old) (option_copied order.day) ≡ true) }
    ensures does { (source : SourceState) (sink : SinkState) → ServesOrder
        (record { states = L.states; feeds = feed_texts R.tells watches.now })
        (option_map order_shown order.entry)
        (serve_world L.state (F.state shelf.old) source listeners.old screens.old sink
        (D.state disk))
        (serve_world L.state (F.state shelf.new) source listeners.new screens.new sink
        (D.state result.1)) result.0 }
    ensures shelf_kept { KeptUnless (is_some (option_map order_shown order.entry))
        shelf.old shelf.new }
    ensures listeners_kept { KeptUnless (is_attended result.0) listeners.old listeners.new }
    ensures screens_kept { KeptUnless (is_attended result.0) screens.old screens.new }
    ensures disk_kept { KeptUnless
        (not (serve_ends_before_journal (exit_code (status_of result.0)))) disk result.1 }
{
    let order = match order {
        Some(order) => order,
        None => return (End::Unasked, disk),
    };
    let files = match airport_of(alloc, order.airport.text(), order.types.text(), shelf) {
        Ok(files) => files,
        Err(fault) => return (End::Faulty(fault), disk),
    };
    match order.shown_day(files.airport.parts().days) {
        Some(day) => {
            let task = Task {
                connections: order.connections,
                day,
            };
            serve_journal(rt, alloc, &files, task, watches, listeners, screens, disk)
        }
        None => (End::Unasked, disk),
    }
}

// Serves desks and screens at the journal of these files.
fn serve_journal<
    L: Workplace + Send,
    D: Disk + Send,
    R: Stated + Sync,
    T: NoteTest + Sync,
    Rt: Wait + Threads + Sync,
>(
    rt: &Rt,
    alloc: Global,
    files: &AirportFiles,
    task: Task,
    watches: &Watches<R, T>,
    listeners: &mut [L],
    screens: &mut [L],
    disk: D,
) -> (End, D)
    requires few { length listeners.old ≤ most_listeners }
    requires day { 0 < length screens.old → (1 ≤ task.day) × (task.day ≤ files.now.airport.days) }
    ensures serves { (shelf : ShelfState) (source : SourceState) (sink : SinkState) → AtServe
        (record { states = L.states; feeds = feed_texts R.tells watches.now }) task
        files.now
        (serve_world L.state shelf source listeners.old screens.old sink (D.state disk))
        (serve_world L.state shelf source listeners.new screens.new sink (D.state result.1))
        result.0 }
    ensures listeners_kept { KeptUnless (is_attended result.0) listeners.old listeners.new }
    ensures screens_kept { KeptUnless (is_attended result.0) screens.old screens.new }
{
    let (end, disk, _note) = serve_desks::<Brand, L, D, R, T, Rt>(
        rt, alloc, files, task, watches, listeners, screens, disk,
    );
    (end, disk)
}
