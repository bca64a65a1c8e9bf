// The workers at one board, one for each listener, each in a thread of its own, and a job beside
// them.
ghost use Rattle.std.specs.Prelude.{◌≡◌, ◌<◌, ◌≤◌, IfErr, IfOk, None, [], ◌∷◌, length, map, vec_capacity};
ghost use Rattle.std.specs.Thread.{IsSync};
ghost use Rattle.apron_base.specs.Histories.{Every};
ghost use Rattle.history_core.specs.History.{IsLegal, call_of};
ghost use Rattle.turn_board.specs.Board.{Closes, Sits};
ghost use Rattle.turn_board.specs.Views.{all_shares};
ghost use Rattle.desk_workers.specs.Crew.{ServesBoard, end_of};
ghost use Rattle.desk_workers.specs.Feeds.{seat_sessions};
ghost use Rattle.desk_workers.specs.Together.{AreCutFrom, MeetsAll, WorkAll, WorkEach, WorkTogether};

use crate::machine::DeskMachine;
use crate::seat_port::SeatPort;
use crate::worker::{ConnectionHandler, Sessions, WorkEnd, work_each};
use apron_base::{Listener, Memory};
use apron_rules::Airport;
use std::alloc::Global;
use std::sync::Wait;
use std::thread::{Threads, join_mut};
use turn_board::{Seat, TurnBoard};

/// Serves this many connections of each listener at a board at which no entry is at risk: each
/// listener by a worker in a thread of its own with a seat of its own at the board. The job runs
/// beside the workers, in this thread, and has to end by itself. When all have ended, all seats are
/// taken in, and the board comes back with what the job gave. It ends as the first worker in order
/// that stopped early, and is done if none did. At `Err` there is no memory: nothing was served,
/// and the job was not run.
pub fn serve_board<
    R: Threads + Wait + Sync,
    M: DeskMachine + Send,
    W: Workplace + Send,
    J: FnMut() -> T,
    T,
>(
    rt: &R,
    alloc: Global,
    airport: &Airport,
    board: M,
    listeners: &mut [W],
    connections: u32,
    job: &mut J,
) -> (Result<(WorkEnd, T), Memory>, M)
    requires airport { airport.now ≡ M.airport (M.state board).fixed }
    requires at_risk { (M.state board).at_risk ≡ None }
    requires few { length listeners.old < all_shares }
    requires job { J.pre job.old }
    ensures serves { IfOk result.0 (λ ends. ServesBoard W.states
        (λ fixed. seat_sessions (M.feed_text fixed) (M.airport fixed)) connections
        (record { listeners = map W.state listeners.old; board = M.state board })
        (record { listeners = map W.state listeners.new; board = M.state result.1 }) ends.0) }
    ensures job { IfOk result.0 (λ ends. J.step job.old ends.1 job.new) }
    ensures refused { IfErr result.0
        (λ _. (listeners.new ≡ listeners.old) × (result.1 ≡ board) × (job.new ≡ job.old)) }
{
    board.is_board();
    let Ok(ports) = Vec::with_capacity(alloc, listeners.len()) else {
        return (Err(Memory), board);
    };
    match TurnBoard::new(alloc, board) {
        Ok((turns, mut seat)) => {
            let ends = work_in_turns(
                rt,
                alloc,
                &turns,
                airport,
                &mut seat,
                ports,
                listeners,
                connections,
                job,
            );
            (Ok(ends), close_turns(turns, seat))
        }
        Err(board) => {
            ports.destroy_empty();
            (Err(Memory), board)
        }
    }
}

// Cuts a seat for each listener from one seat, lets a worker serve the listener over its port, and
// takes the seats in again. There is room for the ports.
fn work_in_turns<
    's,
    R: Threads + Wait + Sync,
    M: DeskMachine + Send,
    W: Workplace + Send,
    J: FnMut() -> T,
    T,
>(
    rt: &'s R,
    alloc: Global,
    board: &'s TurnBoard<M>,
    airport: &'s Airport,
    seat: &mut Seat<M>,
    mut ports: Vec<SeatPort<'s, R, M>>,
    listeners: &mut [W],
    connections: u32,
    job: &mut J,
) -> (WorkEnd, T)
    requires sits { Sits board.now seat.old }
    requires airport { airport.now ≡ M.airport board.now.start.fixed }
    requires share { length listeners.old < seat.old.share }
    requires none { ports.items ≡ [] }
    requires room { length listeners.old ≤ vec_capacity ports }
    requires job { J.pre job.old }
    ensures sits { Sits board.now seat.new }
    ensures share { seat.new.share ≡ seat.old.share }
    ensures works { let fixed = board.now.start.fixed in
        WorkTogether W.states (seat_sessions (M.feed_text fixed) (M.airport fixed)) connections
        (record { listeners = map W.state listeners.old; seat = seat.old })
        (record { listeners = map W.state listeners.new; seat = seat.new }) result.0 }
    ensures job { J.step job.old result.1 job.new }
{
    cut_ports(rt, board, airport, seat, listeners.len(), &mut ports);
    let ends = work_all(
        rt,
        alloc,
        &Sessions,
        ports.as_mut_slice(),
        listeners,
        connections,
        job,
    );
    meet_ports(board, seat, ports);
    ends
}

// Puts the ports of this many new seats into a list that has room for them.
fn cut_ports<'s, R, M: DeskMachine>(
    rt: &'s R,
    board: &'s TurnBoard<M>,
    airport: &'s Airport,
    seat: &mut Seat<M>,
    count: usize,
    ports: &mut Vec<SeatPort<'s, R, M>>,
)
    requires sits { Sits board.now seat.old }
    requires airport { airport.now ≡ M.airport board.now.start.fixed }
    requires share { count < seat.old.share }
    requires none { ports.old.items ≡ [] }
    requires room { count ≤ vec_capacity ports.old }
    ensures sits { Sits board.now seat.new }
    ensures count { length ports.new.items ≡ count }
    ensures cut { AreCutFrom seat.old ports.new.items seat.new }
    ensures board { Every (λ port. port.board ≡ board.now) ports.new.items }
{
    for _cut in 0..count {
        let mine = board.split(seat);
        ports.push_reserved(SeatPort::new(rt, board, airport, mine));
    }
}

// Takes the seats of these ports in, the last one first.
fn meet_ports<'s, R, M: DeskMachine>(
    board: &TurnBoard<M>,
    seat: &mut Seat<M>,
    mut ports: Vec<SeatPort<'s, R, M>>,
)
    requires sits { Sits board.now seat.old }
    requires board { Every (λ port. port.board ≡ board.now) ports.items }
    ensures sits { Sits board.now seat.new }
    ensures meets { MeetsAll seat.old ports.entry.items seat.new }
{
    while let Some(port) = ports.pop() {
        board.meet(seat, port.into_seat());
    }
    ports.destroy_empty();
}

// The board, once all seats have met this one.
fn close_turns<M: DeskMachine>(turns: TurnBoard<M>, seat: Seat<M>) -> M
    requires sits { Sits turns seat }
    requires share { seat.share ≡ all_shares }
    ensures closes { Closes call_of turns seat (M.state result) }
    ensures legal { IsLegal (M.airport (M.state result).fixed) (M.state result).history }
{
    let board = turns.close(seat);
    board.is_board();
    board
}

/// A listener as its worker sees it. Every listener is one. The ends of its connections have no
/// bound, since what is sent to a thread can't have a bound on its associated types.
pub trait Workplace {
    ghost use Rattle.std.specs.Prelude.{◌≡◌};
    ghost use Rattle.apron_base.specs.Listener.{ListenerState};
    ghost use Rattle.desk_workers.specs.Work.{EndStates, Works};

    /// What a connection sends.
    type In;

    /// What a connection is sent.
    type Out;

    /// How the ends of a connection are seen.
    ghost states: { EndStates Self.In Self.Out };

    /// The state of the listener.
    ghost state: { Self → ListenerState Self.In Self.Out };

    /// Accepts this many connections one after the other, serves each by what the worker has of its
    /// own, and finishes it. It ends early only if the listener fails.
    fn work<S, K: ConnectionHandler<S>, R: Wait>(
        &mut self,
        rt: &R,
        alloc: Global,
        handler: &K,
        own: &mut S,
        connections: u32,
    ) -> WorkEnd
        ensures works { Works (K.serves states (K.fixed own.old)) connections
            (record { listener = state self.old; own = K.state own.old })
            (record { listener = state self.new; own = K.state own.new }) result }
        ensures fixed { K.fixed own.new ≡ K.fixed own.old };
}

impl<L: Listener> Workplace for L {
    type In = L::In;

    type Out = L::Out;

    ghost states = { record { source = L.In.state; sink = L.Out.state } };

    ghost state = { L.state };

    fn work<S, K: ConnectionHandler<S>, R: Wait>(
        &mut self,
        rt: &R,
        alloc: Global,
        handler: &K,
        own: &mut S,
        connections: u32,
    ) -> WorkEnd {
        work_each(rt, alloc, handler, own, self, connections)
    }
}

// The only listener of a list, served by the only one of a list of ports or screens.
fn work_first<S, K: ConnectionHandler<S>, W: Workplace, R: Wait>(
    rt: &R,
    alloc: Global,
    handler: &K,
    owns: &mut [S],
    listeners: &mut [W],
    connections: u32,
) -> WorkEnd
    requires own { length owns.old ≡ 1 }
    requires one { length listeners.old ≡ 1 }
    ensures works { WorkEach (K.serves W.states) K.fixed K.state W.state connections
        owns.old listeners.old owns.new listeners.new result }
{
    listeners[0].work(rt, alloc, handler, &mut owns[0], connections)
}

// The worker of the only listener of a list, in a thread of its own, and another job beside it.
fn work_beside<
    S: Send,
    K: ConnectionHandler<S> + Sync,
    W: Workplace + Send,
    R: Threads + Wait + Sync,
    J: FnMut() -> T,
    T,
>(
    rt: &R,
    alloc: Global,
    handler: &K,
    owns: &mut [S],
    listeners: &mut [W],
    connections: u32,
    job: &mut J,
) -> (WorkEnd, T)
    requires own { length owns.old ≡ 1 }
    requires one { length listeners.old ≡ 1 }
    requires job { J.pre job.old }
    ensures works { WorkEach (K.serves W.states) K.fixed K.state W.state connections
        owns.old listeners.old owns.new listeners.new result.0 }
    ensures job { J.step job.old result.1 job.new }
{
    join_mut(
        rt,
        &mut ||
            requires { (length owns.now ≡ 1) × (length listeners.now ≡ 1) }
            ensures works { WorkEach (K.serves W.states) K.fixed K.state W.state connections
                owns.entry.now listeners.entry.now owns.exit.now listeners.exit.now result }
        { work_first(rt, alloc, handler, owns, listeners, connections) },
        job,
    )
}

/// A worker for each listener, each in a thread of its own, which serves this many connections by
/// the port or the screen of the listener's place; and the job in this thread. They end as the
/// first worker in order that stopped early, and are done if none did.
pub fn work_all<
    S: Send,
    K: ConnectionHandler<S> + Sync,
    W: Workplace + Send,
    R: Threads + Wait + Sync,
    J: FnMut() -> T,
    T,
>(
    rt: &R,
    alloc: Global,
    handler: &K,
    owns: &mut [S],
    listeners: &mut [W],
    connections: u32,
    job: &mut J,
) -> (WorkEnd, T)
    requires each { length owns.old ≡ length listeners.old }
    requires job { J.pre job.old }
    ensures works { WorkAll (K.serves W.states) K.fixed K.state W.state connections
        owns.old listeners.old owns.new listeners.new result.0 }
    ensures job { J.step job.old result.1 job.new }
{
    if listeners.is_empty() {
        return (WorkEnd::Done, job());
    }
    let (own, others) = owns.split_at_mut(1);
    let (first, rest) = listeners.split_at_mut(1);
    let (one, (end, done)) = work_beside(
        rt,
        alloc,
        handler,
        own,
        first,
        connections,
        &mut ||
            requires { IsSync R.row × IsSync K.row × (length others.now ≡ length rest.now)
                × J.pre job.now }
            ensures works { WorkAll (K.serves W.states) K.fixed K.state W.state connections
                others.entry.now rest.entry.now others.exit.now rest.exit.now result.0 }
            ensures job { J.step job.entry.now result.1 job.exit.now }
        { work_all(rt, alloc, handler, others, rest, connections, job) },
    );
    (first_end(one, end), done)
}

/// Of two the end of the first one that was not done.
pub fn first_end(one: WorkEnd, others: WorkEnd) -> WorkEnd
    ensures is { result ≡ end_of (one ∷ others ∷ []) }
{
    match one {
        WorkEnd::Done => others,
        WorkEnd::ListenerFault => WorkEnd::ListenerFault,
    }
}
