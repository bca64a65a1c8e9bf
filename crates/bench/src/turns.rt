// How many turns a board gives in a second to 1, 2, 4 and 16 seats in threads, compared with a mutex
// around the same machine.
ghost use Rattle.std.specs.Prelude.{◌≤◌};

mod locks;
mod machine;
mod seats;

use self::locks::ask_by_locks;
use self::machine::Worker;
use self::seats::ask_by_turns;
use std::alloc::Global;
use std::io;
use std::sync::Wait;
use std::thread::Threads;
use std::time::{Clock, Duration, Instant};

// How long an act of the slow machine takes, in microseconds, and how many asks of the other
// machine there are for one ask of it.
const SLOW: u64 = 200;

const FEWER: u64 = 100;

// How many turns there are in a second, if this many took this long.
fn rate(turns: u64, took: Duration) -> u64 {
    let micros = u64::try_from(took.as_micros()).unwrap_or(u64::MAX).max(1);
    turns.saturating_mul(1_000_000) / micros
}

// Asks a machine whose act takes this many microseconds this often in this many threads, in turns
// and then by a lock, and gives the rates of both; `None` if memory ran out.
fn rates<R: Threads + Wait + Clock + Sync>(
    rt: &R,
    alloc: Global,
    micros: u64,
    threads: u32,
    turns: u64,
) -> io::Result<Option<(u64, u64)>>
    requires { threads ≤ 16 }
{
    let times = turns / (threads as u64).max(1);
    let all = times.saturating_mul(threads as u64);
    let start = Instant::now(rt)?;
    let all_replied = ask_by_turns(rt, alloc, Worker::new(rt, micros), threads, times);
    let by_turns = start.elapsed(rt)?;
    if !all_replied {
        return Ok(None);
    }
    let start = Instant::now(rt)?;
    ask_by_locks(rt, alloc, Worker::new(rt, micros), threads, times);
    let by_locks = start.elapsed(rt)?;
    Ok(Some((rate(all, by_turns), rate(all, by_locks))))
}

// Prints the rates at such a machine.
fn measure<R: Threads + Wait + Clock + Print + Sync>(
    rt: &R,
    alloc: Global,
    micros: u64,
    turns: u64,
) -> io::Result<()> {
    for threads in [1, 2, 4, 16] {
        match rates(rt, alloc, micros, threads, turns)? {
            Some((by_turns, by_locks)) => println!(rt;
                "acts of {micros} microseconds, {threads} seats: {by_turns} turns a second; a mutex: {by_locks}"
            )?,
            None => println!(rt;
                "acts of {micros} microseconds, {threads} seats: memory was wanting"
            )?,
        }
    }
    Ok(())
}

/// Takes this many turns at a machine that does nothing, and a hundredth of them at one whose acts
/// take 200 microseconds.
pub fn measure_turns<R: Threads + Wait + Clock + Print + Sync>(
    rt: &R,
    alloc: Global,
    turns: u64,
) -> io::Result<()> {
    measure(rt, alloc, 0, turns)?;
    measure(rt, alloc, SLOW, turns / FEWER)
}
