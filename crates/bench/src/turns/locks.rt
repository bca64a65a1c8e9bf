// Threads that ask a machine protected by a mutex.
ghost use Rattle.std.specs.Thread.{IsSync};

use super::machine::Worker;
use apron_base::{CALL_END, Machine};
use std::alloc::Global;
use std::sync::{Mutex, Wait};
use std::thread::{Threads, join_mut};
use std::time::Clock;

/// This many threads ask this often each, and take the lock for each ask.
pub(crate) fn ask_by_locks<'r, R: Threads + Wait + Clock + Sync>(
    rt: &'r R,
    alloc: Global,
    worker: Worker<'r, R>,
    threads: u32,
    times: u64,
) {
    let worker = Mutex::new(worker);
    ask_in_threads(rt, alloc, &worker, threads, times);
}

fn ask_in_threads<'s, 'r, R: Threads + Wait + Clock + Sync>(
    rt: &'r R,
    alloc: Global,
    worker: &'s Mutex<Worker<'r, R>>,
    threads: u32,
    times: u64,
) {
    if threads == 0 {
        return;
    }
    let fewer = threads - 1;
    join_mut(
        rt,
        &mut || ask_often(rt, alloc, worker, times),
        &mut ||
            requires { IsSync R.row }
        { ask_in_threads(rt, alloc, worker, fewer, times) },
    );
}

fn ask_often<'r, R: Wait + Clock>(
    rt: &'r R,
    alloc: Global,
    worker: &Mutex<Worker<'r, R>>,
    times: u64,
) {
    for _asked in 0..times {
        ask_once(rt, alloc, worker);
    }
}

fn ask_once<'r, R: Wait + Clock>(rt: &'r R, alloc: Global, worker: &Mutex<Worker<'r, R>>) {
    let mut worker = worker.lock(rt);
    let call = worker.next_call();
    if call < CALL_END {
        worker.act(alloc, call, &());
    }
}
