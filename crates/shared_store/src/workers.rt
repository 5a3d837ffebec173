//! Threads that share a registry, for a program that calls the parts of a service itself.
ghost use denote.Param.Send.{IsSend, IsSync};

use histories::Start;
use ktm_calls::Registry;
use std::sync::Wait;
use std::thread::{self, Threads};
use store_engine::StoreEngine;

/// What each of several threads does with a registry.
pub trait Worker<E: StoreEngine, O: Start, R: Wait> {
    /// The work of the thread of this index.
    fn work(&self, rt: &R, registry: &Registry<E, O>, index: usize);
}

/// Runs a worker on so many threads, with the indexes from 0 on, and ends when all have.
///
/// What no thread can be made for runs on the caller's, and the threads after it begin when it has ended.
pub fn run_workers<
    E: StoreEngine + Send,
    O: Start + Send + Sync,
    W: Worker<E, O, R> + Sync,
    R: Threads + Wait + Sync,
>(rt: &R, registry: &Registry<E, O>, worker: &W, count: usize) {
    thread::scope(
        thread::scope_env(),
        rt,
        |scope|
            requires { IsSend E.row × IsSync W.row × IsSync R.row }
        {
            for index in 0..count {
                if scope
                    .spawn(move || worker.work(rt, registry, index))
                    .is_err()
                {
                    worker.work(rt, registry, index);
                }
            }
        },
    );
}
