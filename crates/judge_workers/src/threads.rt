//! Who works: the calling thread alone, or so many workers, which are the calling thread and threads of a runtime.

use crate::count::Workers;
use std::sync::Wait;
use std::thread::Threads;

/// The calling thread alone: no thread is started.
#[derive(Clone, Copy, Debug, PartialEq, Eq)]
pub struct CallingThread;

/// So many workers: the calling thread, and threads of a runtime.
#[derive(Drop)]
pub struct WorkerThreads<'a, T> {
    rt: &'a T,
    workers: Workers,
}

impl<'a, T: Threads + Wait + Sync> WorkerThreads<'a, T> {
    /// These workers, with threads of this runtime.
    pub fn of(rt: &'a T, workers: Workers) -> WorkerThreads<'a, T> {
        WorkerThreads { rt, workers }
    }

    /// The runtime whose threads they are.
    pub fn rt(&self) -> &'a T {
        self.rt
    }

    /// How many they are.
    pub fn workers(&self) -> Workers {
        self.workers
    }
}
