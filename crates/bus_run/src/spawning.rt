//! Workers on a bus, some that send and some that hear, each in a thread of its own.

ghost use Rattle.std.specs.Prelude.{◌≡◌, IfOk};

use std::alloc::{AllocError, Global};
use std::thread::{JoinHandle, Scope, Threads};

/// What all workers of one kind do.
pub trait Work<T> {
    /// Does all that the worker has to do, and gives it back.
    fn work(&self, worker: T) -> T;
}

/// The workers of a bus, and room for the handles of their threads.
#[derive(Drop)]
pub struct Workers<D: Drop, E: Drop> {
    pub send_workers: Vec<D>,
    pub receive_workers: Vec<E>,
    sending: Vec<JoinHandle<D>>,
    hearing: Vec<JoinHandle<E>>,
}

impl<D: Send + Drop, E: Send + Drop> Workers<D, E> {
    /// Workers that have not begun. All their memory is taken here.
    pub fn new(
        alloc: Global,
        send_workers: Vec<D>,
        receive_workers: Vec<E>,
    ) -> Result<Workers<D, E>, AllocError>
        ensures senders { IfOk result (λ workers. workers.send_workers.items ≡ send_workers.items) }
        ensures receivers { IfOk result
            (λ workers. workers.receive_workers.items ≡ receive_workers.items) }
    {
        let sending = Vec::with_capacity(alloc, send_workers.len())?;
        let hearing = Vec::with_capacity(alloc, receive_workers.len())?;
        Ok(Workers {
            send_workers,
            receive_workers,
            sending,
            hearing,
        })
    }

    /// Starts a thread for each sender, lowest first, up to the first that cannot be started. Says
    /// whether all were started.
    pub fn start_senders<'s, S, W: Work<D> + Sync>(
        &mut self,
        scope: &'s Scope<'s, S>,
        work: &'s W,
    ) -> bool
    where
        D: 's,
    {
        start(scope, work, &mut self.send_workers, &mut self.sending)
    }

    /// The same for each receiver.
    pub fn start_receivers<'s, S, W: Work<E> + Sync>(
        &mut self,
        scope: &'s Scope<'s, S>,
        work: &'s W,
    ) -> bool
    where
        E: 's,
    {
        start(scope, work, &mut self.receive_workers, &mut self.hearing)
    }

    /// Waits for the threads of the senders, which are among the workers again, in order.
    pub fn join_senders<R: Threads>(&mut self, rt: &R) {
        join(rt, &mut self.send_workers, &mut self.sending);
    }

    /// Waits for the threads of the receivers, which are among the workers again, in order.
    pub fn join_receivers<R: Threads>(&mut self, rt: &R) {
        join(rt, &mut self.receive_workers, &mut self.hearing);
    }
}

/// Starts a thread for each worker, lowest first, up to the first that cannot be started, which is
/// dropped. Says whether all were started.
fn start<'s, S, T: Send + Drop + 's, W: Work<T> + Sync>(
    scope: &'s Scope<'s, S>,
    work: &'s W,
    workers: &mut Vec<T>,
    threads: &mut Vec<JoinHandle<T>>,
) -> bool {
    let many = workers.len();
    workers.reverse();
    for _ in 0..many {
        let Some(worker) = workers.pop() else {
            break;
        };
        let Ok(thread) = scope.spawn(move || work.work(worker)) else {
            break;
        };
        let _ = threads.push(thread);
    }
    workers.reverse();
    threads.len() == many
}

/// Waits for the threads. Their workers stand before those that were not started, in order.
fn join<R: Threads, T: Drop>(rt: &R, workers: &mut Vec<T>, threads: &mut Vec<JoinHandle<T>>) {
    workers.reverse();
    for _ in 0..threads.len() {
        if let Some(thread) = threads.pop() {
            let _ = workers.push(thread.join(rt));
        }
    }
    workers.reverse();
}
