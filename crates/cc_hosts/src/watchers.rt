// The threads of the children of a host. Each watches one child at a time, and then the next one that comes, so that no more are made than
// children run at once. A thread of the host's own makes them, since what goes to a thread from a method of a trait gets no proof.
use crate::watched::Watched;
use cc_text::Mem;
use std::alloc::Global;
use std::process::{OpenProcess, Processes};
use std::sync::{Arc, Condvar, Mutex, Wait, WaitMethods};
use std::thread::{self, JoinHandle, Parker, Threads};

// The children that wait for a thread, how many threads watch no child, and whether no more children come.
#[derive(Drop)]
struct Arrived<P: OpenProcess + Drop> {
    children: Vec<Arc<Watched<P>>>,
    idle: usize,
    is_closed: bool,
}

impl<P: OpenProcess + Drop> Arrived<P> {
    // Whether there is a thread for each child.
    fn are_awaited(&self) -> bool {
        self.children.len() <= self.idle
    }

    // Whether a thread that watches no child has nothing to do.
    fn are_none(&self) -> bool {
        self.children.is_empty() && !self.is_closed
    }
}

// Where children wait for their threads, and threads for children.
#[derive(Drop)]
struct Queue<P: OpenProcess + Drop> {
    arrived: Mutex<Arrived<P>>,
    came: Condvar,
    wanted: Parker,
}

impl<P: OpenProcess + Drop> Queue<P> {
    fn new(alloc: Global) -> Queue<P> {
        Queue {
            arrived: Mutex::new(Arrived {
                children: Vec::new(alloc),
                idle: 0,
                is_closed: false,
            }),
            came: Condvar::new(),
            wanted: Parker::new(),
        }
    }

    // The next child for a thread that watches none, once there is one. None where no more come.
    fn next(&self, rt: &impl Wait) -> Option<Arc<Watched<P>>> {
        let arrived = self.arrived.lock(rt);
        let mut arrived = self
            .came
            .wait_while(rt, arrived, |arrived| arrived.are_none());
        let child = arrived.children.pop()?;
        arrived.idle = arrived.idle.saturating_sub(1);
        Some(child)
    }

    // Counts a thread that watches no child.
    fn count(&self, rt: &impl Wait) {
        let mut arrived = self.arrived.lock(rt);
        arrived.idle = arrived.idle.saturating_add(1);
    }

    // Counts a thread that is to be made, where a child has none.
    fn wants_thread(&self, rt: &impl Wait) -> bool {
        let mut arrived = self.arrived.lock(rt);
        if arrived.are_awaited() {
            return false;
        }
        arrived.idle = arrived.idle.saturating_add(1);
        true
    }

    // Takes back the count of a thread that couldn't be made. A child gets none.
    fn give_up(&self, rt: &impl Wait) {
        let mut arrived = self.arrived.lock(rt);
        arrived.idle = arrived.idle.saturating_sub(1);
        drop(arrived.children.pop());
    }

    fn is_closed(&self, rt: &impl Wait) -> bool {
        self.arrived.lock(rt).is_closed
    }

    // Lets a child wait. Where no memory is left for that, it gets no thread. Answers whether a thread waits for it.
    fn enqueue(&self, rt: &impl Wait, child: Arc<Watched<P>>) -> bool {
        let mut arrived = self.arrived.lock(rt);
        let _ = arrived.children.push(child);
        arrived.are_awaited()
    }

    fn add(&self, rt: &impl Wait, child: Arc<Watched<P>>) {
        if self.enqueue(rt, child) {
            self.came.notify_one();
        } else {
            self.wanted.unpark();
        }
    }

    fn close(&self, rt: &impl Wait) {
        self.arrived.lock(rt).is_closed = true;
        self.came.notify_all();
        self.wanted.unpark();
    }
}

// Watches one child after another, until no more come.
fn watch<R: Processes + Threads + Wait + Copy>(rt: R, queue: &Queue<R::Started>) {
    for _ in rt.forever() {
        let Some(child) = queue.next(&rt) else {
            return;
        };
        child.watch(&rt);
        drop(child);
        queue.count(&rt);
    }
}

// A thread that watches children, where one can be made.
fn start<R: Processes + Threads + Wait + Copy + Send + 'static>(
    rt: R,
    queue: &Arc<Queue<R::Started>>,
) -> Option<JoinHandle<()>>
where
    R::Started: Send + 'static,
    <R::Started as OpenProcess>::Stdin: Send + 'static,
    <R::Started as OpenProcess>::Stdout: Send + 'static,
    <R::Started as OpenProcess>::Stderr: Send + 'static,
{
    let theirs = Arc::try_clone(queue).ok()?;
    thread::spawn(&rt, move || watch(rt, &theirs)).ok()
}

// Makes a thread, where it can be made and kept.
fn add_thread<R: Processes + Threads + Wait + Copy + Send + 'static>(
    rt: R,
    queue: &Arc<Queue<R::Started>>,
    threads: &mut Vec<JoinHandle<()>>,
) -> bool
where
    R::Started: Send + 'static,
    <R::Started as OpenProcess>::Stdin: Send + 'static,
    <R::Started as OpenProcess>::Stdout: Send + 'static,
    <R::Started as OpenProcess>::Stderr: Send + 'static,
{
    if threads.reserve(1).is_err() {
        return false;
    }
    match start(rt, queue) {
        Some(thread) => {
            threads.push_reserved(thread);
            true
        }
        None => false,
    }
}

// Makes a thread for each child that has none. One for which none can be made gets none.
fn admit<R: Processes + Threads + Wait + Copy + Send + 'static>(
    rt: R,
    queue: &Arc<Queue<R::Started>>,
    threads: &mut Vec<JoinHandle<()>>,
)
where
    R::Started: Send + 'static,
    <R::Started as OpenProcess>::Stdin: Send + 'static,
    <R::Started as OpenProcess>::Stdout: Send + 'static,
    <R::Started as OpenProcess>::Stderr: Send + 'static,
{
    for _ in rt.forever() {
        if !queue.wants_thread(&rt) {
            return;
        }
        if !add_thread(rt, queue, threads) {
            queue.give_up(&rt);
        }
    }
}

// Makes threads for the children that come, until no more come. Then it joins all.
fn make_threads<R: Processes + Threads + Wait + Copy + Send + 'static>(
    rt: R,
    alloc: Global,
    queue: &Arc<Queue<R::Started>>,
)
where
    R::Started: Send + 'static,
    <R::Started as OpenProcess>::Stdin: Send + 'static,
    <R::Started as OpenProcess>::Stdout: Send + 'static,
    <R::Started as OpenProcess>::Stderr: Send + 'static,
{
    let mut threads = Vec::new(alloc);
    for _ in rt.forever() {
        queue.wanted.park(&rt);
        admit(rt, queue, &mut threads);
        if queue.is_closed(&rt) {
            break;
        }
    }
    for thread in threads {
        thread.join(&rt);
    }
}

/// The threads of the children of a host, and the thread that makes them, where it could be made.
pub struct Watchers<R: Processes + Threads + Wait + Copy> {
    rt: R,
    queue: Arc<Queue<R::Started>>,
    thread: Option<JoinHandle<()>>,
}

/// Joins all threads, each once its child ended or was left. Children that run are left to run.
impl<R: Processes + Threads + Wait + Copy> Drop for Watchers<R> {
    fn drop(self) {
        let Self { rt, queue, thread } = self;
        queue.close(&rt);
        if let Some(thread) = thread {
            thread.join(&rt);
        }
        drop(queue);
    }
}

impl<R: Processes + Threads + Wait + Copy> Watchers<R> {
    /// Has a child watched by a thread, which is made where none is free. Answers whether that is asked for: where the thread is missing that makes
    /// them, it isn't. Where none can be made, the child has none.
    pub fn add(&self, child: &Arc<Watched<R::Started>>) -> bool {
        if self.thread.is_none() {
            return false;
        }
        match Arc::try_clone(child) {
            Ok(child) => {
                self.queue.add(&self.rt, child);
                true
            }
            Err(_) => false,
        }
    }

    /// Gives back what the threads take of the machine's processes, where none of them watches a child that runs. No child gets one from then
    /// on. Answers whether there was one.
    pub fn release(&mut self) -> bool {
        match self.thread.take() {
            Some(thread) => {
                self.queue.close(&self.rt);
                thread.join(&self.rt);
                true
            }
            None => false,
        }
    }
}

impl<R: Processes + Threads + Wait + Copy + Send + 'static> Watchers<R>
where
    R::Started: Send + 'static,
    <R::Started as OpenProcess>::Stdin: Send + 'static,
    <R::Started as OpenProcess>::Stdout: Send + 'static,
    <R::Started as OpenProcess>::Stderr: Send + 'static,
{
    /// No child yet. Where no thread can be made, or none is wanted, no child gets one.
    pub fn new(rt: R, alloc: Global, are_wanted: bool) -> Mem<Watchers<R>> {
        let queue = Arc::new(alloc, Queue::new(alloc))?;
        let theirs = Arc::try_clone(&queue)?;
        let thread = if are_wanted {
            thread::spawn(&rt, move || make_threads(rt, alloc, &theirs)).ok()
        } else {
            None
        };
        Ok(Watchers { rt, queue, thread })
    }
}
