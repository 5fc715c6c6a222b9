// What threads share of a world's verdicts.
ghost use Rattle.std.specs.Prelude.{IfOk, IfSome};
ghost use Rattle.cc_tool.specs.Known.{IsSteady, MayKeep};

use crate::digest::Keyed;
use crate::{Emitted, Known};
use cc_host::{Question, Verdict, World};
use cc_text::Mem;
use std::alloc::Global;
use std::sync::{Arc, Mutex, Wait};

/// The verdicts that are kept of a world, the lines of libraries and the names of variables that were printed once, and whether a
/// warning was given. Shared ones are the same, on all threads: what one call keeps another finds, so that a question is asked once in
/// a program, unless its verdict may change.
#[derive(Drop)]
pub struct Caches<W: World> {
    known: Arc<Mutex<Known<W>>, Global>,
    libraries: Arc<Mutex<Emitted>, Global>,
    reruns: Arc<Mutex<Emitted>, Global>,
    warned: Arc<Mutex<bool>, Global>,
}

impl<W: World> Caches<W> {
    /// Caches in which nothing is kept, of their own. Refused for memory, there are none.
    pub fn new(alloc: Global) -> Mem<Caches<W>> {
        Ok(Caches {
            known: Arc::new(alloc, Mutex::new(Known::new(alloc)))?,
            libraries: Arc::new(alloc, Mutex::new(Emitted::new(alloc)))?,
            reruns: Arc::new(alloc, Mutex::new(Emitted::new(alloc)))?,
            warned: Arc::new(alloc, Mutex::new(false))?,
        })
    }

    /// The same caches for another owner. Refused for memory, there are none, and these stay.
    pub fn share(&self) -> Mem<Caches<W>> {
        Ok(Caches {
            known: Arc::try_clone(&self.known)?,
            libraries: Arc::try_clone(&self.libraries)?,
            reruns: Arc::try_clone(&self.reruns)?,
            warned: Arc::try_clone(&self.warned)?,
        })
    }

    /// The verdict that is kept of a question, or none. It waits for the lock. Refused for memory, it tells nothing.
    pub fn find(&self, rt: &impl Wait, q: &Question) -> Mem<Option<Verdict>>
        ensures steady { IfOk result (λ found. IfSome found (IsSteady W.steady W.answer q.now)) }
        ensures kept { IfOk result (λ found. IfSome found (MayKeep q.now)) }
    {
        self.find_keyed(rt, &Keyed::of(q))
    }

    // The same, by a digest that is known.
    pub(crate) fn find_keyed(&self, rt: &impl Wait, key: &Keyed<'_>) -> Mem<Option<Verdict>>
        ensures steady { IfOk result
            (λ found. IfSome found (IsSteady W.steady W.answer key.now.question.now)) }
        ensures kept { IfOk result (λ found. IfSome found (MayKeep key.now.question.now)) }
    {
        let known = self.known.lock(rt);
        match known.find_keyed(key) {
            Some(verdict) => Ok(Some(verdict.try_clone()?)),
            None => Ok(None),
        }
    }

    /// Keeps the verdict of a question that isn't for a file, for all that share these caches. It waits for the lock. The verdict is
    /// neither `Unanswered` nor `Missing`. Refused for memory, what is kept stays as it was.
    pub fn keep(&self, rt: &impl Wait, q: &Question, v: &Verdict) -> Mem<()>
        requires steady { IsSteady W.steady W.answer q.now v.now }
        requires kept { MayKeep q.now v.now }
    {
        self.keep_keyed(rt, &Keyed::of(q), v)
    }

    // The same, by a digest that is known.
    pub(crate) fn keep_keyed(&self, rt: &impl Wait, key: &Keyed<'_>, v: &Verdict) -> Mem<()>
        requires steady { IsSteady W.steady W.answer key.now.question.now v.now }
        requires kept { MayKeep key.now.question.now v.now }
    {
        let mut known = self.known.lock(rt);
        known.keep_keyed(key, v)
    }

    /// Whether this is the first call for the value of a library, over all that share these caches: the text behind
    /// `cargo:rustc-link-lib=`, which a caller prints where the answer is true, and leaves out where it is false. It waits for the
    /// lock. Refused for memory, what is kept stays as it was, so that a later call may still be the first.
    pub fn new_library(&self, rt: &impl Wait, line: &str) -> Mem<bool> {
        let mut libraries = self.libraries.lock(rt);
        libraries.push_if_new(line)
    }

    /// Whether this is the first call for the name of a variable, over all that share these caches: one behind
    /// `cargo:rerun-if-env-changed=`, which a caller prints where the answer is true, and leaves out where it is false. It waits for the
    /// lock. Refused for memory, what is kept stays as it was, so that a later call may still be the first.
    pub fn new_rerun(&self, rt: &impl Wait, name: &str) -> Mem<bool> {
        let mut reruns = self.reruns.lock(rt);
        reruns.push_if_new(name)
    }

    /// Whether this is the first call, over all that share these caches. It waits for the lock and takes no memory.
    pub fn warn_once(&self, rt: &impl Wait) -> bool {
        let mut warned = self.warned.lock(rt);
        let first = !*warned;
        *warned = true;
        first
    }
}
