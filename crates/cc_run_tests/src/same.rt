// What a test expects. An assertion takes long to prove, so it stands here, and a test calls it.
use crate::log::log_text;
use cc_host::{Host, World};
use std::alloc::AllocGlobal;
use std::process::Abort;

// A text is the wanted one.
pub(crate) fn same(rt: &impl Abort, text: &str, want: &str) {
    assert_eq!(rt; text, want);
}

// What is said of a test's subject holds.
pub(crate) fn holds(rt: &impl Abort, said: &str, is: bool) {
    assert!(rt; is, "{said}");
}

// A host's log is the wanted one.
pub(crate) fn check_log<W: World, H: Host<W>>(
    rt: &(impl AllocGlobal + Abort),
    host: &H,
    want: &str,
) {
    let text = log_text(rt.alloc(), host).expect(rt, "memory");
    same(rt, text.as_str(), want);
}
