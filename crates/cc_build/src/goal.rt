// What a run is to make.

/// What a run is to make: the library of this name, in no more than so many turns.
#[derive(Clone, Copy)]
pub(crate) struct Goal<'a> {
    pub output: &'a str,
    pub turns: u64,
}
