// What a host learned of the machine.
use crate::found::Found;
use crate::sink::Sink;
use std::rt::Files;

/// Where a program was found last, and what takes the place of the null device where that can't be opened.
#[derive(Drop)]
pub struct Learned {
    pub found: Option<Found>,
    pub sink: Option<Sink>,
}

impl Learned {
    /// Nothing yet.
    pub const fn nothing() -> Learned {
        Learned {
            found: None,
            sink: None,
        }
    }

    /// Looks whether the null device can be opened, where that wasn't learned before. Answers whether it now has something else in its place.
    pub fn misses_null(&mut self, files: &impl Files) -> bool {
        if self.sink.is_some() {
            return false;
        }
        self.sink = Sink::for_null(files);
        self.sink.is_some()
    }
}
