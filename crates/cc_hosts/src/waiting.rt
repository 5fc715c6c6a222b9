// Waiting for files by `poll(2)`, and the clock. A wait that the system refuses tells nothing of a file, so that none counts as silent for it.
use libc::net::{POLLIN, poll};
use libc::types::{pollfd, timespec};
use std::os::fd::AsRawFd;

/// A file to be waited for, until it can be read or has an end to tell.
pub fn awaited(file: &impl AsRawFd) -> pollfd {
    pollfd {
        fd: file.as_raw_fd(),
        events: POLLIN,
        revents: 0,
    }
}

/// No file: `poll(2)` leaves out a descriptor below zero.
pub fn left_out() -> pollfd {
    pollfd {
        fd: -1,
        events: 0,
        revents: 0,
    }
}

/// Whether `poll(2)` leaves out a file, since its descriptor is below zero.
pub fn is_left_out(file: &pollfd) -> bool {
    file.fd < 0
}

/// Whether a file that was waited for can be read, or has an end to tell.
pub fn is_told(file: &pollfd) -> bool {
    file.revents != 0
}

/// Waits until one of these files can be read, or has an end to tell, for at most so many milliseconds. Answers whether they could be waited for: a
/// signal may end a wait, so one that fails is tried again.
pub fn wait_for(files: &mut [pollfd], most_ms: i32) -> bool {
    poll(files, most_ms) >= 0 || poll(files, most_ms) >= 0
}

/// Whether a file can be read without waiting, or has an end to tell, within so many milliseconds. Where that can't be asked, it counts as such: a read
/// of it may wait, and loses nothing.
pub fn is_ready(file: &impl AsRawFd, most_ms: i32) -> bool {
    let mut asked = [awaited(file)];
    !wait_for(&mut asked, most_ms) || is_told(&asked[0])
}

/// Rests for a millisecond.
pub fn nap() {
    let asked = timespec {
        tv_sec: 0,
        tv_nsec: 1_000_000,
    };
    let mut left = timespec {
        tv_sec: 0,
        tv_nsec: 0,
    };
    libc::nanosleep(&asked, &mut left);
}

/// Lets another process run, where one waits for this processor.
pub fn give_way() {
    libc::sched_yield();
}

/// The milliseconds of a clock that never goes back, or the last there is where it can't be read.
pub fn now_ms() -> u64 {
    let mut time = timespec {
        tv_sec: 0,
        tv_nsec: 0,
    };
    if libc::clock_gettime(libc::CLOCK_MONOTONIC, &mut time) < 0 {
        return u64::MAX;
    }
    let ms = time.tv_nsec.unsigned_abs() / 1_000_000;
    time.tv_sec
        .unsigned_abs()
        .saturating_mul(1000)
        .saturating_add(ms)
}
