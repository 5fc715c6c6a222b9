// The standard streams of this process.
use crate::child::Closed;
use std::fs::File;
use std::io;
use std::os::fd::AsRawFd;
use std::rt::Files;

/// The null device in the place of each standard stream that this process was started without, as Rust's start-up has it: else the first file
/// that is opened would be that stream. It stands there until this is let go.
#[derive(Drop)]
pub struct StandIns<F> {
    first: Option<F>,
    second: Option<F>,
    third: Option<F>,
}

// Opens the null device, and keeps it where it is a standard stream. The system gives the lowest number that is free.
fn stand_in<R: Files>(files: &R) -> Option<R::File>
where
    R::File: AsRawFd,
{
    let opened: io::Result<R::File> = File::options()
        .read(true)
        .write(true)
        .open(files, "/dev/null");
    match opened {
        Ok(file) => {
            if file.as_raw_fd() <= 2 {
                Some(file)
            } else {
                None
            }
        }
        Err(_) => None,
    }
}

// Whether it is the stream of this number.
fn is_stream<F: AsRawFd>(file: &Option<F>, number: i32) -> bool {
    match file {
        Some(file) => file.as_raw_fd() == number,
        None => false,
    }
}

impl<F: AsRawFd> StandIns<F> {
    /// Opens the null device for each standard stream that is closed. It is to be called before any file is opened.
    pub fn open<R: Files<File = F>>(files: &R) -> StandIns<F> {
        StandIns {
            first: stand_in(files),
            second: stand_in(files),
            third: stand_in(files),
        }
    }

    // Whether it stands for the stream of this number.
    fn stands_for(&self, number: i32) -> bool {
        is_stream(&self.first, number)
            || is_stream(&self.second, number)
            || is_stream(&self.third, number)
    }

    /// Which of the streams that a child may share were closed.
    pub fn closed(&self) -> Closed {
        Closed {
            input: self.stands_for(0),
            output: self.stands_for(1),
        }
    }
}
