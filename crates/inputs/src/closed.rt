// A closed input.
use std::io;
use std::io::Read;

// What Linux answers to a read of a standard input that is closed (EBADF).
const CLOSED: i32 = 9;

// An input of which a closed one is an empty one.
#[derive(Drop)]
pub struct ClosedIsEmpty<R>(pub R);

impl<R: Read> Read for ClosedIsEmpty<R> {
    fn read(&mut self, buf: &mut [u8]) -> io::Result<usize> {
        match self.0.read(buf) {
            Err(e) if e.raw_os_error() == Some(CLOSED) => Ok(0),
            answer => answer,
        }
    }
}
