// Reads standard input, and tells a read that fails from the end.
ghost use Rattle.std.specs.Prelude.{◌≤◌, length, IfOk};

use std::io::{self, ErrorKind, Read};

// Reads until the input ends, the room is full or a read fails, and answers how many bytes there are at the
// start of the room. A read that was interrupted did not fail: it is made again.
pub(crate) fn read(input: &mut impl Read, room: &mut [u8]) -> io::Result<usize>
    ensures { IfOk result (λ n. n ≤ length room.new) }
{
    let mut done = 0;
    // A proved loop has to end, and nothing says how often a read is interrupted: no run uses up this number.
    for _ in 0..u64::MAX {
        if done == room.len() {
            return Ok(done);
        }
        match input.read(&mut room[done..]) {
            Ok(0) => return Ok(done),
            Ok(got) => done += got,
            Err(error) => {
                if error.kind() != ErrorKind::Interrupted {
                    return Err(error);
                }
            }
        }
    }
    Err(io::Error::from(ErrorKind::Interrupted))
}
