// Reading a program's input into lent buffers.
#![tactic(auto)]

ghost use Rattle.std.specs.Prelude.{◌≡◌, ◌≤◌, ◌⊎◌, IsTrue, length, take};
ghost use Rattle.std.specs.Io.KnownBytes.{Consumes, IsAtEnd};

use std::io::Read;

// Reads until the buffer is full, the input ends or a read fails, and gives how many bytes it put at the buffer's
// start.
// Where it is known what the input has left, these are its next bytes. How much a read brings is not known before, so
// the loop counts no index by ones.
pub fn read_full<R: Read>(input: &mut R, buffer: &mut [u8]) -> usize
    ensures within { result ≤ length buffer.new }
    ensures prefix { result ≡ length (take result buffer.new) }
    ensures bytes { Consumes (R.remaining input.old) (R.remaining input.new) (take result buffer.new) }
{
    let mut done: usize = 0;
    while done < buffer.len() {
        let Ok(n) = input.read(&mut buffer[done..]) else {
            return done;
        };
        if n == 0 {
            return done;
        }
        done += n;
    }
    done
}

// Whether the bytes that were read are all that the input has, or as many as there is room for. At its end one more
// read gives 0;
// after a read that failed it fails, or gives bytes that were not read.
pub fn is_all<R: Read>(input: &mut R, read: usize, room: usize) -> bool
    ensures { IsTrue result → (read ≡ room) ⊎ IsAtEnd (R.remaining input.new) }
{
    let mut rest = [0u8; 1];
    read == room || matches!(input.read(&mut rest), Ok(0))
}
