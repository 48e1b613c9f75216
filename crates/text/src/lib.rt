// Input read up to its end.
#![tactic(auto)]

ghost use Rattle.std.specs.Prelude.{◌≡◌, ◌<◌, ◌≤◌, length, take, IfOk};
ghost use Rattle.std.specs.Io.KnownBytes.{Consumes, IsAtEnd};

use std::io;
use std::io::Read;

// Reads until the buffer is full or the input ends, and returns how many bytes it put at the start of the buffer. A read that fails
// ends it, and the bytes before it are lost.
pub fn read_full<R: Read>(input: &mut R, buffer: &mut [u8]) -> io::Result<usize>
    ensures lent { length buffer.new ≡ length buffer.old }
    ensures bound { IfOk result (λ n. n ≤ length buffer.new) }
    ensures bytes { IfOk result (λ n. Consumes (R.remaining input.old) (R.remaining input.new) (take n buffer.new)) }
    ensures end { IfOk result (λ n. n < length buffer.new → IsAtEnd (R.remaining input.new)) }
{
    // No iterator counts this: each read says how many bytes it gave.
    let mut done = 0;
    while done < buffer.len() {
        let n = input.read(&mut buffer[done..])?;
        if n == 0 {
            break;
        }
        done += n;
    }
    Ok(done)
}

#[cfg(test)]
mod tests {
    use super::*;

    // Gives a byte, and then fails.
    #[derive(Drop)]
    struct Broken {
        given: bool,
    }

    impl Read for Broken {
        fn read(&mut self, buffer: &mut [u8]) -> io::Result<usize> {
            if self.given || buffer.is_empty() {
                return Err(io::Error::from(io::ErrorKind::BrokenPipe));
            }
            self.given = true;
            buffer[0] = b'a';
            Ok(1)
        }
    }

    #[test]
    fn reads_what_the_buffer_holds(rt: HostRuntime) {
        let mut input: &[u8] = b"abc";
        let mut buffer = [0u8; 2];
        let n = read_full(&mut input, &mut buffer).expect(&rt, "memory can be read");
        assert_eq!(rt; &buffer[..n], b"ab".as_slice());
        let n = read_full(&mut input, &mut buffer).expect(&rt, "memory can be read");
        assert_eq!(rt; &buffer[..n], b"c".as_slice());
    }

    #[test]
    fn a_read_that_fails_is_no_end(rt: HostRuntime) {
        let mut buffer = [0u8; 2];
        let read = read_full(&mut Broken { given: false }, &mut buffer);
        assert!(rt; read.is_err());
    }
}
