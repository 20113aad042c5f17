// Bytes that are read into a buffer.
ghost use Rattle.std.specs.Prelude.{◌≡◌, ◌≤◌, length, take};
ghost use Rattle.io.specs.Counts.{IsPrefixLen};
ghost use Rattle.std.specs.Io.KnownBytes.{Consumes};

use std::fs::File;
use std::io::Read;
use std::rt::Files;

// Reads until the buffer is full, the input ends or a read fails, and answers how many bytes stand at its start:
// the next bytes of the input, of which no other byte is lost.
pub fn read_full<R: Read>(reader: &mut R, bytes: &mut [u8]) -> usize
    ensures within { IsPrefixLen result bytes.new }
    ensures taken { Consumes (R.remaining reader.old) (R.remaining reader.new) (take result bytes.new) }
{
    let mut done = 0;
    while done < bytes.len() {
        match reader.read(&mut bytes[done..]) {
            Ok(0) | Err(_) => break,
            Ok(n) => done += n,
        }
    }
    done
}

// Reads the start of a file, as much of it as the buffer takes. A file that is not there counts as empty.
pub fn read_file<'a>(files: &impl Files, name: &str, bytes: &'a mut [u8]) -> &'a [u8]
    ensures { length result.now ≤ length bytes.old }
{
    let length = match File::open(files, name) {
        Ok(mut file) => read_full(&mut file, bytes),
        Err(_) => 0,
    };
    &bytes[..length]
}

#[cfg(test)]
mod tests {
    use super::*;
    use std::io::{Error, ErrorKind, Result};

    // Gives one byte at a read, so many times, and then fails.
    #[derive(Drop)]
    struct Failing {
        left: u8,
    }

    impl Read for Failing {
        fn read(&mut self, buf: &mut [u8]) -> Result<usize> {
            if self.left == 0 || buf.is_empty() {
                return Err(Error::from(ErrorKind::Other));
            }
            buf[0] = self.left;
            self.left -= 1;
            Ok(1)
        }
    }

    #[test]
    fn stops_where_the_input_ends(rt: HostRuntime) {
        let mut bytes = [0u8; 8];
        assert_eq!(rt; read_full(&mut b"block".as_slice(), &mut bytes), 5);
        assert!(rt; bytes == *b"block\0\0\0");
    }

    #[test]
    fn stops_where_the_buffer_is_full(rt: HostRuntime) {
        let mut bytes = [0u8; 3];
        assert_eq!(rt; read_full(&mut b"block".as_slice(), &mut bytes), 3);
        assert!(rt; bytes == *b"blo");
    }

    #[test]
    fn keeps_what_came_before_a_failure(rt: HostRuntime) {
        let mut bytes = [0u8; 8];
        assert_eq!(rt; read_full(&mut Failing { left: 3 }, &mut bytes), 3);
        assert!(rt; bytes == [3, 2, 1, 0, 0, 0, 0, 0]);
    }
}
