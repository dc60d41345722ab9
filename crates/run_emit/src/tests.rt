// What no clause can say: that a read or a write that succeeds is not told as a failure. And one that fails behind the first bytes.
ghost use Rattle.std.specs.Prelude.{◌≤◌, IfOk};

use super::*;
use std::io;
use std::io::ErrorKind;

// Gives or takes two bytes at a time, as many in all as it has left, and then fails or is at its end.
#[derive(Drop)]
struct Slow {
    left: usize,
    fails: bool,
}

impl Slow {
    fn some(&mut self, lent: usize) -> io::Result<usize>
        ensures { IfOk result (λ n. n ≤ lent) }
    {
        if self.left == 0 {
            if self.fails {
                return Err(io::Error::from(ErrorKind::Other));
            }
            return Ok(0);
        }
        let n = lent.min(2).min(self.left);
        self.left -= n;
        Ok(n)
    }
}

impl Read for Slow {
    fn read(&mut self, buf: &mut [u8]) -> io::Result<usize> {
        let n = self.some(buf.len())?;
        buf[..n].fill(b'x');
        Ok(n)
    }
}

impl Write for Slow {
    fn write(&mut self, buf: &[u8]) -> io::Result<usize> {
        self.some(buf.len())
    }

    fn flush(&mut self) -> io::Result<()> {
        Ok(())
    }
}

#[test]
fn reads_to_the_end_or_the_room(rt: HostRuntime) {
    for (left, fails, failed, len) in [
        (0, false, false, 0),
        (5, false, false, 5),
        (9, false, false, 8),
        (8, true, false, 8),
        (5, true, true, 0),
        (0, true, true, 0),
    ] {
        let mut buf = [0u8; 8];
        let got = read_input(&mut Slow { left, fails }, &mut buf);
        assert_eq!(rt; got.is_err(), failed, "of {left}");
        assert_eq!(rt; got.unwrap_or(0), len, "of {left}");
    }
}

#[test]
fn writes_all_or_says_so(rt: HostRuntime) {
    for (left, fails, written) in [
        (5, false, true),
        (5, true, true),
        (4, true, false),
        (4, false, false),
        (0, true, false),
    ] {
        let mut to = Slow { left, fails };
        assert_eq!(rt;
            emit(&mut to, &b"abcdefg"[..5]).is_ok(),
            written,
            "of {left}"
        );
        assert_eq!(rt; to.left, 0);
    }
    let mut to = Slow {
        left: 0,
        fails: true,
    };
    assert!(rt; emit(&mut to, b"").is_ok());
    report(&mut to, b"nobody hears this\n");
}
