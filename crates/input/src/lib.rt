// Reading an input to its end, into a buffer.
#![tactic(auto)]

ghost use Rattle.std.specs.Prelude.{◌<◌, length, take, IfOk};
ghost use Rattle.input.specs.Counts.{IsPrefixLen, count};
ghost use Rattle.std.specs.Io.KnownBytes.{Consumes, IsAtEnd};

use std::io;
use std::io::Read;

// A read that failed, behind so many bytes.
#[derive(Clone, Copy, Debug)]
pub struct CutOff {
    pub len: usize,
    pub error: io::Error,
}

impl From<CutOff> for io::Error {
    fn from(cut: CutOff) -> io::Error {
        cut.error
    }
}

// Reads until the input ends, a read fails or the buffer is full, and says how many bytes came. They are the next ones of the input, in their order, also where a
// read failed. Where none failed and there is room left, the input is at its end.
pub fn read_all<R: Read>(from: &mut R, buf: &mut [u8]) -> Result<usize, CutOff>
    ensures within { IsPrefixLen (count result) buf.new }
    ensures bytes { Consumes (R.remaining from.old) (R.remaining from.new) (take (count result) buf.new) }
    ensures whole { IfOk result (λ n. n < length buf.new → IsAtEnd (R.remaining from.new)) }
{
    let mut len = 0;
    // a while: how much a read brings is known behind it
    while len < buf.len() {
        match from.read(&mut buf[len..]) {
            Ok(0) => return Ok(len),
            Ok(more) => len += more,
            Err(error) => return Err(CutOff { len, error }),
        }
    }
    Ok(len)
}
