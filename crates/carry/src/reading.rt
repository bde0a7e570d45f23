// Reading a file or the standard input to its end, into a buffer: how many bytes came.
ghost use Rattle.std.specs.Prelude.{IfOk};
ghost use Rattle.input.specs.Counts.{IsPrefixLen};

use crate::failure::Failure;
use std::fs::File;

// Reads the sheet.
pub fn read_sheet(rt: &HostRuntime, sheet: &mut [u8]) -> Result<usize, Failure>
    ensures { IfOk result (λ n. IsPrefixLen n sheet.new) }
{
    match input::read_all(&mut rt.stdin(), sheet) {
        Ok(n) => Ok(n),
        Err(cut) => Err(Failure::InputNotRead(cut.error)),
    }
}

// Reads the file, which has to leave room in the buffer.
pub fn read_file(rt: &HostRuntime, file: &str, text: &mut [u8]) -> Result<usize, Failure>
    ensures { IfOk result (λ n. IsPrefixLen n text.new) }
{
    let mut from = File::open(rt, file).map_err(Failure::FileNotRead)?;
    match input::read_all(&mut from, text) {
        Ok(n) if n < text.len() => Ok(n),
        Ok(_) => Err(Failure::LongFile),
        Err(cut) => Err(Failure::FileNotRead(cut.error)),
    }
}
