// Sheets of the reference: runs those on standard input, each ended by a byte 0, and writes what the program prints for each, and an empty line behind it. The sheets and
// what is expected here (`stdin`, `stdout`) are a sample of the reference in tests/reference.
#![tactic(auto)]

use lit::NONE;
use std::io;

// Runs one sheet.
fn one(rt: &impl Print, sheet: &[u8]) -> io::Result<()> {
    let mut answers = [0u8; 65536];
    let mut positions = [NONE; 2048];
    let k = desk::print(sheet, &mut answers, &mut positions) as usize;
    rt.write_all(&answers[..k])?;
    rt.write_all(b"\n")
}

// Runs one sheet after the other.
fn all(rt: &impl Print, sheets: &[u8]) -> io::Result<()> {
    for sheet in sheets.split_inclusive(|b| *b == 0) {
        one(rt, sheet.strip_suffix(b"\0").unwrap_or(sheet))?;
    }
    Ok(())
}

fn main(rt: HostRuntime) -> io::Result<()> {
    let mut sheets = [0u8; 65536];
    let n = input::read_all(&mut rt.stdin(), &mut sheets)?;
    all(&rt, &sheets[..n])
}
