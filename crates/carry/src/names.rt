// Names of files: whether one is free, the one that a file has aside, and the folder in it.
ghost use Rattle.std.specs.Prelude.{IfOk, string_bytes};
ghost use Rattle.carry.specs.Names.{IsAside, IsFolder, AreLetters};

use crate::failure::Failure;
use std::alloc::AllocError;
use std::fs;
use std::io::ErrorKind;
use std::random::RandomSource;

// Whether nothing has the name, not even a link that leads nowhere: reading a link follows none, and tells what is no link from what is not there. Fails where the
// name is taken, or where that cannot be found out.
pub fn check_free(rt: &HostRuntime, file: &str) -> Result<(), Failure> {
    match fs::read_link(rt, file) {
        Ok(_) => Err(Failure::Taken),
        Err(e) => match e.kind() {
            ErrorKind::NotFound => Ok(()),
            // it is no link
            ErrorKind::InvalidInput => Err(Failure::Taken),
            // it is a link, whose text is not UTF-8: the system itself found nothing wrong
            ErrorKind::InvalidFilename if e.raw_os_error().is_none() => Err(Failure::Taken),
            _ => Err(Failure::NotSaved(e)),
        },
    }
}

// The name of the file aside: the file's, a dot, eight letters and `.part`.
pub fn aside(rt: &HostRuntime, file: &str) -> Result<String, AllocError>
    ensures { IfOk result (λ name. IsAside file.now (string_bytes name)) }
{
    let drawn = letters(rt);
    let mut name = String::from_str(rt.alloc(), file)?;
    name.push('.')?;
    for letter in drawn {
        name.push(char::from(letter))?;
    }
    name.push_str(".part")?;
    Ok(name)
}

// Eight letters, drawn anew in each run. Without random bytes they are always the same; a name that is taken then is told, and nothing is saved.
fn letters(rt: &HostRuntime) -> [u8; 8]
    ensures { AreLetters 8 result }
{
    let mut drawn = [0u8; 8];
    let _ = rt.fill_bytes(&mut drawn);
    drawn.map(|byte| b'a' + byte % 26)
}

// The folder in a name: what stands up to its last slash, or `.` where it has none.
pub fn folder(file: &str) -> &str
    ensures { IsFolder file.now result.now }
{
    match file.rfind('/') {
        Some(at) => &file[..at + 1],
        None => ".",
    }
}
