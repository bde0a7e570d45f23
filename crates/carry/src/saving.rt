// Saving a text in a file: it is written aside, reaches the disk, and takes the file's name. Where a step fails, that is told, the file aside is removed, and the
// file is as it was; but what closing the file aside answers is not known: its text is on the disk by then.
use crate::failure::Failure;
use crate::{Asked, failure, names};
use std::fs::{File, OpenOptions, Permissions};
use std::io::Write;
use std::os::unix::fs::{MetadataExt, PermissionsExt, fchown};
use std::{fs, io};

// Saves the text in the file, a new one or in place of the old one. Fails where no file aside is made; what fails behind that is told here, before the file aside
// is removed.
pub fn save(rt: &HostRuntime, file: &str, text: &[u8], asked: Asked) -> Result<(), Failure> {
    let name = names::aside(rt, file)?;
    let aside = name.as_str();
    let made = OpenOptions::new()
        .write(true)
        .create_new(true)
        .open(rt, aside)
        .map_err(Failure::NotSaved)?;
    match replace(rt, file, aside, made, text, asked) {
        Ok(()) => sync_folder(rt, file),
        Err(why) => {
            failure::tell(rt, file, &why);
            let _ = fs::remove_file(rt, aside);
        }
    }
    Ok(())
}

// Fills the file aside, which is new and open, and closes it; then it takes the file's name.
fn replace(
    rt: &HostRuntime,
    file: &str,
    aside: &str,
    made: File,
    text: &[u8],
    asked: Asked,
) -> Result<(), Failure> {
    fill(rt, file, made, text, asked).map_err(Failure::NotSaved)?;
    take_name(rt, file, aside, asked)
}

// Gives the file aside the text, and before it the permissions of the old file, where there is one, and waits until all of it has reached the disk.
fn fill(rt: &HostRuntime, file: &str, mut made: File, text: &[u8], asked: Asked) -> io::Result<()> {
    if asked == Asked::On {
        allow_as(rt, file, &made)?;
    }
    made.write_all(text)?;
    made.sync_all()
}

// Gives the file aside the permissions of the old one, and its owner and group where the system allows that, or the group alone.
fn allow_as(rt: &HostRuntime, file: &str, made: &File) -> io::Result<()> {
    let old = File::open(rt, file)?.metadata()?;
    let group = Some(old.gid());
    if fchown(made, Some(old.uid()), group).is_err() {
        let _ = fchown(made, None, group);
    }
    made.set_permissions(Permissions::from_mode(old.mode() % 0o1000))
}

// Gives the file aside the file's name. For a new file the name has to be free still; no call of std looks and renames at once.
fn take_name(rt: &HostRuntime, file: &str, aside: &str, asked: Asked) -> Result<(), Failure> {
    if asked == Asked::New {
        names::check_free(rt, file)?;
    }
    fs::rename(rt, aside, file).map_err(Failure::NotSaved)
}

// Asks that the name reaches the disk too. The file is whole whether it does or not.
fn sync_folder(rt: &HostRuntime, file: &str) {
    if let Ok(folder) = File::open(rt, names::folder(file)) {
        let _ = folder.sync_all();
    }
}
