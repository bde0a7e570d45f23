// The program that keeps a session in a file. `carry new FILE` runs the sheet on standard input, prints its answers and saves its session in FILE, which must not
// be there yet. `carry on FILE` does the calls on standard input on the session in FILE, prints the answers and replaces FILE. What goes wrong is told on standard
// error, and then FILE is as it was. docs/SAVED.md has the steps, and what a kill between any two of them leaves.
#![tactic(auto)]

use crate::buffers::{ANSWERS, OLD, SHEET, TEXT, allocated, zeros};
use crate::failure::Failure;
use saved_run::Both;
use std::env::{Env, FillError};

mod buffers;
mod failure;
mod names;
mod reading;
mod saving;

// What a name of a file takes with the 0 that the system puts behind it.
const LONGEST_NAME: usize = 4096;

// What the first word asks for: a new file, or calls on the session of one that is there.
#[derive(Clone, Copy, PartialEq, Eq)]
pub enum Asked {
    New,
    On,
}

impl Asked {
    fn from_word(word: &[u8]) -> Option<Asked> {
        match word {
            b"new" => Some(Asked::New),
            b"on" => Some(Asked::On),
            _ => None,
        }
    }
}

fn main(rt: HostRuntime) {
    let mut name = [0u8; LONGEST_NAME];
    match rt.arg(2, &mut name) {
        Ok(n) if n < LONGEST_NAME => carry(&rt, &name[..n]),
        Ok(_) | Err(FillError::TooLong) => failure::tell(&rt, "FILE", &Failure::LongName),
        Err(FillError::NotPresent) => usage(&rt),
    }
}

// What the words ask for, of a file of this name.
fn carry(rt: &HostRuntime, name: &[u8]) {
    let mut word = [0u8; 4];
    let k = rt.arg(1, &mut word).unwrap_or(0);
    match Asked::from_word(&word[..k]) {
        Some(asked) if !name.is_empty() && !has_more(rt) => {
            match str::from_utf8(name) {
                Ok(file) => {
                    if let Err(why) = run(rt, file, asked) {
                        failure::tell(rt, file, &why);
                    }
                }
                Err(_) => failure::tell(rt, "FILE", &Failure::NameNotText),
            }
        }
        _ => usage(rt),
    }
}

// Whether words stand behind the name of the file.
fn has_more(rt: &HostRuntime) -> bool {
    let mut word = [0u8; 1];
    !matches!(rt.arg(3, &mut word), Err(FillError::NotPresent))
}

fn usage(rt: &HostRuntime) {
    let _ = rt.eprintln("usage: carry new FILE < SHEET\n       carry on FILE < CALLS");
}

fn run(rt: &HostRuntime, file: &str, asked: Asked) -> Result<(), Failure> {
    match asked {
        Asked::New => {
            names::check_free(rt, file)?;
            run_new(rt, file)
        }
        Asked::On => run_on(rt, file),
    }
}

// `carry new FILE`, where the name is free. Without memory for the buffers nothing is read. It stands alone, so that what needs no buffers takes no stack for them.
#[inline(never)]
fn run_new(rt: &HostRuntime, file: &str) -> Result<(), Failure> {
    let mut sheet = zeros::<SHEET>();
    let mut answers = allocated::<ANSWERS>(rt.alloc())?;
    let mut text = zeros::<TEXT>();
    let n = reading::read_sheet(rt, &mut sheet)?;
    let both = saved_desk::run_new(&sheet[..n], &mut answers, &mut text).map_err(Failure::Refused)?;
    finish(rt, file, Asked::New, both, &answers, &text)
}

// `carry on FILE`, in the same way.
#[inline(never)]
fn run_on(rt: &HostRuntime, file: &str) -> Result<(), Failure> {
    let mut old = allocated::<OLD>(rt.alloc())?;
    let mut sheet = zeros::<SHEET>();
    let mut answers = allocated::<ANSWERS>(rt.alloc())?;
    let mut text = zeros::<TEXT>();
    let m = reading::read_file(rt, file, &mut old)?;
    let n = reading::read_sheet(rt, &mut sheet)?;
    let both = saved_desk::run_on(&old[..m], &sheet[..n], &mut answers, &mut text).map_err(
        Failure::Refused,
    )?;
    finish(rt, file, Asked::On, both, &answers, &text)
}

// What follows a run that is not refused: its answers are printed, and then its text is saved.
fn finish(
    rt: &HostRuntime,
    file: &str,
    asked: Asked,
    both: Both,
    answers: &[u8],
    text: &[u8],
) -> Result<(), Failure> {
    let k = answers.len().min(both.answers);
    rt.write_all(&answers[..k]).map_err(Failure::NotPrinted)?;
    if both.text == 0 {
        return Err(Failure::NoSession);
    }
    let n = text.len().min(both.text);
    saving::save(rt, file, &text[..n], asked)
}
