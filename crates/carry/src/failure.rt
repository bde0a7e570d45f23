// Why a run saves nothing, and how that is told on standard error: in a line that begins with the program's name, and then says of which file it is.
use lit::Refusal;
use std::alloc::AllocError;
use std::fmt::Display;
use std::{fmt, io};

#[derive(Clone, Copy)]
pub enum Failure {
    LongName,
    NameNotText,
    // a new file's name is that of a file already
    Taken,
    FileNotRead(io::Error),
    LongFile,
    InputNotRead(io::Error),
    // of the sheet, or of the file's text
    Refused(Refusal),
    NotPrinted(io::Error),
    // the sheet has none, so there is nothing to save
    NoSession,
    NotSaved(io::Error),
}

impl Failure {
    // Which file it is of.
    fn subject<'a>(&self, file: &'a str) -> &'a str {
        match self {
            Failure::LongName | Failure::NameNotText => "FILE",
            Failure::InputNotRead(_)
            | Failure::Refused(Refusal::LongSheet | Refusal::ShortBuffer) => "standard input",
            Failure::NotPrinted(_) => "standard output",
            _ => file,
        }
    }
}

// Without memory nothing is saved.
impl From<AllocError> for Failure {
    fn from(e: AllocError) -> Failure {
        Failure::NotSaved(io::Error::from(e))
    }
}

impl Display for Failure {
    fn fmt<W: fmt::Write>(&self, f: &mut fmt::Formatter<W>) -> fmt::Result {
        match self {
            Failure::LongName => f.write_str("the name is too long"),
            Failure::NameNotText => f.write_str("the name is not UTF-8"),
            Failure::Taken => f.write_str("not saved: it is there already"),
            Failure::FileNotRead(e) | Failure::InputNotRead(e) => write!(f, "not read: {e}"),
            Failure::LongFile => f.write_str(
                "not read: longer than 1,048,576 bytes, which no session of this release needs",
            ),
            Failure::Refused(refusal) => {
                let number = refusal.number();
                let why = sentence(*refusal);
                write!(f, "refused with {number}: {why}")
            }
            Failure::NotPrinted(e) => write!(f, "not written, and nothing is saved: {e}"),
            Failure::NoSession => f.write_str("not saved: the sheet opens no session"),
            Failure::NotSaved(e) => write!(f, "not saved: {e}"),
        }
    }
}

fn sentence(refusal: Refusal) -> &'static str {
    match refusal {
        Refusal::LongSheet => "a sheet has at most 32,768 bytes",
        Refusal::ShortBuffer => "a buffer is too short",
        Refusal::ManyVars => "more than 2,048 variables",
        Refusal::BadClauses =>
            "more than 2,048 clauses or 8,192 literals, or a literal of a variable that is not there",
        Refusal::BadState => "not a good session",
        _ => "not a saved session: a line is missing, out of its place or not of its form",
    }
}

// Tells it. Where the system failed, the line ends in the system's words; without memory to look for them they stand before the error's number.
pub fn tell(rt: &HostRuntime, file: &str, why: &Failure) {
    let subject = why.subject(file);
    match format!(in rt.alloc(); "{why}") {
        Ok(said) => {
            let words = words_of(said.as_str());
            let _ = eprintln!(rt; "carry: {subject}: {words}");
        }
        Err(_) => {
            let _ = eprintln!(rt; "carry: {subject}: {why}");
        }
    }
}

// What is said without the error's number, in which the system's words end.
fn words_of(said: &str) -> &str {
    match said.split_once(" (os error ") {
        Some((words, _)) => words,
        None => said,
    }
}
