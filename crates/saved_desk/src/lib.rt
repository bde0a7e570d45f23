// Sheets with saved sessions, from bytes to bytes: a sheet whose session is saved at its end, and a sheet of calls on a saved session, and the two of them whose counts have 32 bits, as hosts in C and Rust take them.
#![tactic(auto)]

ghost use Rattle.std.specs.Prelude.{length};
ghost use Rattle.saved_sheet.specs.Sheets.{ran_new, ran_on};
ghost use Rattle.saved_run.specs.Outcomes.{Comes};
ghost use Rattle.saved_desk.specs.Outcomes.{Gives};

use crate::carrying::on_text;
use crate::opening::from_first;
use forms::text::NEWLINE;
use lit::{ANSWER_ROOM, MAX_SHEET, NONE, Refusal};
use saved_run::Both;

pub mod carrying;
pub mod opening;

// Runs a sheet, and writes the text of its session as it is at the end. Without a session there is no text.
pub fn run_new(sheet: &[u8], answers: &mut [u8], text: &mut [u8]) -> Result<Both, Refusal>
    ensures { let x = ran_new sheet.now (length answers.old) (length text.old) in Comes x answers.old text.old result answers.new text.new }
{
    if sheet.len() > MAX_SHEET as usize {
        return Err(Refusal::LongSheet);
    }
    let count = forms::text::occurs(sheet, NEWLINE);
    if answers.len() < ANSWER_ROOM as usize * count {
        return Err(Refusal::ShortBuffer);
    }
    if count == 0 {
        return Ok(Both {
            answers: 0,
            text: 0,
        });
    }
    from_first(sheet, answers, text, count as u32)
}

// Does the calls of a sheet on the session that a text says, and writes the text of the session that they leave.
pub fn run_on(
    old: &[u8],
    sheet: &[u8],
    answers: &mut [u8],
    text: &mut [u8],
) -> Result<Both, Refusal>
    ensures { let x = ran_on old.now sheet.now (length answers.old) (length text.old) in Comes x answers.old text.old result answers.new text.new }
{
    if sheet.len() > MAX_SHEET as usize {
        return Err(Refusal::LongSheet);
    }
    let count = forms::text::occurs(sheet, NEWLINE);
    if answers.len() < ANSWER_ROOM as usize * count {
        return Err(Refusal::ShortBuffer);
    }
    on_text(old, sheet, answers, text, count as u32)
}

// The entry for hosts of `run_new`: gives the count of bytes written to `answers`, or 4294967295 minus the refusal, and tells that of the text. Refused, nothing changes.
pub fn sigvort_run_new(sheet: &[u8], answers: &mut [u8], text: &mut [u8], written: &mut u32) -> u32
    ensures { let x = ran_new sheet.now (length answers.old) (length text.old) in Gives x answers.old text.old written.old result answers.new text.new written.new }
{
    let r = run_new(sheet, answers, text);
    match r {
        Ok(b) => {
            *written = b.text as u32;
            b.answers as u32
        }
        Err(e) => NONE - e.number(),
    }
}

// The entry for hosts of `run_on`, in the same way.
pub fn sigvort_run_on(
    old: &[u8],
    sheet: &[u8],
    answers: &mut [u8],
    text: &mut [u8],
    written: &mut u32,
) -> u32
    ensures { let x = ran_on old.now sheet.now (length answers.old) (length text.old) in Gives x answers.old text.old written.old result answers.new text.new written.new }
{
    let r = run_on(old, sheet, answers, text);
    match r {
        Ok(b) => {
            *written = b.text as u32;
            b.answers as u32
        }
        Err(e) => NONE - e.number(),
    }
}
