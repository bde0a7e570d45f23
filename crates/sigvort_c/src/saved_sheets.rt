// Sheets with saved sessions, from bytes to bytes.
ghost use Rattle.std.specs.Prelude.{length};
ghost use Rattle.saved_sheet.specs.Sheets.{ran_new, ran_on};
ghost use Rattle.saved_desk.specs.Outcomes.{Gives};

// The entry for hosts of `run_new`: gives the count of bytes written to `answers`, or 4294967295 minus the refusal, and tells that of the text. Refused, nothing changes.
#[unsafe(no_mangle)]
pub extern "C" fn sigvort_run_new(
    sheet: &[u8],
    answers: &mut [u8],
    text: &mut [u8],
    written: &mut u32,
) -> u32
    ensures { let x = ran_new sheet.now (length answers.old) (length text.old) in Gives x answers.old text.old written.old result answers.new text.new written.new }
{
    saved_desk::sigvort_run_new(sheet, answers, text, written)
}

// The entry for hosts of `run_on`, in the same way.
#[unsafe(no_mangle)]
pub extern "C" fn sigvort_run_on(
    old: &[u8],
    sheet: &[u8],
    answers: &mut [u8],
    text: &mut [u8],
    written: &mut u32,
) -> u32
    ensures { let x = ran_on old.now sheet.now (length answers.old) (length text.old) in Gives x answers.old text.old written.old result answers.new text.new written.new }
{
    saved_desk::sigvort_run_on(old, sheet, answers, text, written)
}
