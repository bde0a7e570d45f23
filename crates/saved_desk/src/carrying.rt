// A sheet of calls on a saved session, in the mode of its text.
ghost use Rattle.std.specs.Prelude.{map, length};
ghost use Rattle.forms.specs.Text as text-spec;
ghost use Rattle.forms.specs.Forms.{call_in};
ghost use Rattle.sheet.specs.Running.{Room};
ghost use Rattle.sheet.specs.Opening.{at_first};
ghost use Rattle.saved_sheet.specs.Sheets.{held_in, carried_on};
ghost use Rattle.saved_run.specs.Outcomes.{Comes};

use forms::Mode;
use heap_desk::loaded::heap_on;
use list_desk::loaded::list_on;
use lit::Refusal;
use saved_run::Both;
use saved_text::form::{Opened, opening};

// Does the calls of a sheet of so many lines on the session that a text says, in the mode that it names.
pub fn on_text(
    old: &[u8],
    sheet: &[u8],
    out: &mut [u8],
    text: &mut [u8],
    count: u32,
) -> Result<Both, Refusal>
    requires { Room sheet.now (at_first count) out.old }
    ensures { let x = carried_on (length text.old) (map call_in (text-spec.lines sheet.now)) (held_in old.now) in Comes x out.old text.old result out.new text.new }
{
    match opening(old) {
        Some(Opened { mode, n, at }) => match mode {
            Mode::Heap => heap_on(old, at, n, sheet, out, text, count),
            Mode::List => list_on(old, at, n, sheet, out, text, count),
        },
        None => Err(Refusal::BadSaved),
    }
}
