// A session in list mode on a sheet, which is saved behind the last line.
ghost use Rattle.std.specs.Prelude.{◌≤◌, length};
ghost use Rattle.list_session.specs.Memory.{trail_held, vmtf_held, session_in};
ghost use Rattle.list_saved.specs.Reader.{Savable};
ghost use Rattle.sheet.specs.Stages.{in_list};
ghost use Rattle.sheet.specs.Running.{Room};
ghost use Rattle.saved_sheet.specs.Sheets.{text_room};
ghost use Rattle.saved_run.specs.Ends.{Saves};

use formula::Clauses;
use lines::lines;
use list_saved::saving::put_text;
use list_session::ListSession;
use saved_run::Both;
use sheet::Place;

// Does the lines that are left and answers them, and writes the text of the session that they leave.
pub fn list_done(
    sheet: &[u8],
    out: &mut [u8],
    text: &mut [u8],
    n: u32,
    list: Clauses<'_>,
    session: &mut ListSession<'_>,
    p: Place,
) -> Both
    requires room { Room sheet.now p out.old × (text_room n (length list.ends.now) (length list.lits.now) ≤ length text.old) }
    requires savable { Savable n (list.lits.now, list.ends.now, trail_held session.old, vmtf_held session.old) }
    ensures { let lits = list.entry.lits.now in let ends = list.entry.ends.now in
        Saves sheet.now p (in_list n lits ends (session_in n (length ends) lits session.old)) out.old text.old result out.new text.new }
{
    let answers = lines(sheet, out, n, list, session, p).at;
    let text = put_text(text, n, list, session.view());
    Both { answers, text }
}
