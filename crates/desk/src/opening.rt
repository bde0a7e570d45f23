// The answers to a call sheet, from its first line on.
ghost use Rattle.std.specs.Prelude.{◌≡◌, ◌+◌, ◌<◌, length};
ghost use Rattle.std.proofs.Math.Option.{some};
ghost use Rattle.forms.specs.Text as text-spec;
ghost use Rattle.sheet.specs.Sheet.{opening, answered};
ghost use Rattle.sheet.specs.Stages.{started};
ghost use Rattle.forms.specs.Written.{Wrote};
ghost use Rattle.sheet.specs.Running.{lines_from, line_length, Room};
ghost use Rattle.sheet.specs.Opening.{opening_at, at_first};
ghost use Rattle.desk.specs.Positions.{used_by, used_on, SameFrom};

use forms::Opening;
use forms::text::NEWLINE;
use lit::{MAX_VARS, Refusal};
use sheet::{Place, answer, behind};

// Answers a first line that has its form and ends at `end`: refusal 4, or the session with the lines behind it.
fn open(
    sheet: &[u8],
    out: &mut [u8],
    positions: &mut [u32],
    count: u32,
    end: usize,
    o: Opening,
) -> usize
    requires { Room sheet.now (at_first count) out.old × (0 < count) × (end ≡ line_length sheet.now 0) }
    ensures wrote { Wrote 0 (started (opening (some (opening_at o.mode o.vars))) (lines_from sheet.now (end + 1))) out.old out.new result }
    ensures same_from { SameFrom (used_by (some (opening_at o.mode o.vars)) (length positions.old)) positions.old positions.new }
{
    if o.vars > MAX_VARS {
        return answer(out, 0, 1, Err(Refusal::ManyVars));
    }
    let at = answer(out, 0, 1, Ok(None));
    let first = Place {
        from: 0,
        left: count,
        line: 1,
        at: 0,
    };
    let p = behind(first, end, at);
    crate::memory::with_positions(sheet, out, positions, o, p)
}

// Answers a sheet of so many lines, and gives the count of bytes.
pub fn answer_all(sheet: &[u8], out: &mut [u8], positions: &mut [u32], count: u32) -> usize
    requires { Room sheet.now (at_first count) out.old × (0 < count) }
    ensures wrote { Wrote 0 (answered (text-spec.lines sheet.now)) out.old out.new result }
    ensures same_from { SameFrom (used_on (text-spec.lines sheet.now) (length positions.old)) positions.old positions.new }
{
    let end = forms::text::find(sheet, NEWLINE);
    match forms::read_first(&sheet[..end]) {
        None => answer(out, 0, 1, Err(Refusal::BadLine)),
        Some(o) => open(sheet, out, positions, count, end, o),
    }
}
