// A call sheet, from bytes to answers: the run, and the entry that hosts in C and Rust link.
#![tactic(auto)]

ghost use Rattle.std.specs.Prelude.{◌≡◌, ◌≤◌, length, []};
ghost use Rattle.forms.specs.Text as text-spec;
ghost use Rattle.book.specs.Session.{leaves};
ghost use Rattle.sheet.specs.Sheet as spec;
ghost use Rattle.sheet.specs.Sheet.{ran};
ghost use Rattle.desk.specs.Positions.{used, SameFrom};
ghost use Rattle.desk.specs.Ran.{refusal_room, printed};

use crate::opening::answer_all;
use forms::text::NEWLINE;
use lit::{ANSWER_ROOM, LONG_SHEET, MAX_SHEET, NONE, SHORT_BUFFER};

pub mod memory;
pub mod opening;

// Runs a sheet: gives the count of bytes written to `out`, or 4294967295 minus refusal 1 or 2. The positions are working memory for the heap,
// which takes its own where they are too few: what those hold afterwards that a session may use is left open, and the others stay as they were.
pub fn run(sheet: &[u8], out: &mut [u8], positions: &mut [u32]) -> u32
    ensures fact { let x = ran sheet.now (length out.old) in (result ≡ spec.result x) × (out.new ≡ text-spec.written 0 (leaves [] x) out.old) }
    ensures fact_2 { let x = ran sheet.now (length out.old) in let before = positions.old in SameFrom (used x (text-spec.lines sheet.now) (length before)) before positions.new }
{
    if sheet.len() > MAX_SHEET as usize {
        return NONE - LONG_SHEET;
    }
    let count = forms::text::occurs(sheet, NEWLINE);
    if out.len() < ANSWER_ROOM as usize * count {
        return NONE - SHORT_BUFFER;
    }
    if count == 0 {
        return 0;
    }
    answer_all(sheet, out, positions, count as u32) as u32
}

// A refusal alone on a line: its digit and a newline.
const REFUSAL_ROOM: u32 = 2;

// Runs a sheet for the program: what it prints stands at the front of `out`, the answers or refusal 1 or 2 alone on a line, and so many bytes. Without
// room for that line nothing is written, and the refusal is told as `run` tells it.
pub fn print(sheet: &[u8], out: &mut [u8], positions: &mut [u32]) -> u32
    ensures fact { let room = length out.old in let x = printed room (ran sheet.now room) in (result ≡ spec.result x) × (out.new ≡ text-spec.written 0 (leaves [] x) out.old) }
    ensures fact_2 { let room = length out.old in (refusal_room ≤ room → result ≤ room) }
    ensures fact_3 { let x = ran sheet.now (length out.old) in let before = positions.old in SameFrom (used x (text-spec.lines sheet.now) (length before)) before positions.new }
{
    let r = run(sheet, out, positions);
    if r < NONE - SHORT_BUFFER {
        return r;
    }
    if out.len() < REFUSAL_ROOM as usize {
        return r;
    }
    out[0] = b'0' + (NONE - r) as u8;
    out[1] = NEWLINE;
    REFUSAL_ROOM
}

// The entry for hosts: as `run`, with no positions lent.
pub fn sigvort_run(sheet: &[u8], out: &mut [u8]) -> u32
    ensures { let x = ran sheet.now (length out.old) in (result ≡ spec.result x) × (out.new ≡ text-spec.written 0 (leaves [] x) out.old) }
{
    let mut none = [NONE; 0];
    run(sheet, out, &mut none)
}
