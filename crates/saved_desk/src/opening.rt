// A sheet whose session is saved at its end, from its first line on: room for the text is judged before anything is written.
ghost use Rattle.std.specs.Prelude.{◌≡◌, false, List, [], ℕ, ◌+◌, ◌*◌, ◌≤◌, ◌<◌, leb, length, Ok};
ghost use Rattle.std.proofs.Math.Option.{none, some};
ghost use Rattle.lit.specs.Numbers as number;
ghost use Rattle.lit.specs.Refusals.{refusal_number};
ghost use Rattle.formula.specs.Good.{GoodClauses};
ghost use Rattle.book.specs.Session.{done};
ghost use Rattle.forms.specs.Text as text-spec;
ghost use Rattle.sheet.specs.Sheet as spec;
ghost use Rattle.sheet.specs.Stages.{opened};
ghost use Rattle.sheet.specs.Running.{lines_from, line_length, after, next_clause, Room, Holds, Ready};
ghost use Rattle.sheet.specs.Opening.{mode_of, opening_at, at_first};
ghost use Rattle.saved_sheet.specs.Sheets.{text_room, held_by, with_text_of};
ghost use Rattle.saved_run.specs.Outcomes.{Comes};
ghost use Rattle.saved_run.specs.Ends.{Saves};
ghost use Rattle.saved_desk.specs.New.{room_behind, new_behind, new_first};

use forms::text::NEWLINE;
use forms::{Mode, Opening};
use formula::Clauses;
use heap_desk::fresh::heap_new;
use list_desk::fresh::list_new;
use lit::{MAX_VARS, Refusal};
use saved_run::{ALL_CLAUSES, ALL_LITERALS, Both};
use saved_state::saving::longest;
use sheet::clauses::{Section, clause_lines, count_clauses, next_is_clause};
use sheet::{Place, answer, behind};

// The session's lines, in heap or in list mode, and its text.
fn session(
    sheet: &[u8],
    out: &mut [u8],
    text: &mut [u8],
    o: Opening,
    list: Clauses<'_>,
    p: Place,
) -> Both
    requires { Room sheet.now p out.old × (o.vars ≤ number.max_vars) × GoodClauses o.vars list.lits.now list.ends.now × (text_room o.vars (length list.ends.now) (length list.lits.now) ≤ length text.old) }
    ensures { Saves sheet.now p (opened (mode_of o.mode) o.vars list.entry.lits.now list.entry.ends.now) out.old text.old result out.new text.new }
{
    match o.mode {
        Mode::Heap => heap_new(sheet, out, text, o.vars, list, p),
        Mode::List => list_new(sheet, out, text, o.vars, list, p),
    }
}

// The place behind the first of so many lines, which ends at `end` and is answered up to `at`.
fn second(count: u32, end: usize, at: usize) -> Place
    requires { (0 < count) × (end < number.max_sheet) }
    ensures { result ≡ after (at_first count) end at }
{
    let first = Place {
        from: 0,
        left: count,
        line: 1,
        at: 0,
    };
    behind(first, end, at)
}

// Whether there is room for the text of the session that the lines from a place on make. Where any session over n variables has room, the clause lines are not counted.
fn text_fits(
    sheet: &[u8],
    n: u32,
    lits: &mut [u32],
    ends: &mut [u32],
    p: Place,
    space: usize,
) -> bool
    requires { (n ≤ number.max_vars) × ((out : List ℕ) × Ready n sheet.now (record { place = p; literals = 0; clauses = 0 }) out lits.old ends.old) }
    ensures { result ≡ leb (room_behind n (lines_from sheet.now p.from)) space }
{
    if longest(n, ALL_CLAUSES, ALL_LITERALS) <= space {
        return true;
    }
    let s = count_clauses(
        sheet,
        n,
        lits,
        ends,
        Section {
            place: p,
            literals: 0,
            clauses: 0,
        },
    );
    longest(n, s.clauses as usize, s.literals as usize) <= space
}

// The lines behind an accepted first line, with slices for the clauses.
fn with_clauses(
    sheet: &[u8],
    out: &mut [u8],
    text: &mut [u8],
    count: u32,
    end: usize,
    o: Opening,
    lits: &mut [u32],
    ends: &mut [u32],
) -> Result<Both, Refusal>
    requires room { Room sheet.now (at_first count) out.old × (0 < count) × (end ≡ line_length sheet.now 0) × (o.vars ≤ number.max_vars) }
    requires holds { Holds sheet.now lits.old ends.old × (length lits.old ≤ number.max_literals) }
    ensures { let x = new_behind (length text.old) (opening_at o.mode o.vars) (lines_from sheet.now (end + 1)) in Comes x out.old text.old result out.new text.new }
{
    let space = text.len();
    let unanswered = second(count, end, 0);
    if !text_fits(sheet, o.vars, lits, ends, unanswered, space) {
        return Err(Refusal::ShortBuffer);
    }
    let at = answer(out, 0, 1, Ok(None));
    let p = second(count, end, at);
    let s = clause_lines(
        sheet,
        out,
        o.vars,
        lits,
        ends,
        Section {
            place: p,
            literals: 0,
            clauses: 0,
        },
    );
    let list = Clauses {
        lits: &lits[..s.literals as usize],
        ends: &ends[..s.clauses as usize],
    };
    Ok(session(sheet, out, text, o, list, s.place))
}

// The same with room for so many literals and clauses.
fn clauses_in<const LITERALS: usize, const CLAUSES: usize>(
    sheet: &[u8],
    out: &mut [u8],
    text: &mut [u8],
    count: u32,
    end: usize,
    o: Opening,
) -> Result<Both, Refusal>
    requires sizes { (LITERALS ≤ number.max_literals) × (CLAUSES ≤ number.max_clauses) }
    requires room { Room sheet.now (at_first count) out.old × (0 < count) × (end ≡ line_length sheet.now 0) × (o.vars ≤ number.max_vars) }
    requires literals { (k : ℕ) → k ≤ number.max_literals → 2 * k ≤ length sheet.now → k ≤ LITERALS }
    requires clauses { (k : ℕ) → k ≤ number.max_clauses → 2 * k ≤ length sheet.now → k ≤ CLAUSES }
    ensures { let x = new_behind (length text.old) (opening_at o.mode o.vars) (lines_from sheet.now (end + 1)) in Comes x out.old text.old result out.new text.new }
{
    let mut lits = [0u32; LITERALS];
    let mut ends = [0u32; CLAUSES];
    with_clauses(sheet, out, text, count, end, o, &mut lits, &mut ends)
}

// The lines behind an accepted first line where no clause line comes next. The slices for clauses are not set up.
fn without_clauses(
    sheet: &[u8],
    out: &mut [u8],
    text: &mut [u8],
    count: u32,
    end: usize,
    o: Opening,
) -> Result<Both, Refusal>
    requires room { Room sheet.now (at_first count) out.old × (0 < count) × (end ≡ line_length sheet.now 0) × (o.vars ≤ number.max_vars) }
    requires end_value { next_clause (lines_from sheet.now (end + 1)) ≡ false }
    ensures { let x = new_behind (length text.old) (opening_at o.mode o.vars) (lines_from sheet.now (end + 1)) in Comes x out.old text.old result out.new text.new }
{
    if text.len() < longest(o.vars, 0, 0) {
        return Err(Refusal::ShortBuffer);
    }
    let at = answer(out, 0, 1, Ok(None));
    let p = second(count, end, at);
    let none = Clauses {
        lits: &[],
        ends: &[],
    };
    Ok(session(sheet, out, text, o, none, p))
}

// Answers a first line that is refused: the run ends, and there is no text.
fn refused_first(out: &mut [u8], e: Refusal) -> Both
    requires { number.answer_room ≤ length out.old }
    ensures { (text : List ℕ) → Comes (done none (spec.answer_line 1 (refusal_number e) none, [])) out.old text (Ok result) out.new text }
{
    Both {
        answers: answer(out, 0, 1, Err(e)),
        text: 0,
    }
}

// A short sheet has at most so many bytes. A literal takes two at least, and so does a clause line.
const SHORT: usize = 1024;

const SHORT_CLAUSES: usize = SHORT / 2;

// Answers a first line that has its form and ends at `end`: refusal 4 alone, or the session with the lines behind it, and its text.
fn open(
    sheet: &[u8],
    out: &mut [u8],
    text: &mut [u8],
    count: u32,
    end: usize,
    o: Opening,
) -> Result<Both, Refusal>
    requires { Room sheet.now (at_first count) out.old × (0 < count) × (end ≡ line_length sheet.now 0) }
    ensures { let x = new_first (length text.old) (spec.opening (some (opening_at o.mode o.vars))) (lines_from sheet.now (end + 1)) in Comes x out.old text.old result out.new text.new }
{
    if o.vars > MAX_VARS {
        return Ok(refused_first(out, Refusal::ManyVars));
    }
    let p = second(count, end, 0);
    if !next_is_clause(sheet, p) {
        return without_clauses(sheet, out, text, count, end, o);
    }
    if sheet.len() <= SHORT {
        return clauses_in::<SHORT_CLAUSES, SHORT_CLAUSES>(sheet, out, text, count, end, o);
    }
    clauses_in::<ALL_LITERALS, ALL_CLAUSES>(sheet, out, text, count, end, o)
}

// Runs a sheet of so many lines.
pub fn from_first(
    sheet: &[u8],
    out: &mut [u8],
    text: &mut [u8],
    count: u32,
) -> Result<Both, Refusal>
    requires { Room sheet.now (at_first count) out.old × (0 < count) }
    ensures { let ls = text-spec.lines sheet.now in let x = with_text_of (length text.old) (spec.answered ls) (held_by ls) in Comes x out.old text.old result out.new text.new }
{
    let end = forms::text::find(sheet, NEWLINE);
    match forms::read_first(&sheet[..end]) {
        None => Ok(refused_first(out, Refusal::BadLine)),
        Some(o) => open(sheet, out, text, count, end, o),
    }
}
