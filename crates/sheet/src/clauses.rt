// The clause lines with which a sheet begins: each is added to the clause list, or refused, and answered.
ghost use Rattle.std.specs.Prelude.{◌≡◌, true, false, List, ℕ, ◌+◌, ◌*◌, ◌≤◌, ◌<◌, length, take, drop};
ghost use Rattle.std.proofs.Math.Option.{some};
ghost use Rattle.forms.specs.Forms.{Mode, codes_in};
ghost use Rattle.sheet.specs.Running.{lines_from, line_from, line_length, Room, next_clause, ClauseAdded, Slices, Takes, Ready, SoFar};
ghost use Rattle.sheet.specs.Counting.{listed_from, Counted};

use crate::{Place, answer, behind};
use forms::text::NEWLINE;
use lit::Refusal;

// Where a run stands among the clause lines: its place, and the counts of the clause list.
#[derive(Clone, Copy)]
pub struct Section {
    pub place: Place,
    pub literals: u32,
    pub clauses: u32,
}

// Adds a clause of k codes that stand behind the literals, unless the longer list would not be good.
fn add_clause(
    n: u32,
    lits: &[u32],
    ends: &mut [u32],
    s: Section,
    k: usize,
) -> Result<Section, Refusal>
    requires { Slices lits.now ends.old s.literals s.clauses × Takes lits.now ends.old s.literals s.clauses k }
    ensures { (mode : Mode) (codes : List ℕ) → length codes ≡ k → (s.literals + k ≤ length lits.now → take k (drop s.literals lits.now) ≡ codes)
        → ClauseAdded mode n (some codes) lits.now ends.old s result lits.now ends.new }
{
    let from = s.literals as usize;
    if k > lits.len() - from {
        return Err(Refusal::BadClauses);
    }
    if !formula::clause_fits(n, s.clauses, s.literals, &lits[from..from + k]) {
        return Err(Refusal::BadClauses);
    }
    let end = s.literals + k as u32;
    ends[s.clauses as usize] = end;
    Ok(Section {
        literals: end,
        clauses: s.clauses + 1,
        ..s
    })
}

// Adds the clause of a line to the clause list at the front of the slices, unless it is refused.
fn clause_line(
    line: &[u8],
    n: u32,
    lits: &mut [u32],
    ends: &mut [u32],
    s: Section,
) -> Result<Section, Refusal>
    requires { Slices lits.old ends.old s.literals s.clauses × ((k : ℕ) → 2 * k ≤ length line.now → Takes lits.old ends.old s.literals s.clauses k) }
    ensures { (mode : Mode) → ClauseAdded mode n (codes_in line.now) lits.old ends.old s result lits.new ends.new }
{
    let Some(k) = forms::read_codes(line, &mut lits[s.literals as usize..]) else {
        return Err(Refusal::BadLine);
    };
    add_clause(n, lits, ends, s, k)
}

// Whether a clause line comes next.
pub fn next_is_clause(sheet: &[u8], p: Place) -> bool
    requires { (out : List ℕ) × Room sheet.now p out }
    ensures { result ≡ next_clause (lines_from sheet.now p.from) }
{
    let from = p.from;
    p.left > 0 && forms::begins_clause(&sheet[from..])
}

// Reads one clause line: where it ends, and the section with its clause in the list, unless it is refused.
fn read_clause(
    sheet: &[u8],
    n: u32,
    lits: &mut [u32],
    ends: &mut [u32],
    s: Section,
) -> (usize, Result<Section, Refusal>)
    requires { ((out : List ℕ) × Ready n sheet.now s out lits.old ends.old) × (next_clause (lines_from sheet.now s.place.from) ≡ true) }
    ensures end { result.0 ≡ s.place.from + line_length sheet.now s.place.from }
    ensures added { (mode : Mode) → ClauseAdded mode n (codes_in (line_from sheet.now s.place.from)) lits.old ends.old s result.1 lits.new ends.new }
{
    let from = s.place.from;
    let end = from + forms::text::find(&sheet[from..], NEWLINE);
    (end, clause_line(&sheet[from..end], n, lits, ends, s))
}

// Reads one clause line and answers it.
fn clause_step(
    sheet: &[u8],
    out: &mut [u8],
    n: u32,
    lits: &mut [u32],
    ends: &mut [u32],
    s: Section,
) -> Section
    requires { Ready n sheet.now s out.old lits.old ends.old × (next_clause (lines_from sheet.now s.place.from) ≡ true) }
    ensures left_lt_left { result.place.left < s.place.left }
    ensures so_far { SoFar n sheet.now s out.old lits.old ends.old result out.new lits.new ends.new }
{
    let (end, added) = read_clause(sheet, n, lits, ends, s);
    let at = answer(out, s.place.at, s.place.line, added.and(Ok(None)));
    let place = behind(s.place, end, at);
    Section {
        place,
        ..added.unwrap_or(s)
    }
}

// Reads the clause lines and answers them, up to the first line that is none.
pub fn clause_lines(
    sheet: &[u8],
    out: &mut [u8],
    n: u32,
    lits: &mut [u32],
    ends: &mut [u32],
    s: Section,
) -> Section
    requires { Ready n sheet.now s out.old lits.old ends.old }
    ensures from_value { next_clause (lines_from sheet.now result.place.from) ≡ false }
    ensures so_far { SoFar n sheet.now s out.old lits.old ends.old result out.new lits.new ends.new }
{
    let mut u = s;
    while next_is_clause(sheet, u.place) {
        u = clause_step(sheet, out, n, lits, ends, u);
    }
    u
}

// Reads one clause line and does not answer it.
fn count_step(sheet: &[u8], n: u32, lits: &mut [u32], ends: &mut [u32], s: Section) -> Section
    requires { ((out : List ℕ) × Ready n sheet.now s out lits.old ends.old) × (next_clause (lines_from sheet.now s.place.from) ≡ true) }
    ensures left_lt_left { result.place.left < s.place.left }
    ensures by_index { (out : List ℕ) → Ready n sheet.now s out lits.old ends.old
        → Counted n sheet.now out s lits.old ends.old result lits.new ends.new }
{
    let (end, added) = read_clause(sheet, n, lits, ends, s);
    let place = behind(s.place, end, s.place.at);
    Section {
        place,
        ..added.unwrap_or(s)
    }
}

// Counts the literals and the clauses of the list that the clause lines make, and answers none of them.
pub fn count_clauses(
    sheet: &[u8],
    n: u32,
    lits: &mut [u32],
    ends: &mut [u32],
    s: Section,
) -> Section
    requires { (out : List ℕ) × Ready n sheet.now s out lits.old ends.old }
    ensures { let list = listed_from n sheet.now lits.old ends.old s in (result.literals ≡ length list.0) × (result.clauses ≡ length list.1) }
{
    let mut u = s;
    while next_is_clause(sheet, u.place) {
        u = count_step(sheet, n, lits, ends, u);
    }
    u
}
