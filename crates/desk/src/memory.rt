// The lines of a call sheet behind the first: the clause lines, then the session's, in the mode that the first line names.
ghost use Rattle.std.specs.Prelude.{◌≡◌, false, ℕ, [], ◌+◌, ◌*◌, ◌≤◌, length};
ghost use Rattle.std.proofs.Math.Option.{some};
ghost use Rattle.lit.specs.Numbers as number;
ghost use Rattle.formula.specs.Good.{GoodClauses};
ghost use Rattle.sheet.specs.Stages.{reading, opened};
ghost use Rattle.sheet.specs.Running.{lines_from, next_clause, Room, Holds, Ended};
ghost use Rattle.sheet.specs.Opening.{mode_of, opening_at};
ghost use Rattle.desk.specs.Memory.{short, few_vars};
ghost use Rattle.desk.specs.Positions.{needed, used_by, SameFrom};

use forms::{Mode, Opening};
use formula::Clauses;
use lit::{MAX_CLAUSES, MAX_LITERALS, MAX_VARS, NONE};
use sheet::Place;
use sheet::clauses::{Section, clause_lines, next_is_clause};

// The session's lines.
fn session_lines(
    sheet: &[u8],
    out: &mut [u8],
    positions: &mut [u32],
    o: Opening,
    list: Clauses<'_>,
    p: Place,
) -> usize
    requires room { Room sheet.now p out.old × (o.vars ≤ number.max_vars) × GoodClauses o.vars list.lits.now list.ends.now }
    requires positions { needed (mode_of o.mode) o.vars ≤ length positions.old }
    ensures { Ended sheet.now p (opened (mode_of o.mode) o.vars list.entry.lits.now list.entry.ends.now) out.old result out.new }
{
    match o.mode {
        Mode::Heap => heap_sheet::answer_lines(sheet, out, positions, o.vars, list, p),
        Mode::List => list_sheet::answer_lines(sheet, out, o.vars, list, p),
    }
}

// How many variables are few in a mode.
fn few_vars(mode: Mode) -> usize
    ensures { result ≡ few_vars mode }
{
    match mode {
        Mode::Heap => heap_sheet::FEW,
        Mode::List => list_sheet::FEW,
    }
}

// The same with few variables. The shortest runs have this way to themselves, with none of the long arrays of a session.
fn few_lines(
    sheet: &[u8],
    out: &mut [u8],
    positions: &mut [u32],
    o: Opening,
    list: Clauses<'_>,
    p: Place,
) -> usize
    requires room { Room sheet.now p out.old × (o.vars ≤ few_vars o.mode) × GoodClauses o.vars list.lits.now list.ends.now }
    requires positions { needed (mode_of o.mode) o.vars ≤ length positions.old }
    ensures { Ended sheet.now p (opened (mode_of o.mode) o.vars list.entry.lits.now list.entry.ends.now) out.old result out.new }
{
    match o.mode {
        Mode::Heap => heap_sheet::answer_few(sheet, out, positions, o.vars, list, p),
        Mode::List => list_sheet::answer_few(sheet, out, o.vars, list, p),
    }
}

// The clause lines, with slices for their clauses, then the session's.
fn clauses_with(
    sheet: &[u8],
    out: &mut [u8],
    positions: &mut [u32],
    o: Opening,
    lits: &mut [u32],
    ends: &mut [u32],
    p: Place,
) -> usize
    requires room { Room sheet.now p out.old × (o.vars ≤ number.max_vars) }
    requires positions { needed (mode_of o.mode) o.vars ≤ length positions.old }
    requires holds { Holds sheet.now lits.old ends.old × (length lits.old ≤ number.max_literals) }
    ensures { Ended sheet.now p (reading (mode_of o.mode) o.vars [] []) out.old result out.new }
{
    let s = clause_lines(
        sheet,
        out,
        o.vars,
        lits,
        ends,
        Section {
            place: p,
            literals: 0,
            clauses: 0,
        },
    );
    let list = Clauses {
        lits: &lits[..s.literals as usize],
        ends: &ends[..s.clauses as usize],
    };
    if o.vars as usize <= few_vars(o.mode) {
        return few_lines(sheet, out, positions, o, list, s.place);
    }
    session_lines(sheet, out, positions, o, list, s.place)
}

// The same with room for so many literals and clauses.
fn clauses_in<const LITERALS: usize, const CLAUSES: usize>(
    sheet: &[u8],
    out: &mut [u8],
    positions: &mut [u32],
    o: Opening,
    p: Place,
) -> usize
    requires sizes { (LITERALS ≤ number.max_literals) × (CLAUSES ≤ number.max_clauses) }
    requires room { Room sheet.now p out.old × (o.vars ≤ number.max_vars) }
    requires positions { needed (mode_of o.mode) o.vars ≤ length positions.old }
    requires literals { (k : ℕ) → k ≤ number.max_literals → 2 * k ≤ length sheet.now → k ≤ LITERALS }
    requires clauses { (k : ℕ) → k ≤ number.max_clauses → 2 * k ≤ length sheet.now → k ≤ CLAUSES }
    ensures { Ended sheet.now p (reading (mode_of o.mode) o.vars [] []) out.old result out.new }
{
    let mut lits = [0u32; LITERALS];
    let mut ends = [0u32; CLAUSES];
    clauses_with(sheet, out, positions, o, &mut lits, &mut ends, p)
}

// The lines behind the first where no clause line comes next: the session's. The slices for clauses are not set up.
fn without_clauses(
    sheet: &[u8],
    out: &mut [u8],
    positions: &mut [u32],
    o: Opening,
    p: Place,
) -> usize
    requires room { Room sheet.now p out.old × (o.vars ≤ number.max_vars) }
    requires positions { needed (mode_of o.mode) o.vars ≤ length positions.old }
    requires from_value { next_clause (lines_from sheet.now p.from) ≡ false }
    ensures { Ended sheet.now p (reading (mode_of o.mode) o.vars [] []) out.old result out.new }
{
    let none = Clauses {
        lits: &[],
        ends: &[],
    };
    if o.vars as usize <= few_vars(o.mode) {
        return few_lines(sheet, out, positions, o, none, p);
    }
    session_lines(sheet, out, positions, o, none, p)
}

// Room for the clauses of any sheet.
const ALL_LITERALS: usize = MAX_LITERALS as usize;

const ALL_CLAUSES: usize = MAX_CLAUSES as usize;

// The lines behind the first.
fn sheet_lines(sheet: &[u8], out: &mut [u8], positions: &mut [u32], o: Opening, p: Place) -> usize
    requires room { Room sheet.now p out.old × (o.vars ≤ number.max_vars) }
    requires positions { needed (mode_of o.mode) o.vars ≤ length positions.old }
    ensures { Ended sheet.now p (reading (mode_of o.mode) o.vars [] []) out.old result out.new }
{
    if next_is_clause(sheet, p) {
        return clauses_in::<ALL_LITERALS, ALL_CLAUSES>(sheet, out, positions, o, p);
    }
    without_clauses(sheet, out, positions, o, p)
}

// A short sheet has at most so many bytes, and a tiny one. A literal takes two at least, and so does a clause line.
const SHORT: usize = 1024;

const SHORT_CLAUSES: usize = SHORT / 2;

const TINY: usize = 128;

const TINY_CLAUSES: usize = TINY / 2;

// The same on a short sheet, which has this way to itself, with none of the long slices for clauses.
fn short_lines(sheet: &[u8], out: &mut [u8], positions: &mut [u32], o: Opening, p: Place) -> usize
    requires room { Room sheet.now p out.old × (o.vars ≤ number.max_vars) × (length sheet.now ≤ short) }
    requires positions { needed (mode_of o.mode) o.vars ≤ length positions.old }
    ensures { Ended sheet.now p (reading (mode_of o.mode) o.vars [] []) out.old result out.new }
{
    if !next_is_clause(sheet, p) {
        return without_clauses(sheet, out, positions, o, p);
    }
    if sheet.len() <= TINY {
        return clauses_in::<TINY_CLAUSES, TINY_CLAUSES>(sheet, out, positions, o, p);
    }
    clauses_in::<SHORT_CLAUSES, SHORT_CLAUSES>(sheet, out, positions, o, p)
}

// How many variables the shorter arrays of positions have room for, and the longest.
const LEAST: usize = 128;

const FEW: usize = 384;

const ALL: usize = MAX_VARS as usize;

// The lines behind the first, on positions set up for them: few for few variables on a short sheet.
fn own_positions(sheet: &[u8], out: &mut [u8], o: Opening, p: Place) -> usize
    requires { Room sheet.now p out.old × (o.vars ≤ number.max_vars) }
    ensures { Ended sheet.now p (reading (mode_of o.mode) o.vars [] []) out.old result out.new }
{
    if o.vars as usize <= LEAST && sheet.len() <= SHORT {
        return short_lines(sheet, out, &mut [NONE; LEAST], o, p);
    }
    if o.vars as usize <= FEW && sheet.len() <= SHORT {
        return short_lines(sheet, out, &mut [NONE; FEW], o, p);
    }
    sheet_lines(sheet, out, &mut [NONE; ALL], o, p)
}

// How many positions a session needs: one for each variable in heap mode, none in list mode.
fn positions_needed(o: Opening) -> usize
    ensures { result ≡ needed (mode_of o.mode) o.vars }
{
    match o.mode {
        Mode::Heap => o.vars as usize,
        Mode::List => 0,
    }
}

// The lines behind the first, on those of the lent positions that the session needs, or on positions set up for them where they are too few.
pub fn with_positions(
    sheet: &[u8],
    out: &mut [u8],
    positions: &mut [u32],
    o: Opening,
    p: Place,
) -> usize
    requires { Room sheet.now p out.old × (o.vars ≤ number.max_vars) }
    ensures ended { Ended sheet.now p (reading (mode_of o.mode) o.vars [] []) out.old result out.new }
    ensures same_from { SameFrom (used_by (some (opening_at o.mode o.vars)) (length positions.old)) positions.old positions.new }
{
    let k = positions_needed(o);
    if k > positions.len() {
        return own_positions(sheet, out, o, p);
    }
    if sheet.len() <= SHORT {
        return short_lines(sheet, out, &mut positions[..k], o, p);
    }
    sheet_lines(sheet, out, &mut positions[..k], o, p)
}
