// The lines of a session on a sheet, in either mode: each is a call, done and answered.
#![tactic(auto)]

ghost use Rattle.std.specs.Prelude.{◌≡◌, ℕ, ◌+◌, ◌*◌, ◌<◌, ◌≤◌, length};
ghost use Rattle.lit.specs.Numbers as number;
ghost use Rattle.lit.specs.Refusals.{status_of};
ghost use Rattle.book.specs.Read.{called};
ghost use Rattle.session.specs.Entry.{Answered, reply_of};
ghost use Rattle.forms.specs.Forms.{call_in};
ghost use Rattle.forms.specs.Read.{group_on};
ghost use Rattle.sheet.specs.Running.{Room};
ghost use Rattle.lines.specs.Lines.{Went};

use forms::text::NEWLINE;
use forms::{Asked, FEW, LEAST, MANY, SOME};
use formula::Clauses;
use lit::{NONE, Refusal};
use mode::Session;
use sheet::Place;

// The group that a line is, or refusal 3. Its variables are read into scratch with room for so many.
fn group_in<const ROOM: usize, S: Session>(
    line: &[u8],
    n: u32,
    m: u32,
    list: Clauses<'_>,
    session: &mut S,
) -> Result<Option<u32>, Refusal>
    requires room { ROOM ≤ number.max_group }
    requires fits { (k : ℕ) → k ≤ number.max_group → 2 * k ≤ length line.now → k ≤ ROOM }
    requires good { let lits = list.lits.now in let ends = list.ends.now in
        (S.sound n m lits ends).Good (S.held n m lits ends session.old) }
    ensures answered { let lits = list.entry.lits.now in let ends = list.entry.ends.now in
        let before = S.held n m lits ends session.old in
        Answered (called n m (S.mode n m lits ends).ops before (group_on line.now)) before (status_of result) (reply_of result) (S.held n m lits ends session.new) }
    ensures same_slices { S.same_slices session.old session.new }
{
    let mut vars = [NONE; ROOM];
    let Some(k) = forms::read_group(line, &mut vars) else {
        return Err(Refusal::BadLine);
    };
    session.group(n, m, list, &vars[..k])
}

// The same with as much scratch as the line may need.
fn group_line<S: Session>(
    line: &[u8],
    n: u32,
    m: u32,
    list: Clauses<'_>,
    session: &mut S,
) -> Result<Option<u32>, Refusal>
    requires { let lits = list.lits.now in let ends = list.ends.now in
        (S.sound n m lits ends).Good (S.held n m lits ends session.old) }
    ensures answered { let lits = list.entry.lits.now in let ends = list.entry.ends.now in
        let before = S.held n m lits ends session.old in
        Answered (called n m (S.mode n m lits ends).ops before (group_on line.now)) before (status_of result) (reply_of result) (S.held n m lits ends session.new) }
    ensures same_slices { S.same_slices session.old session.new }
{
    if line.len() <= 2 * LEAST {
        return group_in::<LEAST, S>(line, n, m, list, session);
    }
    if line.len() <= 2 * FEW {
        return group_in::<FEW, S>(line, n, m, list, session);
    }
    if line.len() <= 2 * SOME {
        return group_in::<SOME, S>(line, n, m, list, session);
    }
    group_in::<MANY, S>(line, n, m, list, session)
}

// A line on a good session: the call that it is, or refusal 3.
fn line_call<S: Session>(
    line: &[u8],
    n: u32,
    m: u32,
    list: Clauses<'_>,
    session: &mut S,
) -> Result<Option<u32>, Refusal>
    requires { let lits = list.lits.now in let ends = list.ends.now in
        (S.sound n m lits ends).Good (S.held n m lits ends session.old) }
    ensures answered { let lits = list.entry.lits.now in let ends = list.entry.ends.now in
        let before = S.held n m lits ends session.old in
        Answered (called n m (S.mode n m lits ends).ops before (call_in line.now)) before (status_of result) (reply_of result) (S.held n m lits ends session.new) }
    ensures same_slices { S.same_slices session.old session.new }
{
    match forms::read_call(line) {
        None => Err(Refusal::BadLine),
        Some(Asked::Group) => group_line(line, n, m, list, session),
        Some(Asked::Is(call)) => session.call(n, m, list, call),
    }
}

// Does the next line and answers it, and gives the place behind it.
fn next_line<S: Session>(
    sheet: &[u8],
    out: &mut [u8],
    n: u32,
    list: Clauses<'_>,
    session: &mut S,
    p: Place,
) -> Place
    requires room { Room sheet.now p out.old × (0 < p.left) × (length list.ends.now ≤ number.max_clauses) }
    requires good { let lits = list.lits.now in let ends = list.ends.now in
        let m = length ends in
        (S.sound n m lits ends).Good (S.held n m lits ends session.old) }
    ensures left { result.left + 1 ≡ p.left }
    ensures went { let lits = list.entry.lits.now in let ends = list.entry.ends.now in
        let m = length ends in
        let held = S.held n m lits ends in
        Went (S.sound n m lits ends).Good sheet.now p (held session.old) out.old result (held session.new) out.new }
    ensures same_slices { S.same_slices session.old session.new }
{
    let end = p.from + forms::text::find(&sheet[p.from..], NEWLINE);
    let given = line_call(
        &sheet[p.from..end],
        n,
        list.ends.len() as u32,
        list,
        session,
    );
    let at = sheet::answer(out, p.at, p.line, given);
    sheet::behind(p, end, at)
}

// Does the lines that are left and answers them, and gives the place behind the last.
pub fn lines<S: Session>(
    sheet: &[u8],
    out: &mut [u8],
    n: u32,
    list: Clauses<'_>,
    session: &mut S,
    p: Place,
) -> Place
    requires room { Room sheet.now p out.old × (length list.ends.now ≤ number.max_clauses) }
    requires good { let lits = list.lits.now in let ends = list.ends.now in
        let m = length ends in
        (S.sound n m lits ends).Good (S.held n m lits ends session.old) }
    ensures left { result.left ≡ 0 }
    ensures went { let lits = list.entry.lits.now in let ends = list.entry.ends.now in
        let m = length ends in
        let held = S.held n m lits ends in
        Went (S.sound n m lits ends).Good sheet.now p (held session.old) out.old result (held session.new) out.new }
    ensures same_slices { S.same_slices session.old session.new }
{
    let mut q = p;
    for _ in 0..p.left {
        q = next_line(sheet, out, n, list, session, q);
    }
    q
}
