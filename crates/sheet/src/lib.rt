// The run of a call sheet: the answer lines, and the place of a run in the sheet and in the answer buffer.
#![tactic(auto)]

ghost use Rattle.std.specs.Prelude.{◌≡◌, ◌+◌, ◌≤◌, ◌<◌, length};
ghost use Rattle.lit.specs.Numbers.{max_sheet};
ghost use Rattle.sheet.specs.Sheet.{answer_line};
ghost use Rattle.forms.specs.Written.{Wrote};
ghost use Rattle.lit.specs.Refusals.{status_of};
ghost use Rattle.session.specs.Entry.{reply_of as reply_number};
ghost use Rattle.sheet.specs.Writing.{reply_of, replied, field, ending};
ghost use Rattle.sheet.specs.Running.{after};

use forms::letters::DASH;
use forms::text::{NEWLINE, TAB};
use lit::{NONE, Refusal};

pub mod clauses;

// Writes a number and a tab from a place on, and gives the place behind them.
fn put_field(out: &mut [u8], at: usize, v: u32) -> usize
    requires { at + length (field v) ≤ length out.old }
    ensures { Wrote at (field v) out.old out.new result }
{
    let k = forms::text::put_number(out, at, v as u64);
    out[k] = TAB;
    k + 1
}

// Writes a reply, `-` for none, and a newline.
fn put_ending(out: &mut [u8], at: usize, reply: u32) -> usize
    requires { at + length (ending (reply_of reply)) ≤ length out.old }
    ensures { Wrote at (ending (reply_of reply)) out.old out.new result }
{
    if reply == NONE {
        out[at] = DASH;
        out[at + 1] = NEWLINE;
        return at + 2;
    }
    let k = forms::text::put_number(out, at, reply as u64);
    out[k] = NEWLINE;
    k + 1
}

// The status of what a line gave: 0, or the number of its refusal.
fn status(given: Result<Option<u32>, Refusal>) -> u32
    ensures { result ≡ status_of given }
{
    match given {
        Ok(_) => 0,
        Err(e) => e.number(),
    }
}

// Its reply, NONE where there is none.
fn reply(given: Result<Option<u32>, Refusal>) -> u32
    ensures { result ≡ reply_number given }
{
    match given {
        Ok(reply) => reply.unwrap_or(NONE),
        Err(_) => NONE,
    }
}

// Writes an answer line from a place on, with the status and the reply as numbers, and gives the place behind it.
#[inline(never)]
pub fn answer_numbers(out: &mut [u8], at: usize, line: u32, status: u32, reply: u32) -> usize
    requires { at + length (answer_line line status (reply_of reply)) ≤ length out.old }
    ensures { Wrote at (answer_line line status (reply_of reply)) out.old out.new result }
{
    let a = put_field(out, at, line);
    let b = put_field(out, a, status);
    put_ending(out, b, reply)
}

// Writes the answer to a line from a place on, and gives the place behind it. Taken into its callers, so that what was given goes on as two numbers.
#[inline(always)]
pub fn answer(out: &mut [u8], at: usize, line: u32, given: Result<Option<u32>, Refusal>) -> usize
    requires { at + length (answer_line line (status_of given) (replied given)) ≤ length out.old }
    ensures { Wrote at (answer_line line (status_of given) (replied given)) out.old out.new result }
{
    answer_numbers(out, at, line, status(given), reply(given))
}

// Where a run stands: the place in the sheet, how many lines are left, the number of the next, and the place in the answer buffer.
#[derive(Clone, Copy)]
pub struct Place {
    pub from: usize,
    pub left: u32,
    pub line: u32,
    pub at: usize,
}

// The place behind a line that ends at `end` and has been answered up to `at`.
pub fn behind(p: Place, end: usize, at: usize) -> Place
    requires { (0 < p.left) × (p.line ≤ max_sheet) × (end < max_sheet) }
    ensures { result ≡ after p end at }
{
    Place {
        from: end + 1,
        left: p.left - 1,
        line: p.line + 1,
        at: at,
    }
}
