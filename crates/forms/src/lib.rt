// The forms of a sheet's lines: the first byte's kind by a table, the calls, the codes of a clause line, and the first line.
#![tactic(auto)]

pub mod table;

ghost use Rattle.std.specs.Prelude.{◌≡◌, ℕ, List, drop, slice_set, option_map};
ghost use Rattle.std.proofs.Math.Option.{some};
ghost use Rattle.laws.specs.Options.{as_code};
ghost use Rattle.forms.specs.Text.{fields};
ghost use Rattle.forms.specs.Text as text-spec;
ghost use Rattle.forms.specs.Forms as spec;
ghost use Rattle.forms.specs.Kinds.{kind_in};
ghost use Rattle.forms.specs.Behind.{behind, tabbed, second_tab};
ghost use Rattle.forms.specs.Read.{call_read, CallRead, Fits, GroupRead, Counted, first_of, mode_of, numbered};

use crate::letters::{DASH, VMTF, VSIDS};
use crate::text::{Field, TAB};
use lit::{MAX_GROUP, NONE};
use session::Call;
use table::Kind;

pub mod letters;
pub mod spelling;
pub mod text;

// What is asked for: a call, or a group whose variables are still to be read.
#[derive(Clone, Copy)]
pub enum Asked {
    Is(Call),
    Group,
}

// Heap or list mode.
#[derive(Clone, Copy, PartialEq, Eq)]
pub enum Mode {
    Heap,
    List,
}

// What a first line opens: a session in a mode, over so many variables.
#[derive(Clone, Copy)]
pub struct Opening {
    pub mode: Mode,
    pub vars: u32,
}

// Whether a line begins as clause lines do.
pub fn begins_clause(line: &[u8]) -> bool
    ensures { result ≡ spec.begins_clause line.now }
{
    line.len() > 0 && matches!(Kind::of(line[0]), Kind::Clause)
}

// Whether a tab stands behind a line's first byte, so that fields follow.
fn has_fields(line: &[u8]) -> bool
    ensures { result ≡ tabbed line.now }
{
    line.len() >= 2 && line[1] == TAB
}

// The place of the tab behind a line's second field, or the length.
fn second_tab(line: &[u8]) -> usize
    ensures { result ≡ second_tab line.now }
{
    if !has_fields(line) {
        return line.len();
    }
    2 + crate::text::find(&line[2..], TAB)
}

// The whole number behind a line's letter, if it is the one field there.
fn one_number(line: &[u8]) -> Option<u32>
    ensures { result ≡ as_code (spec.given (behind (drop 1 line.now)) (spec.one text-spec.number)) }
{
    if !has_fields(line) {
        return None;
    }
    crate::text::number(&line[2..])
}

// Stores a number at a place of out, if out has it.
fn put(out: &mut [u32], at: usize, v: u32)
    ensures { out.new ≡ slice_set out.old at v }
{
    if at < out.len() {
        out[at] = v;
    }
}

// Whole numbers parted by tabs: how many, and the numbers in out as far as it has room.
fn read_numbers(bytes: &[u8], out: &mut [u32]) -> Option<usize>
    ensures { Counted (spec.numbers (fields bytes.now)) result out.new }
{
    let mut n = 0;
    let mut at = 0;
    // a loop: each field ends where it is read, no range has these places
    loop {
        let Field { value, end } = crate::text::number_at(bytes, at, NONE as u64)?;
        put(out, n, value as u32);
        n += 1;
        if end == bytes.len() {
            return Some(n);
        }
        at = end + 1;
    }
}

// The whole numbers behind a line's letter: none, or fields behind a tab.
fn read_list(line: &[u8], out: &mut [u32]) -> Option<usize>
    ensures { Counted (spec.given (behind (drop 1 line.now)) spec.numbers) result out.new }
{
    if line.len() < 2 {
        return Some(0);
    }
    if line[1] != TAB {
        return None;
    }
    read_numbers(&line[2..], out)
}

// The codes of a clause line.
pub fn read_codes(line: &[u8], out: &mut [u32]) -> Option<usize>
    ensures { Counted (spec.codes_in line.now) result out.new }
{
    if !begins_clause(line) {
        return None;
    }
    read_list(line, out)
}

// A reason: the number of a clause, or `-` for NONE. NONE's figure is no reason.
fn read_reason(field: &[u8]) -> Option<u32>
    ensures { result ≡ as_code (spec.reason_in field.now) }
{
    if field == [DASH].as_slice() {
        return Some(NONE);
    }
    let reason = crate::text::number(field)?;
    if reason == NONE {
        return None;
    }
    Some(reason)
}

// `w`: the pattern of a double.
fn read_decay(line: &[u8]) -> Option<Call>
    ensures { call_read result ≡ spec.given (behind (drop 1 line.now)) (spec.call_with spec.sets_decay) }
{
    if !has_fields(line) {
        return None;
    }
    let bits = crate::text::pattern(&line[2..])?;
    Some(Call::SetDecay(crate::text::double(bits)))
}

// `e`: a code and a reason.
fn read_enqueue(line: &[u8]) -> Option<Call>
    ensures { call_read result ≡ spec.given (behind (drop 1 line.now)) (spec.call_with spec.enqueues) }
{
    let end = second_tab(line);
    if end == line.len() {
        return None;
    }
    let code = crate::text::number(&line[2..end])?;
    let reason = read_reason(&line[end + 1..])?;
    Some(Call::Enqueue(code, reason))
}

// The call of a kind that takes one whole number.
pub fn with_number(k: Kind, v: u32) -> Option<Call>
    ensures { call_read result ≡ numbered (kind_in k) v }
{
    match k {
        Kind::Bumps => Some(Call::Bump(v)),
        Kind::Inserts => Some(Call::Insert(v)),
        Kind::SwitchesOff => Some(Call::SwitchOff(v)),
        Kind::Decides => Some(Call::Decide(v)),
        Kind::LearnsUnit => Some(Call::LearnUnit(v)),
        Kind::GoesBack => Some(Call::GoBack(v)),
        Kind::BumpsReason => Some(Call::BumpReason(v)),
        _ => None,
    }
}

// The call of such a kind that a line is.
fn read_one(k: Kind, line: &[u8]) -> Option<Call>
    ensures { call_read result ≡ spec.given (spec.given (behind (drop 1 line.now)) (spec.one text-spec.number)) (numbered (kind_in k)) }
{
    with_number(k, one_number(line)?)
}

// The call that a line is.
pub fn read_call(line: &[u8]) -> Option<Asked>
    ensures { CallRead line.now result }
{
    if line.len() == 0 {
        return None;
    }
    let k = Kind::of(line[0]);
    match k {
        Kind::Decays => (line.len() == 1).then_some(Asked::Is(Call::Decay)),
        Kind::SetsDecay => read_decay(line).map(Asked::Is),
        Kind::Enqueues => read_enqueue(line).map(Asked::Is),
        Kind::MovesGroup => Some(Asked::Group),
        _ => read_one(k, line).map(Asked::Is),
    }
}

// Lengths of scratch for a group: each variable takes two bytes of its line at least, so a short line needs little.
// `MANY` is enough for any group.
pub const LEAST: usize = 8;

pub const FEW: usize = 64;

pub const SOME: usize = 512;

pub const MANY: usize = MAX_GROUP as usize;

// The variables of a group, in front in vars: at most 2,048.
pub fn read_group(line: &[u8], vars: &mut [u32]) -> Option<usize>
    requires { Fits line.now vars.old }
    ensures { GroupRead line.now result vars.new }
{
    let k = read_list(line, vars)?;
    if k > MAX_GROUP as usize {
        return None;
    }
    Some(k)
}

// The mode of a word: `vsids` is the heap, `vmtf` the list.
fn read_mode(word: &[u8]) -> Option<Mode>
    ensures { result ≡ option_map mode_of (as_code (spec.mode_in word.now)) }
{
    if word == VSIDS.as_slice() {
        return Some(Mode::Heap);
    }
    if word == VMTF.as_slice() {
        return Some(Mode::List);
    }
    None
}

// What stands behind the letter of a first line: the number of variables and the mode.
fn read_opening(line: &[u8]) -> Option<Opening>
    ensures { result ≡ first_of (spec.given (behind (drop 1 line.now)) (spec.two spec.opening_in)) }
{
    let end = second_tab(line);
    if end == line.len() {
        return None;
    }
    let vars = crate::text::number(&line[2..end])?;
    let mode = read_mode(&line[end + 1..])?;
    Some(Opening { mode, vars })
}

// The first line.
pub fn read_first(line: &[u8]) -> Option<Opening>
    ensures { result ≡ first_of (spec.first_in line.now) }
{
    if line.len() == 0 {
        return None;
    }
    match Kind::of(line[0]) {
        Kind::First => read_opening(line),
        _ => None,
    }
}
