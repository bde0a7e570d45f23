// Each refusal, tried once: 4 to 14 at the entry points, in each mode where they can come, each on a small memory of its own. A line for each: a
// letter (h and l for calls in heap and list mode, n and m for creation), the number of the refusal that is due, or 0, the status and the reply.
#![tactic(auto)]

use activity::Step;
use heap_session::HeapState;
use list_session::ListState;
use lit::{NONE, ON, Refusal};
use session::Call;
use std::io;
use trail::TrailState;
use vmtf::VmtfState;
use vsids::VsidsState;

// What is lent for a call: the number of variables and of literals as stated, the variable of a group, whose scratch has one place, or none,
// the second literal's code, the second variable's value and switch, the list's search and the heap's step.
#[derive(Clone, Copy)]
pub struct Lent {
    pub vars: u32,
    pub literals: u32,
    pub group: Option<u32>,
    pub code: u32,
    pub value: u8,
    pub switch: u8,
    pub search: u32,
    pub inc: f64,
}

// Two variables, one clause of both, the first variable assigned at level 0.
fn good() -> Lent {
    Lent {
        vars: 2,
        literals: 2,
        group: Some(1),
        code: 3,
        value: 2,
        switch: ON,
        search: 1,
        inc: 1.0,
    }
}

// The trail's counts where one variable is assigned at level 0.
fn one_on_trail() -> TrailState {
    TrailState {
        len: 1,
        level: 0,
        curr_i: 0,
    }
}

// Prints a line.
fn show(
    rt: &impl Print,
    mode: char,
    due: Option<Refusal>,
    status: u32,
    reply: u32,
) -> io::Result<()> {
    let number = due.map_or(0, Refusal::number);
    println!(rt; "{mode}\t{number}\t{status}\t{reply}")
}

// Creation in list mode.
fn make_list(rt: &impl Print, due: Option<Refusal>, lent: Lent) -> io::Result<()> {
    let lits = [1, lent.code];
    let ends = [2];
    let mut values = [2u8; 2];
    let mut levels = [NONE; 2];
    let mut reasons = [NONE; 2];
    let mut trail = [NONE; 2];
    let mut opened = [NONE; 2];
    let mut next = [NONE; 2];
    let mut prev = [NONE; 2];
    let mut ts = [0u64; 2];
    let mut counts = [0u32; 2];
    let mut indexes = [0u32; 2];
    let a = list_entry::creation::fresh(
        lent.vars,
        lent.literals,
        1,
        &lits,
        &ends,
        &mut values,
        &mut levels,
        &mut reasons,
        &mut trail,
        &mut opened,
        &mut next,
        &mut prev,
        &mut ts,
        &mut counts,
        &mut indexes,
    );
    show(rt, 'm', due, a.status, a.reply)
}

// Creation in heap mode.
fn make_heap(rt: &impl Print, due: Option<Refusal>, lent: Lent) -> io::Result<()> {
    let lits = [1, lent.code];
    let ends = [2];
    let mut values = [2u8; 2];
    let mut levels = [NONE; 2];
    let mut reasons = [NONE; 2];
    let mut trail = [NONE; 2];
    let mut opened = [NONE; 2];
    let mut activity = [0.0; 2];
    let mut heap = [NONE; 2];
    let mut indices = [NONE; 2];
    let mut decision = [ON; 2];
    let a = heap_entry::creation::fresh(
        lent.vars,
        lent.literals,
        1,
        &lits,
        &ends,
        &mut values,
        &mut levels,
        &mut reasons,
        &mut trail,
        &mut opened,
        &mut activity,
        &mut heap,
        &mut indices,
        &mut decision,
    );
    show(rt, 'n', due, a.status, a.reply)
}

// A call in list mode.
fn try_list(rt: &impl Print, due: Option<Refusal>, lent: Lent, call: Call) -> io::Result<()> {
    let lits = [1, lent.code];
    let ends = [2];
    let mut values = [1, lent.value];
    let mut levels = [0, NONE];
    let mut reasons = [NONE; 2];
    let mut trail = [1, NONE];
    let mut opened = [NONE; 2];
    let mut next = [1, NONE];
    let mut prev = [NONE, 0];
    let mut ts = [2, 1];
    let mut stamps = [0u64; 1];
    let mut order = [0u32; 1];
    let s = ListState {
        trail: one_on_trail(),
        vmtf: VmtfState {
            start: 0,
            search: lent.search,
            timestamp: 3,
        },
    };
    let a = list_entry::enter(
        lent.vars,
        lent.literals,
        1,
        &lits,
        &ends,
        &mut values,
        &mut levels,
        &mut reasons,
        &mut trail,
        &mut opened,
        &mut next,
        &mut prev,
        &mut ts,
        s,
        call,
        lent.group.as_slice(),
        &mut stamps,
        &mut order,
    );
    show(rt, 'l', due, a.status, a.reply)
}

// A call in heap mode.
fn try_heap(rt: &impl Print, due: Option<Refusal>, lent: Lent, call: Call) -> io::Result<()> {
    let lits = [1, lent.code];
    let ends = [2];
    let mut values = [1, lent.value];
    let mut levels = [0, NONE];
    let mut reasons = [NONE; 2];
    let mut trail = [1, NONE];
    let mut opened = [NONE; 2];
    let mut activity = [0.0; 2];
    let mut heap = [0, 1];
    let mut indices = [0, 1];
    let mut decision = [ON, lent.switch];
    let stamps = [0u64; 1];
    let order = [0u32; 1];
    let s = HeapState {
        trail: one_on_trail(),
        vsids: VsidsState {
            len: 2,
            step: Step {
                inc: lent.inc,
                decay: 0.5,
            },
        },
    };
    let a = heap_entry::enter(
        lent.vars,
        lent.literals,
        1,
        &lits,
        &ends,
        &mut values,
        &mut levels,
        &mut reasons,
        &mut trail,
        &mut opened,
        &mut activity,
        &mut heap,
        &mut indices,
        &mut decision,
        s,
        call,
        lent.group.as_slice(),
        &stamps,
        &order,
    );
    show(rt, 'h', due, a.status, a.reply)
}

// In both modes.
fn try_both(rt: &impl Print, due: Option<Refusal>, lent: Lent, call: Call) -> io::Result<()> {
    try_heap(rt, due, lent, call)?;
    try_list(rt, due, lent, call)
}

// Creation in both modes.
fn make_both(rt: &impl Print, due: Option<Refusal>, lent: Lent) -> io::Result<()> {
    make_heap(rt, due, lent)?;
    make_list(rt, due, lent)
}

// The memory that was lent: sizes, clauses and state, the first that fits.
fn try_memory(rt: &impl Print) -> io::Result<()> {
    let many = Lent {
        vars: 2049,
        ..good()
    };
    make_both(rt, Some(Refusal::ManyVars), many)?;
    try_both(rt, Some(Refusal::ManyVars), many, Call::Decay)?;
    let three = Lent {
        vars: 3,
        code: 6,
        ..good()
    };
    make_both(rt, Some(Refusal::BadLength), three)?;
    try_both(rt, Some(Refusal::BadLength), three, Call::Decay)?;
    let stated = Lent {
        literals: 3,
        ..good()
    };
    make_both(rt, Some(Refusal::BadLength), stated)?;
    try_both(rt, Some(Refusal::BadLength), stated, Call::Decay)?;
    let scratch = Lent {
        group: None,
        ..good()
    };
    try_both(rt, Some(Refusal::BadLength), scratch, Call::Group)?;
    try_both(rt, None, scratch, Call::Decay)?;
    let foreign = Lent {
        code: 4,
        value: 3,
        ..good()
    };
    make_both(rt, Some(Refusal::BadClauses), foreign)?;
    try_both(rt, Some(Refusal::BadClauses), foreign, Call::Decay)?;
    let value = Lent { value: 3, ..good() };
    make_both(rt, None, value)?;
    try_both(rt, Some(Refusal::BadState), value, Call::Bump(2))?;
    let byte = Lent {
        switch: 2,
        ..good()
    };
    try_heap(rt, Some(Refusal::BadState), byte, Call::Decay)
}

// The arguments of calls.
fn try_arguments(rt: &impl Print) -> io::Result<()> {
    try_both(rt, Some(Refusal::NoVariable), good(), Call::Bump(2))?;
    try_both(rt, Some(Refusal::NoVariable), good(), Call::Enqueue(4, 1))?;
    try_both(rt, Some(Refusal::BadPolarity), good(), Call::Decide(2))?;
    try_both(rt, Some(Refusal::BadReason), good(), Call::Enqueue(1, 1))?;
    try_both(rt, Some(Refusal::Assigned), good(), Call::Enqueue(0, 0))?;
    try_both(rt, Some(Refusal::Assigned), good(), Call::LearnUnit(0))?;
    try_both(rt, Some(Refusal::BadDecay), good(), Call::SetDecay(0.25))
}

fn main(rt: HostRuntime) -> io::Result<()> {
    try_memory(&rt)?;
    try_arguments(&rt)?;
    let large = Lent {
        inc: 1e200,
        ..good()
    };
    try_heap(&rt, Some(Refusal::LargeStep), large, Call::Decay)?;
    try_list(&rt, None, large, Call::Decay)?;
    let past = Lent {
        search: NONE,
        ..good()
    };
    try_list(&rt, Some(Refusal::PastOpen), past, Call::Decide(1))?;
    try_both(&rt, None, good(), Call::Decide(1))?;
    try_both(&rt, None, good(), Call::Group)
}
