// The formula checks, tried: the three of them on small clause lists: case L, other answers, and refusals 4 to 6. A line for each: a letter (d for
// `no_duplicates`, c for `check_clause_invariant`, f for `check_formula_invariant`), the status, and the answer's number or NONE.
#![tactic(auto)]

use formula::Clauses;
use formula::checks::SatResult;
use lit::{NONE, Refusal};
use std::io;

// Prints a line.
fn show(rt: &impl Print, check: char, status: u32, reply: u32) -> io::Result<()> {
    println!(rt; "{check}\t{status}\t{reply}")
}

// What a check answers: its answer's number, or the number of the refusal.
fn show_answer(rt: &impl Print, check: char, answer: Result<u32, Refusal>) -> io::Result<()> {
    match answer {
        Ok(reply) => show(rt, check, 0, reply),
        Err(refusal) => show(rt, check, refusal.number(), NONE),
    }
}

// What a check that is passed or not answers.
fn show_tested(rt: &impl Print, check: char, answer: Result<bool, Refusal>) -> io::Result<()> {
    show_answer(rt, check, answer.map(u32::from))
}

// One clause: no variable twice, both polarities of one, no literal, and another count than stated.
fn try_duplicates(rt: &impl Print) -> io::Result<()> {
    let none = [0u32; 0];
    show_tested(rt, 'd', formula::checks::no_duplicates(&[1, 2], 2))?;
    show_tested(rt, 'd', formula::checks::no_duplicates(&[1, 3, 0], 3))?;
    show_tested(rt, 'd', formula::checks::no_duplicates(&none, 0))?;
    show_tested(rt, 'd', formula::checks::no_duplicates(&[1, 2], 1))
}

// One clause over N variables: a good one, a variable of N, one variable twice, too large an N, and another count than stated.
fn try_clauses(rt: &impl Print) -> io::Result<()> {
    show_tested(
        rt,
        'c',
        formula::checks::check_clause_invariant(2, &[1, 2], 2),
    )?;
    show_tested(
        rt,
        'c',
        formula::checks::check_clause_invariant(1, &[1, 2], 2),
    )?;
    show_tested(
        rt,
        'c',
        formula::checks::check_clause_invariant(2, &[1, 1], 2),
    )?;
    show_tested(
        rt,
        'c',
        formula::checks::check_clause_invariant(2049, &[1, 2], 1),
    )?;
    show_tested(
        rt,
        'c',
        formula::checks::check_clause_invariant(2, &[1, 2], 1),
    )
}

// A formula over N variables, with its counts as stated.
fn try_formula(
    rt: &impl Print,
    n: u32,
    list: Clauses,
    literals: u32,
    clauses: u32,
) -> io::Result<()> {
    let answer = formula::checks::check_formula_invariant(n, list, literals, clauses);
    show_answer(rt, 'f', answer.map(|x| x as u32))
}

fn main(rt: HostRuntime) -> io::Result<()> {
    try_duplicates(&rt)?;
    try_clauses(&rt)?;
    // case L
    let none = [0u32; 0];
    try_formula(
        &rt,
        2,
        Clauses {
            lits: &none,
            ends: &none,
        },
        0,
        0,
    )?;
    try_formula(
        &rt,
        0,
        Clauses {
            lits: &none,
            ends: &[0],
        },
        0,
        1,
    )?;
    try_formula(
        &rt,
        1,
        Clauses {
            lits: &[4],
            ends: &[0, 1],
        },
        1,
        2,
    )?;
    try_formula(
        &rt,
        1,
        Clauses {
            lits: &[4],
            ends: &[1, 1],
        },
        1,
        2,
    )?;
    try_formula(
        &rt,
        1,
        Clauses {
            lits: &[1, 0],
            ends: &[2],
        },
        2,
        1,
    )?;
    // a formula with nothing wrong; too large an N; ends that fall; and another count than stated
    try_formula(
        &rt,
        2,
        Clauses {
            lits: &[1, 3],
            ends: &[2],
        },
        2,
        1,
    )?;
    try_formula(
        &rt,
        2049,
        Clauses {
            lits: &[1, 3],
            ends: &[3, 2],
        },
        2,
        1,
    )?;
    try_formula(
        &rt,
        2,
        Clauses {
            lits: &[1, 3],
            ends: &[3, 2],
        },
        2,
        2,
    )?;
    try_formula(
        &rt,
        2,
        Clauses {
            lits: &[1, 3],
            ends: &[3, 2],
        },
        2,
        1,
    )
}
