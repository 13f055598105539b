// The calls of one request, and what is shown of them.
use crate::request::{BEFORE, BEFORE_NUMBER, HEAD, PLACES, ROWS};
use crate::{request, show};
use answers::{Extent, PivotChoice, PlanCounts, RunAnswer};
use numbers::{counts_from, extent_from};
use std::io;
use std::io::Write;
use streams::all_zero;

const SLOTS: usize = 66_000;

// The first places of a store, as many as a head word asks for; all where it has fewer. These functions take the head and the word's place, so that the
// functions below, which lend a dozen stores, have few steps for each: a long function is dear to prove.
fn front<'a>(store: &'a mut [usize], head: &[usize; HEAD], at: usize) -> &'a mut [usize] {
    let asked = request::word(head, at);
    if store.len() < asked {
        return store;
    }
    &mut store[0..asked]
}

fn front_numbers<'a>(store: &'a mut [f64], head: &[usize; HEAD], at: usize) -> &'a mut [f64] {
    let asked = request::word(head, at);
    if store.len() < asked {
        return store;
    }
    &mut store[0..asked]
}

// The counts of the lent plan.
fn counts(head: &[usize; HEAD]) -> PlanCounts {
    let numbers = [
        head[5], head[6], head[7], head[8], head[9], head[10], head[11], head[12],
    ];
    counts_from(&numbers)
}

// How the pivot rows are chosen.
fn choice(head: &[usize; HEAD]) -> PivotChoice {
    if head[22] == 0 {
        return PivotChoice::Largest;
    }
    PivotChoice::Listed
}

// How far the run is to go.
fn extent(head: &[usize; HEAD]) -> Extent {
    extent_from(head[23], head[24])
}

// The answer about the lent plan, in work stores of its own.
fn verify<W: Write>(
    writer: &mut W,
    head: &[usize; HEAD],
    starts: &[usize],
    columns: &[usize],
    l_subs: &[usize],
    l_starts: &[usize],
    l_slots: &[usize],
    u_subs: &[usize],
    u_starts: &[usize],
    u_slots: &[usize],
) -> io::Result<()> {
    let mut row_heads = [BEFORE; ROWS];
    let mut row_links = [BEFORE; ROWS];
    let mut set_heads = [BEFORE; ROWS];
    let mut set_links = [BEFORE; ROWS];
    let mut list = [BEFORE; ROWS];
    let mut spare = [BEFORE; ROWS];
    show::verified(
        writer,
        planning::verify(
            request::word(head, 0),
            request::word(head, 1),
            request::word(head, 2),
            starts,
            columns,
            counts(head),
            l_subs,
            l_starts,
            l_slots,
            u_subs,
            u_starts,
            u_slots,
            front(&mut row_heads, head, 30),
            front(&mut row_links, head, 31),
            front(&mut set_heads, head, 32),
            front(&mut set_links, head, 33),
            front(&mut list, head, 34),
            front(&mut spare, head, 35),
        ),
    )
}

// The answer and the five result stores.
fn show_results<W: Write>(
    writer: &mut W,
    head: &[usize; HEAD],
    answer: RunAnswer,
    l: &[f64],
    u: &[f64],
    diagonal: &[f64],
    solution: &[f64],
    pivots: &[usize],
) -> io::Result<()> {
    show::ran(writer, answer)?;
    show::numbers(writer, b"lower", request::front_numbers(l, head, 25))?;
    show::numbers(writer, b"upper", request::front_numbers(u, head, 26))?;
    show::numbers(
        writer,
        b"diagonal",
        request::front_numbers(diagonal, head, 27),
    )?;
    show::numbers(
        writer,
        b"solution",
        request::front_numbers(solution, head, 28),
    )?;
    show::rows(writer, b"pivots", request::front(pivots, head, 29))
}

// Whether the first places of a store, as many as a head word asks for, are zero.
fn zero(store: &[usize], head: &[usize; HEAD], at: usize) -> bool {
    all_zero(request::front(store, head, at))
}

fn plus_zero(store: &[f64], head: &[usize; HEAD], at: usize) -> bool {
    all_zero(request::front_numbers(store, head, at))
}

// Whether the eight work stores are zero throughout.
fn show_work<W: Write>(
    writer: &mut W,
    head: &[usize; HEAD],
    row_heads: &[usize],
    row_links: &[usize],
    set_heads: &[usize],
    set_links: &[usize],
    list: &[usize],
    spare: &[usize],
    copy: &[f64],
    dense: &[f64],
) -> io::Result<()> {
    let rows = zero(row_heads, head, 30) & zero(row_links, head, 31);
    let sets = zero(set_heads, head, 32) & zero(set_links, head, 33);
    let lists = zero(list, head, 34) & zero(spare, head, 35);
    let floats = plus_zero(copy, head, 36) & plus_zero(dense, head, 37);
    show::work(writer, rows & sets & lists & floats)
}

// A run, in parts of arrays of its own, of the lengths that the head asks for; and every store afterwards.
fn run<W: Write>(
    writer: &mut W,
    head: &[usize; HEAD],
    starts: &[usize],
    columns: &[usize],
    l_subs: &[usize],
    l_starts: &[usize],
    l_slots: &[usize],
    u_subs: &[usize],
    u_starts: &[usize],
    u_slots: &[usize],
    rows: &[usize],
    values: &[f64],
    right: &[f64],
) -> io::Result<()> {
    let mut l = [BEFORE_NUMBER; SLOTS];
    let mut u = [BEFORE_NUMBER; SLOTS];
    let mut diagonal = [BEFORE_NUMBER; PLACES];
    let mut solution = [BEFORE_NUMBER; ROWS];
    let mut pivots = [BEFORE; PLACES];
    let mut row_heads = [BEFORE; ROWS];
    let mut row_links = [BEFORE; ROWS];
    let mut set_heads = [BEFORE; ROWS];
    let mut set_links = [BEFORE; ROWS];
    let mut list = [BEFORE; ROWS];
    let mut spare = [BEFORE; ROWS];
    let mut copy = [BEFORE_NUMBER; ROWS];
    let mut dense = [BEFORE_NUMBER; ROWS];
    let answer = elimination::run(
        request::word(head, 0),
        request::word(head, 1),
        request::word(head, 2),
        starts,
        columns,
        counts(head),
        l_subs,
        l_starts,
        l_slots,
        u_subs,
        u_starts,
        u_slots,
        values,
        right,
        choice(head),
        rows,
        extent(head),
        front_numbers(&mut l, head, 25),
        front_numbers(&mut u, head, 26),
        front_numbers(&mut diagonal, head, 27),
        front_numbers(&mut solution, head, 28),
        front(&mut pivots, head, 29),
        front(&mut row_heads, head, 30),
        front(&mut row_links, head, 31),
        front(&mut set_heads, head, 32),
        front(&mut set_links, head, 33),
        front(&mut list, head, 34),
        front(&mut spare, head, 35),
        front_numbers(&mut copy, head, 36),
        front_numbers(&mut dense, head, 37),
    );
    show_results(writer, head, answer, &l, &u, &diagonal, &solution, &pivots)?;
    show_work(
        writer, head, &row_heads, &row_links, &set_heads, &set_links, &list, &spare, &copy, &dense,
    )
}

// Both calls of a request.
pub fn verify_and_run<W: Write>(
    writer: &mut W,
    head: &[usize; HEAD],
    starts: &[usize],
    columns: &[usize],
    l_subs: &[usize],
    l_starts: &[usize],
    l_slots: &[usize],
    u_subs: &[usize],
    u_starts: &[usize],
    u_slots: &[usize],
    rows: &[usize],
    values: &[f64],
    right: &[f64],
) -> io::Result<()> {
    verify(
        writer, head, starts, columns, l_subs, l_starts, l_slots, u_subs, u_starts, u_slots,
    )?;
    run(
        writer, head, starts, columns, l_subs, l_starts, l_slots, u_subs, u_starts, u_slots, rows,
        values, right,
    )
}
