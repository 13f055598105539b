// One request: its head, the lists and numbers that it lends.
//
// The head words: most, n, the row count; the lengths of the row starts and the columns; the lent plan's eight counts; the lengths of its six stores;
// of the row list, the values, the right side; whether the rows are by list, whether the run is cut, and to how many steps; the lengths of the five
// result stores; of the eight work stores.
use crate::{runs, show, words};
use std::io;
use std::io::{Read, Write};

pub const HEAD: usize = 38;

const ENTRIES: usize = 16_400;

const SUBSCRIPTS: usize = 16_400;

pub const PLACES: usize = 1_040;

pub const ROWS: usize = 2_064;

// What every lent place holds before the call. It is not zero, so that a store which the call left alone shows.
pub const BEFORE: usize = 54_321;

pub const BEFORE_NUMBER: f64 = 1.5;

// A head word.
pub fn word(head: &[usize; HEAD], at: usize) -> usize {
    if HEAD <= at {
        return 0;
    }
    head[at]
}

// The first places of a store, as many as a head word asks for; all where it has fewer.
pub fn front<'a>(store: &'a [usize], head: &[usize; HEAD], at: usize) -> &'a [usize] {
    let asked = word(head, at);
    if store.len() < asked {
        return store;
    }
    &store[0..asked]
}

pub fn front_numbers<'a>(store: &'a [f64], head: &[usize; HEAD], at: usize) -> &'a [f64] {
    let asked = word(head, at);
    if store.len() < asked {
        return store;
    }
    &store[0..asked]
}

// Reads the first places of a store, as many as a head word asks for.
fn read<R: Read>(
    reader: &mut R,
    store: &mut [usize],
    head: &[usize; HEAD],
    at: usize,
) -> io::Result<bool> {
    let asked = word(head, at);
    if store.len() < asked {
        return Ok(false);
    }
    words::fill(reader, &mut store[0..asked])
}

fn read_numbers<R: Read>(
    reader: &mut R,
    store: &mut [f64],
    head: &[usize; HEAD],
    at: usize,
) -> io::Result<bool> {
    let asked = word(head, at);
    if store.len() < asked {
        return Ok(false);
    }
    words::fill_numbers(reader, &mut store[0..asked])
}

// Reads and lends the plan's stores. All are read, whether one before had its numbers or not: a function without those branches is cheaper to prove.
fn lend_plan<R: Read, W: Write>(
    reader: &mut R,
    writer: &mut W,
    head: &[usize; HEAD],
    starts: &[usize],
    columns: &[usize],
) -> io::Result<bool> {
    let mut l_subs = [BEFORE; SUBSCRIPTS];
    let mut l_starts = [BEFORE; PLACES];
    let mut l_slots = [BEFORE; PLACES];
    let mut u_subs = [BEFORE; SUBSCRIPTS];
    let mut u_starts = [BEFORE; PLACES];
    let mut u_slots = [BEFORE; PLACES];
    let lower = read(reader, &mut l_subs, head, 13)?
        & read(reader, &mut l_starts, head, 14)?
        & read(reader, &mut l_slots, head, 15)?;
    let upper = read(reader, &mut u_subs, head, 16)?
        & read(reader, &mut u_starts, head, 17)?
        & read(reader, &mut u_slots, head, 18)?;
    let all = lower & upper;
    if !all {
        return Ok(false);
    }
    lend_numbers(
        reader,
        writer,
        head,
        starts,
        columns,
        front(&l_subs, head, 13),
        front(&l_starts, head, 14),
        front(&l_slots, head, 15),
        front(&u_subs, head, 16),
        front(&u_starts, head, 17),
        front(&u_slots, head, 18),
    )
}

// Reads and lends the row list, the values and the right side.
fn lend_numbers<R: Read, W: Write>(
    reader: &mut R,
    writer: &mut W,
    head: &[usize; HEAD],
    starts: &[usize],
    columns: &[usize],
    l_subs: &[usize],
    l_starts: &[usize],
    l_slots: &[usize],
    u_subs: &[usize],
    u_starts: &[usize],
    u_slots: &[usize],
) -> io::Result<bool> {
    let mut rows = [BEFORE; ROWS];
    let mut values = [BEFORE_NUMBER; ENTRIES];
    let mut right = [BEFORE_NUMBER; ROWS];
    let all = read(reader, &mut rows, head, 19)?
        & read_numbers(reader, &mut values, head, 20)?
        & read_numbers(reader, &mut right, head, 21)?;
    if !all {
        return Ok(false);
    }
    runs::verify_and_run(
        writer,
        head,
        starts,
        columns,
        l_subs,
        l_starts,
        l_slots,
        u_subs,
        u_starts,
        u_slots,
        front(&rows, head, 19),
        front_numbers(&values, head, 20),
        front_numbers(&right, head, 21),
    )?;
    Ok(true)
}

// Reads and lends the pattern.
fn lend_pattern<R: Read, W: Write>(
    reader: &mut R,
    writer: &mut W,
    head: &[usize; HEAD],
) -> io::Result<bool> {
    let mut starts = [BEFORE; ROWS];
    let mut columns = [BEFORE; ENTRIES];
    let all = read(reader, &mut starts, head, 3)? & read(reader, &mut columns, head, 4)?;
    if !all {
        return Ok(false);
    }
    lend_plan(
        reader,
        writer,
        head,
        front(&starts, head, 3),
        front(&columns, head, 4),
    )
}

// Reads and answers one request. It answers whether to go on: not at the end of the input, and not after a bad request.
pub fn serve<R: Read, W: Write>(reader: &mut R, writer: &mut W) -> io::Result<bool> {
    let mut head = [0usize; HEAD];
    let got = words::fill_head(reader, &mut head)?;
    if got == 0 {
        return Ok(false);
    }
    if got < HEAD || !lend_pattern(reader, writer, &head)? {
        show::bad_request(writer)?;
        return Ok(false);
    }
    Ok(true)
}
