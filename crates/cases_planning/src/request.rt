// One request: its head, the stores that it asks for, the call and what is shown of it.
//
// The head words: most, n, the row count; the lengths of the row starts, the columns, the L subscripts, the U subscripts, l_starts, l_slots,
// u_starts, u_slots, row_heads, row_links, set_heads, set_links, list and spare.
use crate::{show, words};
use std::io;
use std::io::{Read, Write};
use streams::all_zero;

// The longest parts that can be asked for: each one place past what a pattern of 1,025 columns, of 2,049 rows or of 16,385 entries needs, or more.
const HEAD: usize = 17;

const COLUMNS: usize = 16_400;

const SUBSCRIPTS: usize = 16_400;

const PLACES: usize = 1_040;

const ROWS: usize = 2_064;

// What every lent place holds before the call. It is not zero, so that a store which the call left alone shows.
const BEFORE: usize = 54_321;

// A head word.
fn word(head: &[usize; HEAD], at: usize) -> usize {
    if HEAD <= at {
        return 0;
    }
    head[at]
}

// The first places of a store, as many as a head word asks for, or all of a shorter one: `fits` has shown that it is not shorter. These functions take the
// head and the word's place, so that the function below, which lends a dozen stores, has few steps for each: a long function is dear to prove.
fn front<'a>(store: &'a mut [usize], head: &[usize; HEAD], at: usize) -> &'a mut [usize] {
    let asked = word(head, at);
    if store.len() < asked {
        return store;
    }
    &mut store[0..asked]
}

fn part<'a>(store: &'a [usize], head: &[usize; HEAD], at: usize) -> &'a [usize] {
    let asked = word(head, at);
    if store.len() < asked {
        return store;
    }
    &store[0..asked]
}

// The longest length that head word `at` may give; `most`, n and the row count are no lengths, and any word will do.
fn longest(at: usize) -> usize {
    match at {
        0 | 1 | 2 => 65_535,
        4 => COLUMNS,
        5 | 6 => SUBSCRIPTS,
        7 | 8 | 9 | 10 => PLACES,
        _ => ROWS,
    }
}

// Whether the arrays below have every length that is asked for.
fn fits(head: &[usize]) -> bool {
    let mut i = 0;
    while i < head.len() {
        if head[i] > longest(i) {
            return false;
        }
        i += 1;
    }
    true
}

// Shows the two sides' stores.
fn show_results<W: Write>(
    writer: &mut W,
    head: &[usize; HEAD],
    l_subs: &[usize],
    l_starts: &[usize],
    l_slots: &[usize],
    u_subs: &[usize],
    u_starts: &[usize],
    u_slots: &[usize],
) -> io::Result<()> {
    show::store(writer, b"l_subs", part(l_subs, head, 5))?;
    show::store(writer, b"l_starts", part(l_starts, head, 7))?;
    show::store(writer, b"l_slots", part(l_slots, head, 8))?;
    show::store(writer, b"u_subs", part(u_subs, head, 6))?;
    show::store(writer, b"u_starts", part(u_starts, head, 9))?;
    show::store(writer, b"u_slots", part(u_slots, head, 10))
}

// Whether the first places of a store, as many as a head word asks for, are zero.
fn zero(store: &[usize], head: &[usize; HEAD], at: usize) -> bool {
    all_zero(part(store, head, at))
}

// Shows whether all six work stores are zero throughout.
fn show_work<W: Write>(
    writer: &mut W,
    head: &[usize; HEAD],
    row_heads: &[usize],
    row_links: &[usize],
    set_heads: &[usize],
    set_links: &[usize],
    list: &[usize],
    spare: &[usize],
) -> io::Result<()> {
    let rows = zero(row_heads, head, 11) & zero(row_links, head, 12);
    let sets = zero(set_heads, head, 13) & zero(set_links, head, 14);
    show::work(
        writer,
        rows & sets & zero(list, head, 15) & zero(spare, head, 16),
    )
}

// Plans the pattern in parts of arrays of its own, of the lengths that the head asks for, and shows all of them.
fn plan<W: Write>(
    writer: &mut W,
    head: &[usize; HEAD],
    starts: &[usize],
    columns: &[usize],
) -> io::Result<()> {
    let mut l_subs = [BEFORE; SUBSCRIPTS];
    let mut l_starts = [BEFORE; PLACES];
    let mut l_slots = [BEFORE; PLACES];
    let mut u_subs = [BEFORE; SUBSCRIPTS];
    let mut u_starts = [BEFORE; PLACES];
    let mut u_slots = [BEFORE; PLACES];
    let mut row_heads = [BEFORE; ROWS];
    let mut row_links = [BEFORE; ROWS];
    let mut set_heads = [BEFORE; ROWS];
    let mut set_links = [BEFORE; ROWS];
    let mut list = [BEFORE; ROWS];
    let mut spare = [BEFORE; ROWS];
    let answer = planning::plan(
        word(head, 0),
        word(head, 1),
        word(head, 2),
        starts,
        columns,
        front(&mut l_subs, head, 5),
        front(&mut l_starts, head, 7),
        front(&mut l_slots, head, 8),
        front(&mut u_subs, head, 6),
        front(&mut u_starts, head, 9),
        front(&mut u_slots, head, 10),
        front(&mut row_heads, head, 11),
        front(&mut row_links, head, 12),
        front(&mut set_heads, head, 13),
        front(&mut set_links, head, 14),
        front(&mut list, head, 15),
        front(&mut spare, head, 16),
    );
    show::answer(writer, answer)?;
    show_results(
        writer, head, &l_subs, &l_starts, &l_slots, &u_subs, &u_starts, &u_slots,
    )?;
    show_work(
        writer, head, &row_heads, &row_links, &set_heads, &set_links, &list, &spare,
    )
}

// Reads the row starts and the columns, and has them planned if the input had them all, which it answers.
fn read_pattern<R: Read, W: Write>(
    reader: &mut R,
    writer: &mut W,
    head: &[usize; HEAD],
    starts: &mut [usize],
    columns: &mut [usize],
) -> io::Result<bool> {
    if words::fill(reader, starts)? < starts.len() {
        return Ok(false);
    }
    if words::fill(reader, columns)? < columns.len() {
        return Ok(false);
    }
    plan(writer, head, starts, columns)?;
    Ok(true)
}

// Lends room for the pattern: parts of arrays of its own, of the lengths that the head gives.
fn lend_pattern<R: Read, W: Write>(
    reader: &mut R,
    writer: &mut W,
    head: &[usize; HEAD],
) -> io::Result<bool> {
    let mut starts = [BEFORE; ROWS];
    let mut columns = [BEFORE; COLUMNS];
    read_pattern(
        reader,
        writer,
        head,
        front(&mut starts, head, 3),
        front(&mut columns, head, 4),
    )
}

// Reads and answers one request. It answers whether to go on: not at the end of the input, and not after a bad request.
pub fn serve<R: Read, W: Write>(reader: &mut R, writer: &mut W) -> io::Result<bool> {
    let mut head = [0usize; HEAD];
    let got = words::fill(reader, &mut head)?;
    if got == 0 {
        return Ok(false);
    }
    if got < HEAD || !fits(&head) || !lend_pattern(reader, writer, &head)? {
        show::bad_request(writer)?;
        return Ok(false);
    }
    Ok(true)
}
