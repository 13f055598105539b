// The draws of a test load: document 02, Ticket 6. The state is a number that each draw moves on; it is handed on by value.
#![tactic(auto)]

ghost use Rattle.std.specs.Prelude.{◌≡◌, ◌%◌, ◌<◌, ◌==◌};
ghost use Rattle.foundation.specs.Draw.{stepped, mixed, drawn_value};
ghost use Rattle.foundation.specs.Load.{present_by, asked_state};

// What each draw adds to the state.
const STEP: u32 = 2_654_435_769;

// How many values a draw may give, and the largest: it is taken off, so that as many lie below zero as above.
const VALUES: u32 = 2_001;

const LARGEST: i32 = 1_000;

// Whether a place is present, and the state once that is known.
#[derive(Clone, Copy)]
pub struct Asked {
    pub state: u32,
    pub present: bool,
}

// The state after a draw: the sum drops what passes 32 bits.
pub fn step(state: u32) -> u32
    ensures { result ≡ stepped state }
{
    std::num::wrapping_add_u32(state, STEP)
}

// What is drawn, from the state after the draw's step. A u32 that is shifted left keeps 32 bits.
fn mix(state: u32) -> u32
    ensures { result ≡ mixed state }
{
    let first = state ^ (state >> 16);
    let second = first ^ (first << 7);
    second ^ (second >> 11)
}

// The draw mod 2,001.
fn reduced(draw: u32) -> u32
    ensures { (result ≡ draw % 2001) × (result < 2001) }
{
    draw % VALUES
}

// The value of a draw: a whole number from -1,000 to 1,000. An i32 has all of them, and its f64 is exact.
fn value_of(draw: u32) -> f64
    ensures { result ≡ drawn_value draw }
{
    let whole = reduced(draw) as i32 - LARGEST;
    whole as f64
}

// The value that is drawn, from the state after the draw's step.
pub fn value_at(state: u32) -> f64
    ensures { result ≡ drawn_value (mixed state) }
{
    value_of(mix(state))
}

// Whether a draw divides by d without rest.
fn divides_by(d: usize, draw: u32) -> bool
    requires { 0 < d }
    ensures { result ≡ (draw % d == 0) }
{
    draw as usize % d == 0
}

// Asks whether the place of a row and a column is present: one draw off the diagonal, none on it, where the step that is taken first goes unused.
pub fn ask(state: u32, d: usize, row: usize, column: usize) -> Asked
    requires { 0 < d }
    ensures { (result.state ≡ asked_state row column state) × (result.present ≡ present_by d row column state) }
{
    let next = step(state);
    if row == column {
        return Asked {
            state,
            present: true,
        };
    }
    let present = divides_by(d, mix(next));
    Asked {
        state: next,
        present,
    }
}
