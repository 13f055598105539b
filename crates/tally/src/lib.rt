// The tally of updates: document 01, "one tally record stays with the caller and each finished run adds to it", by document 02's ticket 10 with a counter for each
// member.
//
// `add` alone touches the record: it reads it, has `tally_with` decide by value, and stores what comes back.
#![tactic(auto)]

ghost use Rattle.std.specs.Prelude.{◌≡◌};
ghost use Rattle.foundation.specs.Tally.{is_member, empty_tally, counter_answer, tally_answer, tally_after};
ghost use Rattle.tally.specs.Calls.{kept_sum, tally_answer_of};

// "sixteen counters, one a member numbered 1 to 16"
pub const MEMBERS: usize = 16;

const LARGEST_SUM: usize = 4_294_967_295;

// The record that stays with the caller: a counter for each member, member 1's first.
#[derive(Clone, Copy)]
pub struct Tally {
    pub counters: [u32; MEMBERS],
}

// What adding answers.
#[derive(Clone, Copy)]
pub enum TallyAnswer {
    // The member's new sum.
    Sum(u32),
    // 27: the member's number is outside 1 to 16. The record stays as it was.
    NoMember,
    // 19: the member's sum would pass 4,294,967,295. The record stays as it was.
    Full,
}

// The record as it is to be, and the answer.
#[derive(Clone, Copy)]
pub struct Added {
    pub tally: Tally,
    pub answer: TallyAnswer,
}

// One counter as it is to be, and the answer.
#[derive(Clone, Copy)]
struct Counted {
    sum: u32,
    answer: TallyAnswer,
}

// A record made with zeros.
pub fn empty() -> Tally
    ensures { result.counters ≡ empty_tally }
{
    Tally {
        counters: [0; MEMBERS],
    }
}

// Whether a number is a member's.
fn is_member(member: usize) -> bool
    ensures { result ≡ is_member member }
{
    1 <= member && member <= MEMBERS
}

// One counter with `updates` more, if the sum does not pass the largest. The room is found first, so that no sum wraps.
fn sum_with(sum: u32, updates: usize) -> Counted
    ensures { (result.sum ≡ kept_sum sum (counter_answer sum updates)) × (tally_answer_of result.answer ≡ counter_answer sum updates) }
{
    let room = LARGEST_SUM - sum as usize;
    if updates <= room {
        let next = sum + updates as u32;
        return Counted {
            sum: next,
            answer: TallyAnswer::Sum(next),
        };
    }
    Counted {
        sum,
        answer: TallyAnswer::Full,
    }
}

// The record with `updates` more for a member. A counter that is full is stored as it was.
pub fn tally_with(tally: Tally, member: usize, updates: usize) -> Added
    ensures { (result.tally.counters ≡ tally_after tally.counters member updates) × (tally_answer_of result.answer ≡ tally_answer tally.counters member updates) }
{
    let mut counters = tally.counters;
    if !is_member(member) {
        return Added {
            tally,
            answer: TallyAnswer::NoMember,
        };
    }
    let at = member - 1;
    let counted = sum_with(counters[at], updates);
    counters[at] = counted.sum;
    let answer = counted.answer;
    Added {
        tally: Tally { counters },
        answer,
    }
}

// Adds the updates of a finished run to its member's counter, or answers 27 or 19 and leaves the record as it is.
pub fn add(tally: &mut Tally, member: usize, updates: usize) -> TallyAnswer
    ensures { (tally.new.counters ≡ tally_after tally.old.counters member updates) × (tally_answer_of result ≡ tally_answer tally.old.counters member updates) }
{
    let added = tally_with(*tally, member, updates);
    *tally = added.tally;
    added.answer
}
