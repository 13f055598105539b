// Answers told in numbers: 0, 0 and the values, or the refusal's number and step. The refusal's number, 0 if there is none, is returned too.
ghost use Rattle.std.specs.Prelude.{◌∷◌, ◌≡◌, length};
ghost use Rattle.answers.specs.Answers.{answer_of, verify_answer_of};
ghost use Rattle.answers.specs.Loads.{load_answer_of};
ghost use Rattle.answers.specs.Offsets.{write_answer_of};
ghost use Rattle.answers.specs.Runs.{run_answer_of};
ghost use Rattle.tally.specs.Calls.{tally_answer_of};
ghost use Rattle.numbers.specs.Numbered.{cut_or_padded, refusal_number, plan_numbers, verify_numbers, one_number, offset_numbers, write_numbers};

use crate::counting::count_numbers;
use crate::laying::{put, put_refusal};
use crate::refusals::{number_and_step, number_of};
use crate::signs::{minus_of, size_of};
use answers::{LoadAnswer, PlanAnswer, RunAnswer, RunOutcome, VerifyAnswer, WriteAnswer};
use tally::TallyAnswer;

// Ten numbers: 0, 0 and the eight counts, or the refusal.
pub fn tell_plan(answered: PlanAnswer, answer: &mut [usize]) -> usize
    ensures returned { result ≡ refusal_number (answer_of answered) }
    ensures numbers { answer.new ≡ cut_or_padded (length answer.old) (plan_numbers (answer_of answered)) }
{
    match answered {
        PlanAnswer::Planned(c) => {
            let counts = count_numbers(c);
            let numbers = [
                0, 0, counts[0], counts[1], counts[2], counts[3], counts[4], counts[5], counts[6],
                counts[7],
            ];
            put(&numbers, answer);
            0
        }
        PlanAnswer::Refused(refusal) => {
            let refused = number_and_step(refusal);
            put_refusal(refused.number, refused.step, answer)
        }
    }
}

// Two numbers: 0 and 0, or the refusal.
pub fn tell_verify(answered: VerifyAnswer, answer: &mut [usize]) -> usize
    ensures returned { result ≡ refusal_number (verify_answer_of answered) }
    ensures numbers { answer.new ≡ cut_or_padded (length answer.old) (verify_numbers (verify_answer_of answered)) }
{
    match answered {
        VerifyAnswer::Agrees => put_refusal(0, 0, answer),
        VerifyAnswer::Refused(refusal) => {
            let refused = number_and_step(refusal);
            put_refusal(refused.number, refused.step, answer)
        }
    }
}

// Three numbers: 0, 0 and the updates, or the refusal.
pub fn tell_run(answered: RunAnswer, answer: &mut [usize]) -> usize
    ensures returned { result ≡ refusal_number (run_answer_of answered) }
    ensures numbers { answer.new ≡ cut_or_padded (length answer.old) (one_number (run_answer_of answered)) }
{
    let outcome = answered.outcome;
    match outcome {
        RunOutcome::Finished(updates) => {
            let numbers = [0, 0, updates];
            put(&numbers, answer);
            0
        }
        RunOutcome::Stopped(reason, step) => {
            let number = number_of(reason);
            put_refusal(number, step, answer)
        }
    }
}

// Three numbers: 0, 0 and the member's new sum, or the refusal.
pub fn tell_tally(answered: TallyAnswer, answer: &mut [usize]) -> usize
    ensures returned { result ≡ refusal_number (tally_answer_of answered) }
    ensures numbers { answer.new ≡ cut_or_padded (length answer.old) (one_number (tally_answer_of answered)) }
{
    match answered {
        TallyAnswer::Sum(sum) => {
            let numbers = [0, 0, sum as usize];
            put(&numbers, answer);
            0
        }
        TallyAnswer::NoMember => put_refusal(27, 0, answer),
        TallyAnswer::Full => put_refusal(19, 0, answer),
    }
}

// Three numbers: 0, 0 and the number of entries, or the refusal.
pub fn tell_load(answered: LoadAnswer, answer: &mut [usize]) -> usize
    ensures returned { result ≡ refusal_number (load_answer_of answered) }
    ensures numbers { answer.new ≡ cut_or_padded (length answer.old) (one_number (load_answer_of answered)) }
{
    match answered {
        LoadAnswer::Entries(entries) => {
            let numbers = [0, 0, entries];
            put(&numbers, answer);
            0
        }
        LoadAnswer::Limits => put_refusal(1, 0, answer),
        LoadAnswer::NoDivisor => put_refusal(23, 0, answer),
        LoadAnswer::Stores => put_refusal(6, 0, answer),
    }
}

// Four numbers: 0, 0, 1 where the whole number is below zero, and its size.
pub fn tell_offset(whole: i64, answer: &mut [usize]) -> usize
    ensures returned { result ≡ 0 }
    ensures numbers { answer.new ≡ cut_or_padded (length answer.old) (0 ∷ 0 ∷ offset_numbers whole) }
{
    let minus = minus_of(whole);
    let size = size_of(whole);
    let numbers = [0, 0, minus, size];
    put(&numbers, answer);
    0
}

// The whole number that was written, or the refusal.
pub fn tell_written(answered: WriteAnswer, answer: &mut [usize]) -> usize
    ensures returned { result ≡ refusal_number (write_answer_of answered) }
    ensures numbers { answer.new ≡ cut_or_padded (length answer.old) (write_numbers (write_answer_of answered)) }
{
    match answered {
        WriteAnswer::Written(whole) => tell_offset(whole, answer),
        WriteAnswer::Stores => put_refusal(6, 0, answer),
        WriteAnswer::Beyond => put_refusal(29, 0, answer),
    }
}
