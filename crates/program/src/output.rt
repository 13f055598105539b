// What is handed to standard output.
//
// std says nothing of what reaches standard output: what is stated here is which bytes are written to it.
ghost use Rattle.std.specs.Prelude.{List, ◌≡◌, ℕ, take};
ghost use Rattle.foundation.specs.Printing.{printed};
ghost use Rattle.program.specs.Output.{AnswerTo};

// The first `count` places, or all of a shorter store.
pub fn front(store: &[u8], count: usize) -> &[u8]
    ensures { result.now ≡ take count store.now }
{
    if store.len() < count {
        return store;
    }
    &store[0..count]
}

// The text of an answer, which is what is printed for the job that it answers.
pub fn text(bytes: &[u8], count: usize) -> &[u8]
    ensures { (job : List ℕ) → AnswerTo job count bytes.now → result.now ≡ printed job }
{
    front(bytes, count)
}
