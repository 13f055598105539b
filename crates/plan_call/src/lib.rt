// Planning from the judgement to the answer, in stores as they are lent.
#![tactic(auto)]

mod call;

pub use call::judge_and_plan;
