// The answer about a lent plan, from the judgement on, in work stores as they are lent.
#![tactic(auto)]

mod call;

pub use call::judge_and_verify;
