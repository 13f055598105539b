// The tests before a run: what planning's answer about the lent plan comes to, with 26 before its 9, then 10, 11 and 12.
ghost use Rattle.std.specs.Prelude.{◌&&◌, ◌≡◌};
ghost use Rattle.lists.specs.Functions.{all};
ghost use Rattle.foundation.specs.Numbers.{finite};
ghost use Rattle.foundation.specs.Pattern.{Lent, Pattern};
ghost use Rattle.foundation.specs.RunCall.{choice_fits, extent_fits, order_fits, may_run};
ghost use Rattle.answers.specs.RunStores.{lending_by};
ghost use Rattle.answers.specs.Runs.{chosen_by, extent_of};
ghost use Rattle.run_judge.specs.Judgement.{judgement_of, compared_plan, plan_judgement, floats_fit, with_floats, in_order, tested, JudgeAsks};

use crate::lending::{all_finite, lending_fits, rows_in_range};
use answers::{Extent, PivotChoice, Refusal, RunReason, VerifyAnswer};

// Whether a run may begin, or why not.
#[derive(Clone, Copy)]
pub enum Judgement {
    MayRun,
    Refused(RunReason),
}

// Refusal 6, of the two f64 work stores: they have a place for each row, and one more.
fn floats_fit(height: usize, copy: usize, dense: usize) -> bool
    ensures { result ≡ floats_fit height copy dense }
{
    if copy != height {
        return false;
    }
    if dense == 0 {
        return false;
    }
    dense - 1 == height
}

// Refusal 26: a whole run has no more rows than n; a cut one may.
fn may_run(n: usize, height: usize, extent: Extent) -> bool
    ensures { (p : Lent) → p.n ≡ n → p.height ≡ height → result ≡ may_run p (extent_of extent) }
{
    match extent {
        Extent::Whole => height <= n,
        Extent::Cut(_) => true,
    }
}

// A lent plan that was compared with the pattern's, in the table's order: 6 of the two f64 work stores, 26, 9.
fn compared_plan(sized: bool, may: bool, same: bool) -> Judgement
    ensures { result ≡ compared_plan sized may same }
{
    if !sized {
        return Judgement::Refused(RunReason::Stores);
    }
    if !may {
        return Judgement::Refused(RunReason::Tall);
    }
    if !same {
        return Judgement::Refused(RunReason::OtherPlan);
    }
    Judgement::MayRun
}

// A refusal of planning's. Of those only 9 stands behind 6 and 26.
fn refusal_judgement(refusal: Refusal, sized: bool, may: bool) -> Judgement
    ensures { result ≡ plan_judgement (VerifyAnswer.Refused refusal) sized may }
{
    match refusal {
        Refusal::Limits => Judgement::Refused(RunReason::Limits),
        Refusal::Height => Judgement::Refused(RunReason::Height),
        Refusal::Starts => Judgement::Refused(RunReason::Starts),
        Refusal::Column => Judgement::Refused(RunReason::Column),
        Refusal::Order => Judgement::Refused(RunReason::Order),
        Refusal::Diagonal => Judgement::Refused(RunReason::Diagonal),
        Refusal::Stores => Judgement::Refused(RunReason::Stores),
        Refusal::LowerRoom(_) => Judgement::Refused(RunReason::OtherPlan),
        Refusal::UpperRoom(_) => Judgement::Refused(RunReason::OtherPlan),
        Refusal::OtherPlan => compared_plan(sized, may, false),
    }
}

// Planning's answer, once the two f64 work stores and 26 are counted in.
fn plan_judgement(verified: VerifyAnswer, sized: bool, may: bool) -> Judgement
    ensures { result ≡ plan_judgement verified sized may }
{
    match verified {
        VerifyAnswer::Refused(refusal) => refusal_judgement(refusal, sized, may),
        VerifyAnswer::Agrees => compared_plan(sized, may, true),
    }
}

// Refusal 12, of the row list: it is n long, and p_k is from k to the row count.
fn list_fits(n: usize, height: usize, choice: PivotChoice, rows: &[usize]) -> bool
    ensures { (p : Pattern) → p.n ≡ n → p.height ≡ height → result ≡ choice_fits p (chosen_by choice rows.now) }
{
    let PivotChoice::Listed = choice else {
        return true;
    };
    if rows.len() != n {
        return false;
    }
    rows_in_range(height, rows)
}

// Refusal 12, of the cut: it has at most n steps.
fn cut_fits(n: usize, extent: Extent) -> bool
    ensures { (p : Pattern) → p.n ≡ n → result ≡ extent_fits p (extent_of extent) }
{
    match extent {
        Extent::Whole => true,
        Extent::Cut(steps) => steps <= n,
    }
}

// Refusal 12: the row list fits, and the cut does.
fn order_fits(n: usize, height: usize, choice: PivotChoice, rows: &[usize], extent: Extent) -> bool
    ensures { (p : Pattern) → p.n ≡ n → p.height ≡ height → result ≡ order_fits p (chosen_by choice rows.now) (extent_of extent) }
{
    if !list_fits(n, height, choice, rows) {
        return false;
    }
    cut_fits(n, extent)
}

// Refusal 11: the values and the right side are finite.
fn numbers_fit(values: &[f64], right: &[f64]) -> bool
    ensures { result ≡ (all finite values.now && all finite right.now) }
{
    if !all_finite(values) {
        return false;
    }
    all_finite(right)
}

// The tests behind planning's, in the table's order: 10, 11, 12.
fn in_order(lends: bool, fine: bool, ordered: bool) -> Judgement
    ensures { judgement_of result ≡ in_order lends fine ordered }
{
    if !lends {
        return Judgement::Refused(RunReason::Lending);
    }
    if !fine {
        return Judgement::Refused(RunReason::Values);
    }
    if !ordered {
        return Judgement::Refused(RunReason::RowList);
    }
    Judgement::MayRun
}

// All tests in the table's order: 1, 25, 2 to 6, 26, 9, then 10, 11, 12.
pub fn judge(
    verified: VerifyAnswer,
    n: usize,
    height: usize,
    entries: usize,
    l_planned: usize,
    u_planned: usize,
    values: &[f64],
    right: &[f64],
    choice: PivotChoice,
    rows: &[usize],
    extent: Extent,
    l: usize,
    u: usize,
    d: usize,
    x: usize,
    pivots: usize,
    copy: usize,
    dense: usize,
) -> Judgement
    ensures { (w : JudgeAsks verified n height entries l_planned u_planned) → judgement_of result
        ≡ tested w.most w.p w.q (with_floats w.work copy dense) (chosen_by choice rows.now) (extent_of extent)
        (lending_by values.now right.now l u d x pivots) }
{
    let sized = floats_fit(height, copy, dense);
    let may = may_run(n, height, extent);
    let planned = plan_judgement(verified, sized, may);
    if let Judgement::Refused(reason) = planned {
        return Judgement::Refused(reason);
    }
    let lends = lending_fits(
        n,
        height,
        entries,
        values.len(),
        right.len(),
        x,
        pivots,
        d,
        l,
        u,
        l_planned,
        u_planned,
    );
    let fine = numbers_fit(values, right);
    let ordered = order_fits(n, height, choice, rows, extent);
    in_order(lends, fine, ordered)
}
