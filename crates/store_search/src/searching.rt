// How a list lies to another: whether it only adds behind its end.
ghost use Rattle.std.specs.Prelude.{IfSome};
ghost use Rattle.store_search.specs.Behind.{BehindAs, BehindMember};

use crate::finding::place_of;

// What stands behind a member of an ascending list; nothing where it is none. It is looked at the head first, where it stands most often.
fn behind_member(list: &[usize], x: usize) -> Option<&[usize]>
    ensures { IfSome result (λ rest. BehindMember list.now x rest.now) }
{
    let (first, rest) = list.split_first()?;
    if *first == x {
        return Some(rest);
    }
    let (_, from) = list.split_at(place_of(list, x));
    let (found, rest) = from.split_first()?;
    if *found != x {
        return None;
    }
    Some(rest)
}

// From which place on a second list stands behind a first, all before that place being members of it; `None` where the second one adds between
// them. Its members up to the last one of the first are looked up in the first.
pub fn search_behind(have: &[usize], more: &[usize]) -> Option<usize>
    ensures { BehindAs result have.now more.now }
{
    let Some(last) = have.last() else {
        return Some(0);
    };
    let mut left = have;
    for (at, x) in more.iter().enumerate() {
        if last < x {
            return Some(at);
        }
        left = behind_member(left, *x)?;
    }
    Some(more.len())
}
