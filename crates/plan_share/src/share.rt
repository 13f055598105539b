// How much of a new list already stands at the end of its store (report, section 3.1, by document 02, ticket 5).
ghost use Rattle.std.specs.Prelude.{◌≡◌, take};
ghost use Rattle.lists.specs.Sets.{overlap, Ascending};
ghost use Rattle.plan_share.specs.Sharing.{EndAsks};

use answers::SubscriptPlace;

// The longest t for which the last t subscripts of a store equal the first t of a new list. The list ascends, so only that t can be it whose last
// member is the store's last subscript: a longer one ends above, a shorter one below. So there is at most one comparison more than the list has members.
pub fn longest_shared(store: &[usize], new: &[usize]) -> usize
    requires { Ascending 0 new.now }
    ensures { result ≡ overlap store.now new.now }
{
    let size = store.len();
    let mut t = size;
    if new.len() < t {
        t = new.len();
    }
    'shorter: while 0 < t {
        if store[size - 1] < new[t - 1] {
            t -= 1;
            continue 'shorter;
        }
        let from = size - t;
        let mut i = 0;
        while i < t {
            if store[from + i] != new[i] {
                break 'shorter;
            }
            i += 1;
        }
        return t;
    }
    0
}

// How many subscripts a new list shares with the end of the used part of its store, whichever list put them there.
pub fn shared_end(new: &[usize], subs: &[usize], end: SubscriptPlace) -> usize
    requires { EndAsks new.now subs.now end.0 }
    ensures { result ≡ overlap (take end.0 subs.now) new.now }
{
    let at = end.0;
    longest_shared(&subs[0..at], new)
}
