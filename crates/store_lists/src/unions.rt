// The union of two ascending lists by a merge in place.
ghost use Rattle.std.specs.Prelude.{List, ◌∷◌, ◌++◌, ◌≡◌, ℕ, ◌+◌, ◌≤◌, length, take, drop};
ghost use Rattle.lists.specs.Sets.{union};
ghost use Rattle.store_lists.specs.Merging.{Merging};

// How far a merge has come: the place in the store that is read next, and how many numbers are written.
#[derive(Clone, Copy)]
struct Merged {
    read: usize,
    written: usize,
}

// The second list's next member, y, is written, and before it what the first list has below y. What is written never passes what is read: no fewer
// numbers are still to be written than are left to be read. Counted by hand: no iterator reads a store that is written meanwhile.
fn write_next(store: &mut [usize], from: Merged, y: usize) -> Merged
    requires { (whole : List ℕ) × (later : List ℕ) × Merging from.read from.written store.old whole (y ∷ later) }
    ensures { (whole : List ℕ) (later : List ℕ) → Merging from.read from.written store.old whole (y ∷ later)
        → Merging result.read result.written store.new whole later }
{
    let mut read = from.read;
    let mut written = from.written;
    while read < store.len() {
        let x = store[read];
        if y <= x {
            store[written] = y;
            return Merged {
                read: read + usize::from(x == y),
                written: written + 1,
            };
        }
        store[written] = x;
        read += 1;
        written += 1;
    }
    store[written] = y;
    Merged {
        read,
        written: written + 1,
    }
}

// The union of the list at the front of a store, `count` numbers long, and another list, in place; how many members it has. The list is moved to
// the end first, and the merge writes the front; then what is left of it is moved down, or what is left of the other is appended in one piece.
pub fn merge_in(count: usize, more: &[usize], store: &mut [usize]) -> usize
    requires { (count ≤ length store.old) × (length (union (take count store.old) more.now) ≤ length store.old) }
    ensures { (result ≡ length (union (take count store.old) more.now)) × (take result store.new ≡ union (take count store.old) more.now) }
{
    let from = store.len() - count;
    store.copy_within(..count, from);
    let mut merged = Merged {
        read: from,
        written: 0,
    };
    for (at, y) in more.iter().enumerate() {
        if store.len() <= merged.read {
            return append(&more[at..], store, merged.written);
        }
        merged = write_next(store, merged, *y);
    }
    store.copy_within(merged.read.., merged.written);
    merged.written + (store.len() - merged.read)
}

// A list is written into a store from a place on. The place after it is returned. `copy_from_slice` is plainer, and the archive for C would need `memmove` for it.
pub fn append(list: &[usize], out: &mut [usize], at: usize) -> usize
    requires { at + length list.now ≤ length out.old }
    ensures { (result ≡ at + length list.now) × (out.new ≡ take at out.old ++ list.now ++ drop (at + length list.now) out.old) }
{
    for (i, x) in list.iter().enumerate() {
        out[at + i] = *x;
    }
    at + list.len()
}
