// A chain that is walked, member by member.
ghost use Rattle.std.specs.Prelude.{List, ◌≡◌, ℕ};
ghost use Rattle.store_lists.specs.Chains.{Linked, chain-unique};

// What is left of a chain: the store of its links, and the member that comes next, 0 at the end.
#[derive(Drop)]
pub struct Chain<'a> {
    links: &'a [usize],
    next: usize,
    pub ghost members: { (xs : List ℕ) × Linked links.now next xs } by { chain-unique links.now next },
}

// The chain that begins with `first`.
pub fn walk(first: usize, links: &[usize]) -> Chain<'_>
    requires { (xs : List ℕ) × Linked links.now first xs }
    ensures { (xs : List ℕ) → Linked links.now first xs → result.members.0 ≡ xs }
{
    Chain { links, next: first }
}

impl<'a> Iterator for Chain<'a> {
    ghost use Rattle.std.specs.Iterator.{YieldsFirst, item_count};

    type Item = usize;

    ghost next_gives = { YieldsFirst (λ c. c.members.0) };

    ghost remaining = { item_count (λ c. c.members.0) };

    fn next(&mut self) -> Option<usize> {
        let member = self.next;
        if member == 0 {
            return None;
        }
        self.next = self.links[member];
        Some(member)
    }
}
