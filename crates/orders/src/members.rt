//! The members that the lines name.
ghost use Rattle.std.specs.Prelude.{◌≡◌};
ghost use Rattle.orders.specs.Members.{distinct_members};
ghost use Rattle.orders.specs.Held.{session_of};

use crate::tables::Tables;

impl Tables {
    /// How many members the lines of the latest call name: the ones of the set of these members.
    pub fn member_count(&self) -> u32
        ensures { result ≡ distinct_members (session_of self.now).lines }
    {
        // A loop, and no `fold`: here each line's member is known to be below 64, as the shift needs.
        let mut members = 0u64;
        for line in self.lines() {
            members |= 1u64 << line.member;
        }
        members.count_ones()
    }
}
