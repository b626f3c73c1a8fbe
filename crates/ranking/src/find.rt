//! The one text that finds the best, over places in a plain array.
ghost use Rattle.std.specs.Prelude.{◌≡◌, ℕ, ◌≤◌, None, Option};
ghost use Rattle.ranking.specs.Best.{best_of, place_of, Distinct, Found};

use crate::Ranked;

/// The places of a plain table, some of which hold a thing of the ranked kind `T`.
pub trait Places<T: Ranked> {
    ghost size: { Self → ℕ };

    ghost thing: { Self → ℕ → Option T };

    /// How many places there are.
    fn size(&self) -> usize
        ensures { result ≡ size self.now };

    /// The thing at a place, none at a place past the end.
    fn at(&self, place: usize) -> Option<T>
        ensures is { result ≡ thing self.now place }
        ensures ends { size self.now ≤ place → result ≡ None };
}

/// The place of the best, which is ahead of all others where no two places hold things of one mark.
pub fn find_best<T: Ranked + Drop, S: Places<T>>(table: &S) -> Option<usize>
    ensures is { result ≡ place_of (best_of T.Ranked.ahead (S.Places.size table.now) (S.Places.thing table.now)) }
    ensures best { Distinct T.Ranked.mark (S.Places.size table.now) (S.Places.thing table.now) → Found T.Ranked.ahead (S.Places.size table.now) (S.Places.thing table.now) result }
{
    let mut best: Option<(usize, T)> = None;
    // The loop goes by place: a table of any kind answers for a place, and the place is the answer.
    for place in 0..table.size() {
        if let Some(thing) = table.at(place)
            && best
                .as_ref()
                .is_none_or(|(_, leader)| thing.is_ahead(leader))
        {
            best = Some((place, thing));
        }
    }
    best.map(|(place, _)| place)
}
