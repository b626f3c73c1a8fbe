//! The ranking of the lines of a call.
ghost use Rattle.std.specs.Prelude.{◌≡◌, length};
ghost use Rattle.ranking.specs.declared.lines.LineKey.{LineKey};
ghost use Rattle.ranking.specs.Best.{best_of, place_of, Distinct, Found};
ghost use Rattle.ranking.specs.Lines.{line_ahead, line_at};
ghost use Rattle.std.proofs.Common.{rules};

use crate::Ranked;
use crate::find::{Places, find_best};

/// What a line of a call is ranked by. Lines of a call differ by their making.
#[derive(Clone, Copy, PartialEq, Eq, PartialOrd, Ord, Debug)]
pub struct LineKey {
    pub member: u8,
    pub order: u16,
    pub making: u16,
}

impl Ranked for LineKey {
    ghost mark = { λ x. x.making };

    ghost ahead = { line_ahead };

    ghost ranks = { Prim.search rules };

    fn is_ahead(&self, other: &LineKey) -> bool {
        self < other
    }
}

/// The lines of a call in a plain array.
#[derive(Drop)]
pub struct Lines<'a> {
    keys: &'a [LineKey],
}

impl<'a> Places<LineKey> for Lines<'a> {
    ghost size = { λ v. length v.keys.now };

    ghost thing = { λ v. line_at v.keys.now };

    fn size(&self) -> usize {
        self.keys.len()
    }

    fn at(&self, place: usize) -> Option<LineKey> {
        self.keys.get(place).copied()
    }
}

/// The place of the line that comes first.
pub fn best_line(lines: &[LineKey]) -> Option<usize>
    ensures is { result ≡ place_of (best_of line_ahead (length lines.now) (line_at lines.now)) }
    ensures best { Distinct (λ (x : LineKey). x.making) (length lines.now) (line_at lines.now) → Found line_ahead (length lines.now) (line_at lines.now) result }
{
    find_best::<LineKey, Lines>(&Lines { keys: lines })
}
