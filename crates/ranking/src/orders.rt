// How the orders that rest on a side rank.
ghost use Rattle.std.specs.Prelude.{◌≡◌};
ghost use Rattle.market.specs.Rows.{rests_on, outranks};
ghost use Rattle.market.proofs.Outranking.{outranks_irrefl, outranks_trans, behind_trans};

use crate::ranked::Ranked;
use market::row::{Category, OrderRow};
use market::side::Side;

impl Ranked for OrderRow {
    type View = Side;

    ghost counts = { rests_on };

    ghost ahead = { outranks };

    ghost ranking = { λ side.
        record {
          irreflexive = λ x _. outranks_irrefl side x;
          transitive = λ x y z _ _ _ h k. outranks_trans side x y z h k;
          ties = λ x y z _ _ _ h k m n. behind_trans side z y x m h;
        } };

    fn qualifies(&self, side: Side) -> bool {
        self.rests_on(side)
    }

    fn outranks(&self, other: &OrderRow, side: Side) -> bool {
        if self.working == other.working {
            // no `<` of categories: it asks for both before it looks at either, and a search asks this of each row
            self.category() == Category::Display && other.category() == Category::NonDisplay
        } else {
            side.is_better(self.working, other.working)
        }
    }
}
