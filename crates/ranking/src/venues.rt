// How the venues that quote on a side rank: by better price.
ghost use Rattle.std.specs.Prelude.{◌≡◌};
ghost use Rattle.market.specs.Venues.{quotes_on, outquotes};
ghost use Rattle.std.proofs.Common.{rules};

use crate::ranked::Ranked;
use market::side::Side;
use market::venue::Venue;

impl Ranked for Venue {
    type View = Side;

    ghost counts = { quotes_on };

    ghost ahead = { outquotes };

    ghost ranking = { Prim.search rules };

    fn qualifies(&self, side: Side) -> bool {
        self.price(side).is_some()
    }

    fn outranks(&self, other: &Venue, side: Side) -> bool {
        let prices = self.price(side).zip(other.price(side));
        prices.is_some_and(|(price, other)| side.is_better(price, other))
    }
}
