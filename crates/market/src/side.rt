// The side of an order. Every comparison of prices takes the side, so that a rule told for a buy is told for a sell.
ghost use Rattle.std.specs.Prelude.{◌≡◌};
ghost use Rattle.market.specs.Sides.{opposite as oppositeOf, inside, better, tighter as tighterOf};

#[derive(Clone, Copy, Debug, PartialEq, Eq)]
pub enum Side {
    Buy,
    Sell,
}

impl Side {
    pub fn opposite(self) -> Side
        ensures { result ≡ oppositeOf self }
    {
        match self {
            Side::Buy => Side::Sell,
            Side::Sell => Side::Buy,
        }
    }

    // Whether an order of this side with that bound may trade at the price.
    pub fn may_trade(self, price: u32, bound: u32) -> bool
        ensures { result ≡ inside self price bound }
    {
        match self {
            Side::Buy => price <= bound,
            Side::Sell => price >= bound,
        }
    }

    // Whether the first price is strictly better for a resting order of this side.
    pub fn is_better(self, a: u32, b: u32) -> bool
        ensures { result ≡ better self a b }
    {
        match self {
            Side::Buy => a > b,
            Side::Sell => a < b,
        }
    }

    // The one of two bounds that lets an order of this side trade at fewer prices.
    pub fn tighter(self, a: u32, b: u32) -> u32
        ensures { result ≡ tighterOf self a b }
    {
        match self {
            Side::Buy => a.min(b),
            Side::Sell => a.max(b),
        }
    }
}
