// The prices and share counts that an order may have.
ghost use Rattle.std.specs.Prelude.{◌≡◌, true, OnOk};
ghost use Rattle.market.specs.Rows.{countable};

use market::order::are_countable;
use market::price::is_on_grid;
use market::refusal::Refusal;
use market::row::Kind;

// Whether an order of the kind may have the price.
fn is_price_for(kind: Kind, price: u32) -> bool {
    match kind {
        Kind::Market => price == 0,
        _ => is_on_grid(price),
    }
}

// Refuses a price or a share count that an order of the kind may not have.
pub(crate) fn check_terms(kind: Kind, price: u32, shares: u32) -> Result<(), Refusal>
    ensures { OnOk result (countable shares ≡ true) }
{
    if !is_price_for(kind, price) {
        return Err(Refusal::BadPrice);
    }
    if !are_countable(shares) {
        return Err(Refusal::BadShares);
    }
    Ok(())
}
