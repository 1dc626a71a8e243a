// Four worked figures, as facts about the definitions; the code is bound to these by its contracts.
ghost use Rattle.std.specs.Prelude.{◌≡◌, true};
ghost use Rattle.rules.specs.Figures.{Figures};

use market::price::{collar, step_above, step_below};
use market::side::Side;

pub fn figures_hold() -> bool
    ensures definitions { Figures }
    ensures code { result ≡ true }
{
    step_below(10_000) == 9_999
        && step_above(9_999) == 10_000
        && collar(Side::Buy, 250_000) == 275_000
        && collar(Side::Buy, 250_100) == 262_605
}
