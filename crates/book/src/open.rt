// Before a book is opened.
ghost use Rattle.std.specs.Prelude.{◌≡◌, length};
ghost use Rattle.book.specs.Opening.{table_check};

use market::refusal::Refusal;
use market::row::OrderRow;
use matching::reprice::MOST_ROWS;

// Refuses an order table of 0 rows, or of more than a book uses.
pub fn check_order_table(rows: &[OrderRow]) -> Result<(), Refusal>
    ensures { result ≡ table_check (length rows.now) }
{
    if (1..=MOST_ROWS).contains(&rows.len()) {
        Ok(())
    } else {
        Err(Refusal::OrderTableSize)
    }
}
