// Edits of a line of orders, lent for writing. They ask nothing of the rows in it.
ghost use Rattle.std.specs.Prelude.{◌≡◌, ◌+◌, ◌-◌, ◌<◌, true, [], ◌∷◌, ◌++◌, length, take};
ghost use Rattle.market.specs.Rows.{formed};
ghost use Rattle.rules.specs.Lines.{replace_at, to_end};

use market::order::Order;
use market::row::OrderRow;

// Writes an order whole in the place `i`.
pub fn write(rows: &mut [OrderRow], i: usize, order: Order)
    requires { i < length rows.old }
    ensures rows { rows.new ≡ replace_at i (order ∷ []) rows.old }
    ensures order { formed order ≡ true }
{
    rows[i] = order.row();
}

// Moves the row at `i` to the end; the rows behind it move up by one place.
pub fn move_to_end(rows: &mut [OrderRow], i: usize)
    requires { i < length rows.old }
    ensures moved { rows.new ≡ to_end i rows.old }
    ensures before { take (length rows.old - 1) rows.new ≡ replace_at i [] rows.old }
{
    rows[i..].rotate_left(1);
}

// Adds an order at the end of a line of the first `len` rows, which is one row longer after.
pub fn append(rows: &mut [OrderRow], len: usize, order: Order)
    requires { len < length rows.old }
    ensures line { take (len + 1) rows.new ≡ take len rows.old ++ order ∷ [] }
    ensures order { formed order ≡ true }
{
    write(rows, len, order);
}

// Takes the row at `i` out of the line, which is one row shorter after.
pub fn remove(rows: &mut [OrderRow], i: usize)
    requires { i < length rows.old }
    ensures { take (length rows.old - 1) rows.new ≡ replace_at i [] rows.old }
{
    move_to_end(rows, i);
}

// Moves the row at `i` to the end, and writes an order whole in its place there.
pub fn write_last(rows: &mut [OrderRow], i: usize, order: Order)
    requires { i < length rows.old }
    ensures line { rows.new ≡ replace_at i [] rows.old ++ order ∷ [] }
    ensures order { formed order ≡ true }
{
    remove(rows, i);
    append(rows, rows.len() - 1, order);
}
