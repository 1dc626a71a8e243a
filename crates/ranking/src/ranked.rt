// Rows that have a ranking, and the first-ranked row of a slice.
ghost use Rattle.std.specs.Prelude.{◌≡◌, Bool};
ghost use Rattle.ranking.specs.Ranking.{Ranking, First};

pub trait Ranked {
    // What a ranking is asked for: of order rows and of venues, a side.
    type View: Copy;

    // Whether a row qualifies in a view.
    ghost counts: { Self.View → Self → Bool };

    // Whether the first row outranks the second.
    ghost ahead: { Self.View → Self → Self → Bool };

    fn qualifies(&self, view: Self::View) -> bool
        ensures { result ≡ counts view self.now };

    fn outranks(&self, other: &Self, view: Self::View) -> bool
        ensures { result ≡ ahead view self.now other.now };

    ghost ranking: { (v : Self.View) → Ranking (counts v) (ahead v) };
}

// Whether a later row takes the lead: only if it outranks the leader, so that the earliest of tied rows keeps it.
fn takes_lead<R: Ranked>(row: &R, leader: &R, view: R::View) -> bool
    ensures { result ≡ R.ahead view row.now leader.now }
{
    row.outranks(leader, view)
}

// The place of the earliest row that qualifies and that no row that qualifies outranks. A loop: `min_by` asks for
// an order, and rows that tie are not equal. The search lends out no row, only places (DECISIONS).
pub fn first_ranked<R: Ranked>(rows: &[R], view: R::View) -> Option<usize>
    ensures { First (R.counts view) (R.ahead view) rows.now result }
{
    let mut best: Option<usize> = None;
    for (i, row) in rows.iter().enumerate() {
        if row.qualifies(view) {
            // tried with `is_none_or`: the loop's proof did not close
            match best {
                None => best = Some(i),
                Some(b) => {
                    if takes_lead(row, &rows[b], view) {
                        best = Some(i);
                    }
                }
            }
        }
    }
    best
}
