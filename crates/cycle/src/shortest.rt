// The shortest row of reports that shows a refusal, in one pass over the pairs. Such a row goes over more than one bound, B records or P minutes, and has
// less than another of the other, R minutes or L records: so a 15 is looked for by records, a 16 by minutes. From each start the window has the
// fewest reports that go over the first bound, and what these have of the other judges the start. Whole rounds are a product.
ghost use Rattle.std.specs.Prelude.{◌≡◌, ◌-◌, ◌*◌, ◌<◌, ◌≤◌, length, Some};
ghost use Rattle.cycle.specs.Shortest.{shortest_full, shortest_thin};
ghost use Rattle.cycle.specs.Windows.{pairs_in, run_in, Walkable};
ghost use Rattle.cycle.specs.Rows.{left_out, row_of, row_shows, shorter, without_first, Found};
ghost use Rattle.cycle.specs.declared.windows.Measure.TheVariants.{Minutes, Records};

use crate::Row;
use crate::windows::{Cycle, EMPTY, Measure, Window};
use spec::Rate;

impl Row {
    // The same without its first report.
    fn without_first(self) -> Row
        requires { 1 ≤ self.reports }
        ensures { result ≡ without_first self }
    {
        Row {
            first: self.first,
            reports: self.reports - 1,
        }
    }
}

// The new row, where it is shorter.
fn shorter(best: Option<Row>, row: Row) -> Option<Row>
    ensures { result ≡ shorter best row }
{
    match best {
        Some(b) if b.reports <= row.reports => best,
        _ => Some(row),
    }
}

impl<'a> Cycle<'a> {
    // The report of a window that the other bound leaves out: the first, which lies before its minutes, or the last, whose gap lies behind its
    // records.
    fn left_out(&self, w: Window) -> usize
        requires { 1 ≤ w.past }
        ensures { result ≡ left_out self.now.by w }
    {
        match self.by {
            Measure::Minutes => w.first,
            Measure::Records => w.past - 1,
        }
    }

    // The row of a window's reports and of some whole rounds.
    fn row(&self, rounds: u64, w: Window) -> Row
        requires { (rounds ≤ 65535) × (w.first ≤ w.past) × (w.past ≤ 1024) }
        ensures { result ≡ row_of (length self.now.pairs.now) rounds w }
    {
        // It fits, as is proved: `try_from` would bring an error that never comes.
        Row {
            first: w.first as u32,
            reports: rounds as u32 * self.pairs.len() as u32 + (w.past - w.first) as u32,
        }
    }

    // Of the rows that go over more than `most` and have less than `below` of the other, that with the fewest reports and, of equals, the lowest number.
    fn shortest(&self, most: u16, below: u16) -> Option<Row>
        ensures { Found (row_shows self.now.by (run_in self.now.by self.now.pairs.now) most below) (length self.now.pairs.now) result }
    {
        let parts = self.parts(u64::from(most) + 1);
        let mut best = None;
        let mut w = EMPTY;
        while w.first < self.pairs.len() {
            w = self.filled(w, parts.rest);
            let x = self.report(self.left_out(w));
            if parts.records + w.records < u64::from(below) + u64::from(x.size) {
                best = shorter(best, self.row(parts.rounds, w));
            }
            w = w.without(self.report(w.first));
        }
        best
    }
}

// The fewest reports that hold more than B and of which the first and the last are less than R minutes apart.
pub(crate) fn full_row(rate: Option<Rate>, pairs: &[[u16; 2]]) -> Option<Row>
    requires { Walkable (pairs_in Minutes pairs.now) × Walkable (pairs_in Records pairs.now) }
    ensures { result ≡ shortest_full rate (pairs_in Minutes pairs.now) }
{
    let x = rate?;
    let cycle = Cycle {
        pairs,
        by: Measure::Records,
    };
    cycle.shortest(x.records, x.minutes)
}

// The fewest reports between two that are more than P minutes apart, which hold less than L.
pub(crate) fn thin_row(rate: Option<Rate>, pairs: &[[u16; 2]]) -> Option<Row>
    requires { Walkable (pairs_in Minutes pairs.now) }
    ensures { result ≡ shortest_thin rate (pairs_in Minutes pairs.now) }
{
    let x = rate?;
    let cycle = Cycle {
        pairs,
        by: Measure::Minutes,
    };
    let row = cycle.shortest(x.minutes, x.records)?;
    Some(row.without_first())
}
