// The columns of the caller, after the last line.
ghost use Rattle.std.specs.Prelude.{◌≡◌, ◌≤◌, length};
ghost use Rattle.sheet.specs.Readers.{held};
ghost use Rattle.sheet.specs.Readings.{filled};

use super::Reader;

// Numbers in the first places of a column.
fn fill(column: &mut [i64], numbers: &[u32])
    requires { length numbers.now ≤ length column.old }
    ensures { column.new ≡ filled numbers.now column.old }
{
    for (i, number) in numbers.iter().enumerate() {
        column[i] = i64::from(*number);
    }
}

impl Reader {
    pub(crate) fn fill(&self, factors: &mut [i64], shares: &mut [i64])
        requires for_factors { length (held self.now).factors ≤ length factors.old }
        requires for_shares { length (held self.now).shares ≤ length shares.old }
        ensures factors { factors.new ≡ filled (held self.now).factors factors.old }
        ensures shares { shares.new ≡ filled (held self.now).shares shares.old }
    {
        fill(factors, &self.factors[..self.come]);
        fill(shares, &self.shares[..self.next]);
    }

    pub(crate) fn states(&self) -> usize
        ensures { result ≡ (held self.now).states }
    {
        self.states
    }

    pub(crate) fn years(&self) -> usize
        ensures { result ≡ (held self.now).years }
    {
        self.years
    }
}
