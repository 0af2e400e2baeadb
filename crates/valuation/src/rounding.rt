// Rounding of sums and products, in millionths of a tick, that are known to be near nought: such an
// amount is raised above it first, since a division without a sign takes half the time.
ghost use Rattle.std.specs.Prelude.{◌≡◌};
ghost use Rattle.units.specs.Near.{Within};
ghost use Rattle.units.specs.Rounding.{nearest};
ghost use Rattle.valuation.specs.Means.{rounded_mean, rounded_discount};

// By so many ticks.
const RAISED: i64 = 4_600_000_000_000;

fn round_near(amount: i64) -> i64
    requires { Within 4600000000000000000 amount }
    ensures { result ≡ nearest amount }
{
    let raised = amount + RAISED * 1_000_000 + 500_000;
    (raised as u64 / 1_000_000) as i64 - RAISED
}

// How a mean is rounded.
pub(crate) fn round_near_mean(sum: i64) -> i64
    requires { Within 4600000000000000000 sum }
    ensures { result ≡ rounded_mean sum }
{
    round_near(sum)
}

// How a discounted amount is rounded: by a name of its own, so that either rounding can change
// alone.
pub(crate) fn round_near_discount(product: i64) -> i64
    requires { Within 4600000000000000000 product }
    ensures { result ≡ rounded_discount product }
{
    round_near(product)
}
