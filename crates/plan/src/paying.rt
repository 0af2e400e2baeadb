// When a premium is due that is paid in the first years of a contract.
ghost use Rattle.std.specs.Prelude.{◌≡◌, ◌==◌, ◌&&◌, nat_lt};

// Whether it is due in a state at the start of a year: in state 0, in the first `paying_years`.
pub(crate) fn is_paying(state: usize, year: usize, paying_years: usize) -> bool
    ensures { result ≡ (state == 0 && nat_lt year paying_years) }
{
    state == 0 && year < paying_years
}
