// The books of a contract, kept from what it answers, in ticks.
ghost use Rattle.std.specs.Prelude.{◌≡◌, pos};
ghost use Rattle.contracts.specs.Sums.{plus, minus};

use contract::answer::{Altered, Closed, Left};

// Sums over the years, and the reserve that is carried.
#[derive(Clone, Copy)]
pub(crate) struct Books {
    pub premiums: i64,
    pub interest: i64,
    pub benefits: i64,
    pub results: i64,
    pub carried: i64,
}

impl Books {
    // With an opening result, and the reserve at issue.
    pub(crate) fn new(opening: i64, reserve: i64) -> Books
        ensures { result ≡ record {
          premiums = pos 0;
          interest = pos 0;
          benefits = pos 0;
          results = opening;
          carried = reserve;
        } }
    {
        Books {
            premiums: 0,
            interest: 0,
            benefits: 0,
            results: opening,
            carried: reserve,
        }
    }

    // Posts what a closing told.
    pub(crate) fn post_year(&mut self, year: &Closed)
        ensures premiums { self.new.premiums ≡ plus self.old.premiums (pos year.now.premium) }
        ensures interest { self.new.interest ≡ plus self.old.interest year.now.interest_earned }
        ensures benefits { self.new.benefits ≡ plus self.old.benefits (pos year.now.benefits) }
        ensures results { self.new.results
            ≡ plus (plus self.old.results year.now.interest_result) year.now.risk_result }
        ensures carried { self.new.carried ≡ year.now.reserve }
    {
        self.premiums = self.premiums.saturating_add_unsigned(year.premium);
        self.interest = self.interest.saturating_add(year.interest_earned);
        self.benefits = self.benefits.saturating_add_unsigned(year.benefits);
        self.results = self.results.saturating_add(year.interest_result);
        self.results = self.results.saturating_add(year.risk_result);
        self.carried = year.reserve;
    }

    // Posts what an alteration told.
    pub(crate) fn post_alteration(&mut self, altered: &Altered)
        ensures { self.new ≡ record self.old {
          results = plus self.old.results altered.now.result;
          carried = altered.now.reserve;
        } }
    {
        self.results = self.results.saturating_add(altered.result);
        self.carried = altered.reserve;
    }

    // Posts what leaving told: nothing is carried any more.
    pub(crate) fn post_leaving(&mut self, left: &Left)
        ensures { self.new ≡ record self.old {
          benefits = plus self.old.benefits left.now.paid;
          results = plus self.old.results left.now.result;
          carried = pos 0;
        } }
    {
        self.benefits = self.benefits.saturating_add(left.paid);
        self.results = self.results.saturating_add(left.result);
        self.carried = 0;
    }

    // What has come in, on a deposit, less what was paid.
    pub(crate) fn kept_of(&self, deposit: i64) -> i64
        ensures { result
            ≡ minus (plus (plus deposit self.now.premiums) self.now.interest) self.now.benefits }
    {
        deposit
            .saturating_add(self.premiums)
            .saturating_add(self.interest)
            .saturating_sub(self.benefits)
    }
}
