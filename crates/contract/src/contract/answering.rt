// Answering a request of any kind.
ghost use Rattle.contract.specs.Calls.{asked, said, Turns};

use super::Contract;
use crate::answer::Answer;
use crate::request::Request;
use basis::Basis;
use plan::Plan;
use valuation::Valuation;

impl<'a, B: Basis, P: Plan + Drop> Contract<'a, B, P> {
    // The answer to a request, on which the contract closes, alters or stays as it is.
    pub(crate) fn answer<V: Valuation>(
        &mut self,
        valuation: &V,
        request: Request<P>,
    ) -> Answer<V::Figure>
        ensures { Turns (V.operations valuation.now)
            self.old (asked P.payments request) (said result) self.new }
    {
        match request {
            Request::Close { end, rate } => match self.close(end, rate) {
                Ok(closed) => Answer::Closed(closed),
                Err(fault) => Answer::Refused(fault),
            },
            Request::Alter(plan) => match self.alter(plan) {
                Ok(altered) => Answer::Altered(altered),
                Err(fault) => Answer::Refused(fault),
            },
            Request::Reserve => Answer::Reserve(self.reserve()),
            Request::Span => Answer::Span(self.span()),
            Request::Figure => Answer::Figure(self.figure(valuation)),
            Request::Course(mut column) => match self.course(&mut column) {
                Ok(()) => Answer::Course(column),
                Err(fault) => Answer::TooShort { fault, column },
            },
        }
    }
}
