// A contract from its proposal to its end, as one case.
use crate::answer::Left;
use crate::contract::Contract;
use crate::request::Request;
use basis::Basis;
use plan::Plan;
use units::premium::Premium;

// What is proposed, what is asked of the contract then, and whether it is left at last.
#[derive(Drop)]
pub struct Case<P> {
    pub plan: P,
    pub start: usize,
    // In ticks.
    pub deposit: i64,
    pub requests: Vec<Request<P>>,
    pub leaves: bool,
}

// A contract as it is issued, with its premium, its reserve, and the deposit less that reserve.
#[derive(Drop)]
pub struct Issued<'a, B: Basis, P: Plan> {
    pub contract: Contract<'a, B, P>,
    pub premium: Premium,
    pub reserve: i64,
    pub opening_result: i64,
}

// What comes of a case, beside the answers.
#[derive(Drop)]
pub struct Run<'a, B: Basis, P: Plan> {
    pub premium: Premium,
    // The deposit, less the reserve at issue.
    pub opening_result: i64,
    pub end: End<'a, B, P>,
}

#[derive(Drop)]
pub enum End<'a, B: Basis, P: Plan> {
    Stands(Contract<'a, B, P>),
    Left(Left),
}
