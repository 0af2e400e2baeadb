// The table plan: an amount for each state and each move in each year.
ghost use Rattle.std.specs.Prelude.{◌≤◌, map, vec_capacity};
ghost use Rattle.plan.specs.PaymentColumns.{FitSize, amount_entry, mark_entry};

mod check;
mod make;
mod plan;

use units::amount::Amount;

// The last year in which a benefit is paid or the premium is due, and the three columns. Benefits
// and marks stay apart as they are handed in: pairs of them would want a fill of their own.
#[derive(Drop)]
pub struct PaymentTable {
    years: usize,
    benefits: Vec<Amount>,
    marks: Vec<bool>,
    moves: Vec<Amount>,
    ghost size: { FitSize years (map amount_entry benefits.items) (map mark_entry marks.items) (map amount_entry moves.items) },
    ghost benefit_room: { 968 ≤ vec_capacity benefits },
    ghost mark_room: { 968 ≤ vec_capacity marks },
    ghost move_room: { 7680 ≤ vec_capacity moves },
}
