// Where rows stand that a basis or a plan does not lend.
use units::MOST_STATES;
use units::amount::Amount;

// One for all states of a year: to make it anew for each would cost as much as a short row.
#[derive(Clone, Copy)]
pub(crate) struct Rooms {
    pub(crate) shares: [u32; MOST_STATES],
    pub(crate) amounts: [Amount; MOST_STATES],
}

impl Rooms {
    pub(crate) fn new() -> Rooms {
        Rooms {
            shares: [0; MOST_STATES],
            amounts: [Amount::zero(); MOST_STATES],
        }
    }
}
