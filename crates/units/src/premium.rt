// A yearly premium: an amount that comes in.
use crate::amount::Amount;

pub type Premium = Amount;
