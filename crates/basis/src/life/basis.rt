// What a life table answers as a basis.
ghost use Rattle.basis.specs.LifeTables.{life_table};
ghost use Rattle.basis.specs.LifeLaw.{life_table_lawful};

use super::LifeTable;
use crate::Basis;
use units::MILLION;

impl Basis for LifeTable {
    ghost meaning = { life_table };

    ghost lawful = { life_table_lawful };

    fn states(&self) -> usize {
        2
    }

    fn years(&self) -> usize {
        self.deaths.len()
    }

    fn factor(&self, year: usize) -> u32 {
        if year < self.deaths.len() {
            self.factor
        } else {
            MILLION
        }
    }

    fn share(&self, from: usize, to: usize, year: usize) -> u32 {
        match (from, to, self.deaths.get(year)) {
            (0, 0, Some(dead)) => MILLION - *dead,
            (0, 1, Some(dead)) => *dead,
            (1, 1, Some(_)) => MILLION,
            _ => 0,
        }
    }
}
