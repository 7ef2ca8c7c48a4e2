// What an end answers and fills in.
ghost use Rattle.std.specs.Prelude.{◌≡◌};

use towers::pair::Pair;

// What a fit answers: the constant of the kept pair, and the ones of its two matrices together.
#[derive(Clone, Copy, PartialEq, Eq, Debug)]
pub struct Answer {
    pub c: u8,
    pub ones: u8,
}

// What tell fills in: the constant, the ones, and the columns, those of the map M before those of its reverse.
#[derive(Clone, Copy, Default, Debug)]
pub struct Told {
    pub c: u8,
    pub ones: u8,
    pub columns: [u8; 16],
}

impl From<Pair> for Answer {
    ghost use Rattle.ends.specs.Model.{answer_of};

    ghost from_gives = { λ pair answer. answer ≡ answer_of pair };

    fn from(pair: Pair) -> Answer {
        Answer {
            c: pair.constant,
            ones: pair.ones,
        }
    }
}

impl From<Pair> for Told {
    ghost use Rattle.ends.specs.Model.{told_of};

    ghost from_gives = { λ pair told. told ≡ told_of pair };

    fn from(pair: Pair) -> Told {
        let Answer { c, ones } = Answer::from(pair);
        let mut columns = [0; 16];
        columns[..8].copy_from_slice(&pair.columns);
        columns[8..].copy_from_slice(&pair.reverse);
        Told { c, ones, columns }
    }
}
