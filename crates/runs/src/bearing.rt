// Bearings of the sweep.
ghost use Rattle.std.specs.Prelude.{◌≡◌};
ghost use Rattle.runs.specs.Bearings.{bearing_of};

// The bearing of a sector's number, in tenths of a degree: a turn has 4,096 numbers and 3,600 tenths.
pub fn bearing(number: u64) -> u16
    ensures { result ≡ bearing_of number }
{
    let k = number % 4096;
    ((225 * k + 128) / 256) as u16
}
