// Matrices over the field of two elements, by their columns.
ghost use Rattle.std.specs.Prelude.{◌≡◌, ◌<◌, ◌≤◌, length};
ghost use Rattle.towers.specs.Matrices.{apply, entries};
ghost use Rattle.towers.specs.Place.{Solution, Solves, Reversed};

// The sum of the columns that the bits of v mark, bit by bit: there may be more columns than a shift of v takes.
pub(crate) fn combine(columns: &[u8], v: u8) -> u8
    ensures { result ≡ apply columns.now v }
{
    let mut sum = 0;
    let mut rest = v;
    for column in columns {
        if rest % 2 == 1 {
            sum ^= *column;
        }
        rest /= 2;
    }
    sum
}

// A number below the bound whose marked columns add up to the code.
pub(crate) fn solve(columns: &[u8], bound: u16, code: u8) -> Option<u8>
    requires { bound ≤ 256 }
    ensures { Solution columns.now bound code result }
{
    for v in 0..bound {
        if combine(columns, v as u8) == code {
            return Some(v as u8);
        }
    }
    None
}

// The same, and 0 where there is no such number; of a matrix that has a reverse there always is one.
pub(crate) fn preimage(columns: &[u8], bound: u16, code: u8) -> u8
    requires some { 0 < bound }
    requires few { bound ≤ 256 }
    ensures { Solves columns.now bound code result }
{
    solve(columns, bound, code).unwrap_or(0)
}

// The columns of the reverse matrix.
pub(crate) fn reverse(columns: &[u8; 8]) -> [u8; 8]
    ensures { Reversed 8 columns.now result }
{
    // Eight calls: with `map` over the eight codes a fit takes four times as long.
    [
        preimage(columns, 256, 1),
        preimage(columns, 256, 2),
        preimage(columns, 256, 4),
        preimage(columns, 256, 8),
        preimage(columns, 256, 16),
        preimage(columns, 256, 32),
        preimage(columns, 256, 64),
        preimage(columns, 256, 128),
    ]
}

// The entries 1. A loop over the columns that counts set bits is the form that the product prescribes.
pub(crate) fn count(columns: &[u8]) -> u8
    requires { length columns.now ≤ 8 }
    ensures value { result ≡ entries columns.now }
    ensures few { result ≤ 64 }
{
    let mut total = 0;
    for column in columns {
        total += column.count_ones() as u8;
    }
    total
}
