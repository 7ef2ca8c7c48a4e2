// Octics, polynomials of degree 8 over the field of two elements, and their divisors.
#![tactic(auto)]

ghost use Rattle.std.specs.Prelude.{◌≡◌, ◌+◌, ◌*◌, ◌^◌, ◌<◌, ◌≤◌};
ghost use Rattle.octics.specs.Division.{Degree, First, remainder};
ghost use Rattle.octics.specs.Octics.{Checked};

use refusals::Refusal;

fn power(k: u16) -> u16
    requires { k < 10 }
    ensures { result ≡ 2 ^ k }
{
    1 << k
}

fn shifted(d: u16, k: u16) -> u16
    requires { (d < 32) × (k < 9) }
    ensures { result ≡ d * 2 ^ k }
{
    d << k
}

fn rest_of(octic: u16, divisor: u16, degree: u16) -> u16
    requires { Degree degree divisor }
    ensures { result ≡ remainder degree divisor octic }
{
    let mut rest = octic;
    for i in (0..9 - degree).rev() {
        if rest >= power(degree + i) {
            rest ^= shifted(divisor, i);
        }
    }
    rest
}

// The least divisor of degree 1 to 4. Labelled loops, left from inside, are the form that the product prescribes.
fn first_divisor(octic: u16) -> Option<u16>
    requires { octic < 512 }
    ensures { First octic result }
{
    let mut found = None;
    'degrees: for degree in 1..5 {
        'divisors: for divisor in power(degree)..power(degree + 1) {
            if rest_of(octic, divisor, degree) != 0 {
                continue 'divisors;
            }
            found = Some(divisor);
            break 'degrees;
        }
    }
    found
}

// Refuses what is no octic, then what has a divisor of degree 1 to 4.
pub fn check_octic(octic: u16) -> Result<(), Refusal>
    ensures { Checked octic result }
{
    if octic < 256 || octic > 511 {
        return Err(Refusal::NotOctic);
    }
    match first_divisor(octic) {
        None => Ok(()),
        Some(_) => Err(Refusal::Divisible),
    }
}
