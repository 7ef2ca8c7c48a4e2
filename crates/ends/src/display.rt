// One sector opened as an end over the display's ring would, by fits that are known beforehand. The parameters stand side by side as
// the function for C has them.
ghost use Rattle.std.specs.Prelude.{◌≡◌};
ghost use Rattle.display_ring.specs.Display.{display_mul};
ghost use Rattle.towers.specs.Keeps.{Keeps};
ghost use Rattle.ends.specs.Choice.{Loads};
ghost use Rattle.ends.specs.Display.{Admitted, Opened, AsEnd, EachOpeningAgrees};
ghost use Rattle.ends.specs.Letters.{octic_of};
ghost use Rattle.ends.specs.Work.{Zero};

use crate::fitted::{Fitted, Loaded};
use crate::load::octic_of;
use crate::walk::inverses_by;
use crate::work::Work;
use ciphers::keys::Cipher;
use display_ring::{display_ring, pair_1f5, pair_11b};
use refusals::Refusal;
use towers::pair::Pair;

// The letter's cipher, or the first refusal. The lengths are tested here too, since the refusals come before any pair is worked out.
fn admit(letter: char, key: &[u8], bytes: &[u8]) -> Result<Cipher, Refusal>
    ensures { Admitted letter key.now bytes.now result }
{
    let cipher = Cipher::try_from(letter)?;
    if key.len() != 16 {
        return Err(Refusal::KeyLength);
    }
    if bytes.is_empty() || bytes.len() > 4096 {
        return Err(Refusal::SectorLength);
    }
    Ok(cipher)
}

// The pair that a fit of the display's ring to the cipher's octic keeps.
fn known_pair(cipher: Cipher) -> Pair
    ensures { Keeps display_mul (octic_of cipher) result }
{
    match cipher {
        Cipher::Aes => pair_11b(),
        Cipher::Sm4 => pair_1f5(),
    }
}

// The fit of the display's ring to the cipher's octic.
fn known_fit(cipher: Cipher) -> Fitted
    ensures { result.inverses.octic ≡ octic_of cipher }
{
    let pair = known_pair(cipher);
    let inverses = inverses_by(&display_ring(), octic_of(cipher), &pair);
    Fitted { pair, inverses }
}

// Loads a key by way of a lent work area, all of which is zero afterwards, whichever way this ends.
fn load_apart(
    fitted: &Fitted,
    letter: char,
    key: &[u8],
    work: &mut [u8; 176],
) -> Result<Loaded, Refusal>
    ensures loads { Loads fitted.now.inverses.octic letter key.now work.old result }
    ensures cleared { Zero work.new }
{
    let guard = Work { bytes: work };
    fitted.load(letter, key, guard.bytes)
}

// Opens a sector by the fit that is known for the letter's cipher. The letter is a code; a number that is no character is no letter.
fn open_by_known(
    letter: u32,
    key: &[u8],
    name: u16,
    number: u64,
    bytes: &mut [u8],
) -> Result<(), Refusal>
    ensures { Opened letter key.now name number bytes.old result bytes.new }
{
    let letter = char::from_u32(letter).ok_or(Refusal::UnknownLetter)?;
    let cipher = admit(letter, key, bytes)?;
    let mut work = [0; 176];
    let loaded = load_apart(&known_fit(cipher), letter, key, &mut work)?;
    loaded.work(name, number, bytes)
}

// Whatever opens sectors so agrees with every end over the display's ring.
fn each_opening_agrees()
    ensures { EachOpeningAgrees }
{}

/// Opens a sector of 1 to 4,096 bytes as an end over the display's ring would that is fitted to the letter's octic and given the key of
/// 16 bytes. The letter is a character's code.
pub fn open_at_display(
    letter: u32,
    key: &[u8],
    name: u16,
    number: u64,
    bytes: &mut [u8],
) -> Result<(), Refusal>
    ensures opens { Opened letter key.now name number bytes.old result bytes.new }
    ensures agrees { AsEnd letter key.now name number bytes.old result bytes.new }
{
    each_opening_agrees();
    open_by_known(letter, key, name, number, bytes)
}
