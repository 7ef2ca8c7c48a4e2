// The letters that name the ciphers.
ghost use Rattle.std.specs.Prelude.{◌≡◌};
ghost use Rattle.ciphers.specs.Letters.{Named, letter_for};

use crate::keys::Cipher;
use refusals::Refusal;

impl TryFrom<char> for Cipher {
    type Error = Refusal;

    ghost try_from_gives = { Named };

    fn try_from(letter: char) -> Result<Cipher, Refusal> {
        match letter {
            'A' => Ok(Cipher::Aes),
            'S' => Ok(Cipher::Sm4),
            _ => Err(Refusal::UnknownLetter),
        }
    }
}

impl From<Cipher> for char {
    ghost from_gives = { λ cipher letter. letter ≡ letter_for cipher };

    fn from(cipher: Cipher) -> char {
        match cipher {
            Cipher::Aes => 'A',
            Cipher::Sm4 => 'S',
        }
    }
}
