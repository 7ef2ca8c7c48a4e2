// Reads a line as a request.
use ciphers::keys::Cipher;
use std::alloc::{AllocError, Global};
use std::{fmt, io};
use words::hex_byte;

// A line, read.
#[derive(Drop)]
pub struct Request {
    pub cipher: Cipher,
    pub key: [u8; 16],
    pub name: u16,
    pub number: u64,
    pub sector: Vec<u8>,
}

// What is bad in a line.
#[derive(Clone, Copy, Debug)]
pub enum Part {
    Words,
    Letter,
    Key,
    Name,
    Number,
    Sector,
}

impl fmt::Display for Part {
    fn fmt<W: fmt::Write>(&self, f: &mut fmt::Formatter<W>) -> fmt::Result {
        f.write_str(match self {
            Part::Words => "words",
            Part::Letter => "letter",
            Part::Key => "key",
            Part::Name => "name",
            Part::Number => "number",
            Part::Sector => "sector",
        })
    }
}

// Why a line is not sealed.
#[derive(Drop, Debug)]
pub enum LineError {
    Bad(Part),
    Other(anyhow::Error),
}

impl From<Part> for LineError {
    fn from(part: Part) -> LineError {
        LineError::Bad(part)
    }
}

// One for every error would overlap with that for `Part`.
impl From<AllocError> for LineError {
    fn from(error: AllocError) -> LineError {
        LineError::Other(anyhow::Error::from(error))
    }
}

impl From<io::Error> for LineError {
    fn from(error: io::Error) -> LineError {
        LineError::Other(anyhow::Error::from(error))
    }
}

fn letter(word: &[u8]) -> Result<Cipher, Part> {
    let [letter] = word else {
        return Err(Part::Letter);
    };
    Cipher::try_from(*letter as char).map_err(|_| Part::Letter)
}

// The bytes in a word of two digits each.
fn bytes(heap: Global, word: &[u8], part: Part) -> Result<Vec<u8>, LineError> {
    word.chunks(2)
        .map(|digits| -> Result<u8, LineError> { Ok(hex_byte(digits).ok_or(part)?) })
        .try_collect(heap)
}

// The same for a word of so many bytes, with no heap.
fn array<const N: usize>(word: &[u8], part: Part) -> Result<[u8; N], Part> {
    let (pairs, []) = word.as_chunks::<2>() else {
        return Err(part);
    };
    if pairs.len() != N {
        return Err(part);
    }
    let mut array = [0; N];
    for (b, digits) in array.iter_mut().zip(pairs) {
        *b = hex_byte(digits).ok_or(part)?;
    }
    Ok(array)
}

// Reads the words of a line, or says what is bad in it.
pub(crate) fn read(heap: Global, line: &[u8]) -> Result<Request, LineError> {
    let mut reader = words::over(line);
    let (Some(cipher), Some(key), Some(name), Some(number), Some(sector), None) = (
        reader.word(),
        reader.word(),
        reader.word(),
        reader.word(),
        reader.word(),
        reader.word(),
    ) else {
        return Err(LineError::Bad(Part::Words));
    };
    Ok(Request {
        cipher: letter(cipher.part)?,
        key: array(key.part, Part::Key)?,
        name: u16::from_be_bytes(array(name.part, Part::Name)?),
        number: u64::from_be_bytes(array(number.part, Part::Number)?),
        sector: bytes(heap, sector.part, Part::Sector)?,
    })
}
