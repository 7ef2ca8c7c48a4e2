// The entries of a sheet.
use ciphers::keys::Cipher;
use watch::side::Side;

// A fit: the end, and the octic that it is to be fitted to.
#[derive(Clone, Copy)]
pub struct FitEntry {
    pub side: Side,
    pub octic: u16,
}

// A key: the end, the cipher and the key's bytes.
#[derive(Clone, Copy)]
pub struct KeyEntry {
    pub side: Side,
    pub cipher: Cipher,
    pub key: [u8; 16],
}

// A sector: the end that seals it, and its bytes.
#[derive(Drop)]
pub struct SectorEntry {
    pub side: Side,
    pub bytes: Vec<u8>,
}

// A sheet: the entries of its three sections.
#[derive(Drop)]
pub struct Sheet {
    pub fits: Vec<FitEntry>,
    pub keys: Vec<KeyEntry>,
    pub sectors: Vec<SectorEntry>,
}
