// The header of a file: `qoaf`, then the total of samples per channel.
ghost use Rattle.std.specs.Prelude.{◌≡◌};
ghost use Rattle.refusal.specs.Refusals.{told};
ghost use Rattle.format.specs.Parts.{file_word, file_header};

use crate::frame::QOA_HEADER_SIZE;
use refusal::Refusal;
use word::BigEndian;

// `qoaf`
const QOA_MAGIC: u32 = 0x716f_6166;

// The total, or the refusal.
pub fn file_header(bytes: &[u8]) -> Result<usize, Refusal>
    ensures { told result ≡ file_header bytes.now }
{
    if bytes.len() < 4 {
        return Err(Refusal::Truncated);
    }
    if u32::read_be(bytes, 0) != QOA_MAGIC {
        return Err(Refusal::NotQoaFile);
    }
    if bytes.len() < QOA_HEADER_SIZE {
        return Err(Refusal::Truncated);
    }
    Ok(u32::read_be(bytes, 4) as usize)
}

// The 64-bit word of a file header.
pub fn file_word(total: u32) -> u64
    ensures { result ≡ file_word total }
{
    ((QOA_MAGIC as u64) << 32) | (total as u64)
}
