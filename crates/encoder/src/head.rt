// The file header.
ghost use Rattle.std.specs.Prelude.{◌≡◌, ◌≤◌, length};
ghost use Rattle.encoder.specs.Encoder.{encoder_view};
ghost use Rattle.encoder.specs.Head.{head_bytes};
ghost use Rattle.refusal.specs.Rules.{good};
ghost use Rattle.refusal.specs.Lent.{laid_over};
ghost use Rattle.encoder.specs.Calls.{head_memory, head_told, told_encode};

use crate::rules::is_good_encoder;
use crate::{EncodeRefusal, QoaEncoder};
use format::file::file_word;
use format::frame::QOA_HEADER_SIZE;
use refusal::Refusal;
use word::BigEndian;

// Stores `qoaf` and the total at the start of the output.
pub fn put_head(total: u32, out: &mut [u8])
    requires { 8 ≤ length out.old }
    ensures { out.new ≡ laid_over out.old 0 (good (head_bytes total)) }
{
    file_word(total).write_be(out, 0);
}

// The file header: 8, then 7.
pub fn write_header(e: QoaEncoder, out: &mut [u8]) -> Result<usize, EncodeRefusal>
    ensures { (told_encode result ≡ head_told (encoder_view e) (length out.old)) × (out.new ≡ head_memory (encoder_view e) out.old) }
{
    if !is_good_encoder(e) {
        return Err(EncodeRefusal::Refused(Refusal::BadState));
    }
    if out.len() < QOA_HEADER_SIZE {
        return Err(EncodeRefusal::Refused(Refusal::OutputTooSmall));
    }
    put_head(e.total, out);
    Ok(QOA_HEADER_SIZE)
}
