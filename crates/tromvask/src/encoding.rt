// An encoder whose state is a block of lent bytes: each function is the library's.
ghost use Rattle.std.specs.Prelude.{◌≡◌, pos};
ghost use Rattle.block.specs.EncoderBlock.{encoder_size};
ghost use Rattle.linked_encoder.specs.Linked.{FileLinked, FrameLinked, HeaderLinked, NewLinked};

// The bytes of an encoder's block.
#[unsafe(no_mangle)]
pub extern "C" fn qoa_encoder_size() -> i64
    ensures { result ≡ pos encoder_size }
{
    linked_encoder::qoa_encoder_size()
}

// A new encoder: 11, 12, 13, then 7 where the block is too short.
#[unsafe(no_mangle)]
pub extern "C" fn qoa_encoder_new(channels: u8, rate: u32, total: u32, state: &mut [u8]) -> i64
    ensures { NewLinked channels rate total state.old result state.new }
{
    linked_encoder::qoa_encoder_new(channels, rate, total, state)
}

// The file header into lent bytes: how many.
#[unsafe(no_mangle)]
pub extern "C" fn qoa_encoder_header(state: &[u8], out: &mut [u8]) -> i64
    ensures { HeaderLinked state.now out.old result out.new }
{
    linked_encoder::qoa_encoder_header(state, out)
}

// A frame into lent bytes: how many. The state goes on.
#[unsafe(no_mangle)]
pub extern "C" fn qoa_encoder_frame(state: &mut [u8], samples: &[i16], out: &mut [u8]) -> i64
    ensures { FrameLinked state.old samples.now out.old result state.new out.new }
{
    linked_encoder::qoa_encoder_frame(state, samples, out)
}

// A whole file into lent bytes: how many. The state goes on.
#[unsafe(no_mangle)]
pub extern "C" fn qoa_encoder_file(state: &mut [u8], samples: &[i16], out: &mut [u8]) -> i64
    ensures { FileLinked state.old samples.now out.old result state.new out.new }
{
    linked_encoder::qoa_encoder_file(state, samples, out)
}
