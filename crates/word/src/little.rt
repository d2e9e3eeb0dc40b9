// 16-bit samples as little-endian bytes, stored and read.
ghost use Rattle.std.specs.Prelude.{◌≡◌, ◌++◌, ◌*◌, ◌≤◌, length, drop};
ghost use Rattle.word.specs.Little.{le_bytes, le_sample};
ghost use Rattle.word.specs.Parts.{written};

// Samples as bytes, at the start of `out`.
pub fn put_samples(samples: &[i16], out: &mut [u8])
    requires { length samples.now * 2 ≤ length out.old }
    ensures { out.new ≡ le_bytes samples.now ++ drop (length samples.now * 2) out.old }
{
    for (i, x) in samples.iter().enumerate() {
        out[i * 2..i * 2 + 2].copy_from_slice(&x.to_le_bytes());
    }
}

// The samples that bytes say, as many as there are places.
pub fn read_samples(bytes: &[u8], out: &mut [i16])
    requires { length out.old * 2 ≤ length bytes.now }
    ensures { out.new ≡ written (λ i. le_sample bytes.now (i * 2)) out.old 0 1 (length out.old) }
{
    for (i, x) in out.iter_mut().enumerate() {
        *x = i16::from_le_bytes([bytes[i * 2], bytes[i * 2 + 1]]);
    }
}
