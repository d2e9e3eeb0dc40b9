// An answer of a call as 64 bits.
ghost use Rattle.std.specs.Prelude.{◌≡◌, ◌^◌};
ghost use Rattle.wrap.specs.Wrap.{modulo};
ghost use Rattle.lines.specs.Bits.{bits_of_double};

// The bits of a signed number, in two's complement.
pub fn bits_of(x: i64) -> u64
    ensures { result ≡ modulo (2 ^ 64) x }
{
    x.cast_unsigned()
}

// The bits of a double; 0 for one that is no number, which equals nothing and which no call answers.
pub fn bits_of_double(x: f64) -> u64
    ensures { result ≡ bits_of_double x }
{
    if x.is_nan() { 0 } else { x.to_bits() }
}
