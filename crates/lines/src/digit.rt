// Lower-case hex digits.
ghost use Rattle.std.specs.Prelude.{◌≡◌, ◌<◌};
ghost use Rattle.io.specs.Digits.{hex_digit_ascii};
ghost use Rattle.lines.specs.Hex.{digit_value};

// The value of a digit, if the byte is one.
#[tactic(auto, unfolding(crate::specs::Hex::hex_value))]
pub fn hex_value(byte: u8) -> Option<u8>
    ensures { result ≡ digit_value byte }
{
    match byte {
        b'0'..=b'9' => Some(byte - b'0'),
        b'a'..=b'f' => Some(byte - b'a' + 10),
        _ => None,
    }
}

// The digit of a value.
pub fn hex_digit(value: u8) -> u8
    requires { value < 16 }
    ensures { result ≡ hex_digit_ascii value }
{
    if value < 10 {
        b'0' + value
    } else {
        b'a' - 10 + value
    }
}
