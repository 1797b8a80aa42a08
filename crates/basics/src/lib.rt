// The outputs of a word, and what is left of a number in a byte or two. specs/ has the bytes of a text.
#![tactic(auto)]

ghost use Rattle.std.specs.Prelude.{◌≡◌, ◌%◌, ◌^◌};

// The outputs of a word, and the most of a file.
pub const OUTPUTS: usize = 16;

// The low byte.
pub fn byte(x: usize) -> u8
    ensures { result ≡ x % 2 ^ 8 }
{
    (x % 256) as u8
}

// The low two bytes.
pub fn narrow(x: usize) -> u16
    ensures { result ≡ x % 2 ^ 16 }
{
    (x % 65536) as u16
}
