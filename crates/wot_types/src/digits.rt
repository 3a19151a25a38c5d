//! One law about hexadecimal digits: decoding undoes encoding. It uses the contract of `hex`. `fpr` and `number`
//! need it to show that what they print is what they read.
ghost use Rattle.std.specs.Prelude.{◌≡◌, length};
ghost use Rattle.hex.specs.Hex.{encode_lower};
ghost use Rattle.wot_types.specs.Digits.{array_of_digits};

/// A law: the digits of octets, in lower case, spell these octets.
pub fn digits_are_read(octets: &[u8])
    ensures { array_of_digits (length octets.now) (encode_lower octets.now) ≡ Some octets.now }
{
    let _octets = octets;
}
