ghost use Rattle.std.specs.Prelude.{◌≡◌};
ghost use Rattle.my_auth.specs.Salt.{HasNoZero, salt, salt_byte};

fn salt_byte(byte: u8) -> u8
    ensures { result ≡ salt_byte byte }
{
    match byte % 128 {
        0 => 1,
        b'$' => b'$' + 1,
        low => low,
    }
}

/// The salt of a greeting, made of 20 random bytes: the low seven bits of each, 1 for 0, and 0x25 for 0x24.
pub fn salt_of(mut random: [u8; 20]) -> [u8; 20]
    ensures bytes { result ≡ salt random }
    ensures whole { HasNoZero result }
{
    for byte in random.iter_mut() {
        *byte = salt_byte(*byte);
    }
    random
}
