// Decimal numbers from text: no plus, no leading zeros, a minus only below zero.
ghost use Rattle.std.specs.Prelude.{◌≡◌, ℕ, List, Option};
ghost use Rattle.text.specs.Numbers.{well_begun, number_of, integer_of};

// A kind of number that a text can write. The library's `FromStr` also takes a plus and leading zeros, and wants UTF-8.
pub trait Number: Sized {
    // The number that a text writes, or nothing.
    ghost written: { List ℕ → Option Self };

    // Reads the number that the text writes, or nothing.
    fn read(text: &[u8]) -> Option<Self>
        ensures { result ≡ written text.now };
}

// Whether the text has a byte, and no 0 in front of others.
fn well_begun(text: &[u8]) -> bool
    ensures { result ≡ well_begun text.now }
{
    !matches!(text, [] | [b'0', _, ..])
}

impl Number for u64 {
    ghost written = { number_of 64 };

    fn read(text: &[u8]) -> Option<u64> {
        if !well_begun(text) {
            return None;
        }
        let mut n: u64 = 0;
        for b in text {
            if !b.is_ascii_digit() {
                return None;
            }
            n = n.checked_mul(10)?.checked_add(u64::from(*b - b'0'))?;
        }
        Some(n)
    }
}

impl Number for u32 {
    ghost written = { number_of 32 };

    fn read(text: &[u8]) -> Option<u32> {
        u32::try_from(u64::read(text)?).ok()
    }
}

impl Number for i32 {
    ghost written = { integer_of };

    fn read(text: &[u8]) -> Option<i32> {
        match text {
            [b'-', digits @ ..] => match u32::read(digits)? {
                0 => None,
                n => 0i32.checked_sub_unsigned(n),
            },
            _ => i32::try_from(u64::read(text)?).ok(),
        }
    }
}
