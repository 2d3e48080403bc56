//! Numbers as values spell them.

ghost use Rattle.std.specs.Prelude.{◌≡◌, ◌≤◌, ◌↔◌, ℕ, decimal, IfNone, IfSome, IsTrue};

use itoa::Buffer;

/// The number of at most `most` whose decimal text this is: digits alone, and no leading zeros.
pub fn read_number(most: u64, text: &str) -> Option<u64>
    ensures spelled { IfSome result (λ number. text.now ≡ decimal number) }
    ensures within { IfSome result (λ number. number ≤ most) }
    ensures none { IfNone result ((number : ℕ) → number ≤ most → text.now ≡ decimal number → ⊥) }
{
    let Ok(number) = text.parse::<u64>() else {
        return None;
    };
    if number <= most && is_text_of(number, text) {
        Some(number)
    } else {
        None
    }
}

/// The number of at most `most`, as `read_number`, in 32 bits.
pub fn read_small_number(most: u32, text: &str) -> Option<u32>
    ensures spelled { IfSome result (λ number. text.now ≡ decimal number) }
    ensures within { IfSome result (λ number. number ≤ most) }
    ensures none { IfNone result ((number : ℕ) → number ≤ most → text.now ≡ decimal number → ⊥) }
{
    let number = read_number(u64::from(most), text)?;
    Some(number as u32)
}

// Whether a number has this decimal text.
fn is_text_of(number: u64, text: &str) -> bool
    ensures { IsTrue result ↔ (text.now ≡ decimal number) }
{
    Buffer::new().format(number) == text
}
