// Decimal numbers in their one spelling: digits with no zero before them, `0` itself aside.
ghost use Rattle.std.specs.{Prelude.{◌≡◌, ◌<◌, ◌≤◌, ◌^◌, ℕ, List, [], ◌∷◌, ◌++◌}, Prelude.{decimal, IfSome, IfNone}};

/// The number that the bytes spell, or None where they spell none below 2^32.
pub fn u32_of(digits: &[u8]) -> Option<u32>
    ensures found { IfSome result (λ n. digits.now ≡ decimal n) }
    ensures none { IfNone result ((n : ℕ) → n < 2 ^ 32 → digits.now ≡ decimal n → ⊥) }
{
    let number = number_of(digits, u32::MAX.into())?;
    Some(number as u32)
}

/// The number that the bytes spell, or None where they spell none below 2^64.
pub fn u64_of(digits: &[u8]) -> Option<u64>
    ensures found { IfSome result (λ n. digits.now ≡ decimal n) }
    ensures none { IfNone result ((n : ℕ) → n < 2 ^ 64 → digits.now ≡ decimal n → ⊥) }
{
    let number = number_of(digits, u64::MAX.into())?;
    Some(number as u64)
}

/// The number that the bytes spell, or None where they spell none up to `most`.
pub(crate) fn number_of(digits: &[u8], most: u128) -> Option<u128>
    ensures found { IfSome result (λ n. (digits.now ≡ decimal n) × (n ≤ most)) }
    ensures none { IfNone result ((n : ℕ) → n ≤ most → digits.now ≡ decimal n → ⊥) }
{
    let number = u128_of(digits)?;
    if number <= most { Some(number) } else { None }
}

/// The number that the bytes spell, or None where they spell none below 2^128.
pub fn u128_of(digits: &[u8]) -> Option<u128>
    ensures found { IfSome result (λ n. digits.now ≡ decimal n) }
    ensures none { IfNone result ((n : ℕ) → n < 2 ^ 128 → digits.now ≡ decimal n → ⊥) }
{
    if digits == b"0".as_slice() {
        return Some(0);
    }
    let (first, rest) = digits.split_first()?;
    number_from(first_digit(*first)?, rest)
}

/// What a first digit that isn't 0 stands for.
fn first_digit(byte: u8) -> Option<u128>
    ensures some { IfSome result (λ n. 0 < n) }
    ensures found { IfSome result (λ n. byte ∷ [] ≡ decimal n) }
    ensures none { IfNone result ((n : ℕ) (rest : List ℕ) → n < 2 ^ 128
        → byte ∷ rest ≡ decimal n → n ≡ 0) }
{
    match byte {
        b'1'..=b'9' => Some(u128::from(byte - b'0')),
        _ => None,
    }
}

/// The number whose spelling is that of `front` with these digits after it.
fn number_from(front: u128, digits: &[u8]) -> Option<u128>
    requires { 0 < front }
    ensures found { IfSome result (λ n. decimal front ++ digits.now ≡ decimal n) }
    ensures none { IfNone result ((n : ℕ) → n < 2 ^ 128
        → decimal front ++ digits.now ≡ decimal n → ⊥) }
{
    let mut value = front;
    for byte in digits {
        value = with_digit(value, *byte)?;
    }
    Some(value)
}

/// The number whose spelling is that of `front` with this digit after it.
fn with_digit(front: u128, byte: u8) -> Option<u128>
    requires { 0 < front }
    ensures some { IfSome result (λ n. 0 < n) }
    ensures found { IfSome result (λ n. decimal front ++ byte ∷ [] ≡ decimal n) }
    ensures none { IfNone result ((n : ℕ) (rest : List ℕ) → n < 2 ^ 128
        → decimal front ++ byte ∷ rest ≡ decimal n → ⊥) }
{
    let digit = char::from(byte).to_digit(10)?;
    front.checked_mul(10)?.checked_add(u128::from(digit))
}
