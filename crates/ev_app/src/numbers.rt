ghost use Rattle.std.specs.Prelude.{◌≡◌, ℕ, ◌<◌, ◌^◌, ◌↔◌, None, IfSome, IsTrue};
ghost use Rattle.std.specs.Fmt.{decimal};
ghost use Rattle.ev_app.specs.Numbers.{IsPlain};

/// The number below 2^64 that a text is, in decimal digits without a sign, and with no zero before another digit.
pub fn number_of(text: &str) -> Option<u64>
    ensures some { IfSome result (λ number. text.now ≡ decimal number) }
    ensures none { result ≡ None → (number : ℕ) → number < 2 ^ 64 → ¬ (text.now ≡ decimal number) }
{
    if !is_plain(text.as_bytes()) {
        return None;
    }
    match text.parse::<u64>() {
        Ok(number) => Some(number),
        Err(_) => None,
    }
}

// Whether a text has no leading plus, and no zero before another byte.
fn is_plain(bytes: &[u8]) -> bool
    ensures { IsTrue result ↔ IsPlain bytes.now }
{
    if bytes.is_empty() {
        return true;
    }
    if bytes[0] == b'0' {
        return bytes.len() == 1;
    }
    bytes[0] != b'+'
}
