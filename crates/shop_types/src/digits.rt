ghost use Rattle.std.specs.Prelude.{◌≡◌, ◌<◌, ◌^◌, length, IfSome};
ghost use Rattle.shop_types.specs.Digits.{decimal_value};

/// Returns the number that 1 to 19 ASCII digits write; zeros may lead.
pub fn decimal(bytes: &[u8]) -> Option<u64>
    ensures value { result ≡ decimal_value bytes.now }
    ensures bound { IfSome result (λ n. n < 10 ^ length bytes.now) }
{
    if bytes.is_empty() || bytes.len() > 19 {
        return None;
    }
    let mut number = 0u64;
    for b in bytes {
        if !b.is_ascii_digit() {
            return None;
        }
        number = number * 10 + u64::from(*b - b'0');
    }
    Some(number)
}
