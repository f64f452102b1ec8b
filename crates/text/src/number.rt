// Numbers that people write as a word: decimal digits, and nothing else.
ghost use Rattle.std.specs.Prelude.{◌≡◌, ◌≤◌, IfSome};
ghost use Rattle.text.specs.Number.{number_in};

// The number that a word of decimal digits writes, if it lies between two others, both included.
pub fn read_number(word: &str, least: u64, greatest: u64) -> Option<u64>
    ensures value { result ≡ number_in least greatest word.now }
    ensures bound { IfSome result (λ n. (least ≤ n) × (n ≤ greatest)) }
{
    // `parse` takes a sign in front, which is no digit
    if word.starts_with('+') {
        return None;
    }
    let number = word.parse().ok()?;
    (least..=greatest).contains(&number).then_some(number)
}

#[cfg(test)]
mod tests {
    use super::*;

    #[test]
    fn words_to_read(rt: HostRuntime) {
        assert_eq!(rt; read_number("0", 0, 255), Some(0));
        assert_eq!(rt; read_number("060", 1, 60), Some(60));
        assert_eq!(rt;
            read_number("18446744073709551615", 0, u64::MAX),
            Some(u64::MAX)
        );
        assert_eq!(rt; read_number("18446744073709551616", 0, u64::MAX), None);
        assert_eq!(rt; read_number("0", 1, 60), None);
        assert_eq!(rt; read_number("61", 1, 60), None);
        assert_eq!(rt; read_number("", 0, 255), None);
        assert_eq!(rt; read_number("+1", 0, 255), None);
        assert_eq!(rt; read_number("-1", 0, 255), None);
        assert_eq!(rt; read_number("1 ", 0, 255), None);
        assert_eq!(rt; read_number("0x1", 0, 255), None);
    }
}
