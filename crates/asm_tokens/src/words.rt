//! Words and the numbers that they spell.

ghost use Rattle.std.specs.Prelude.{◌≡◌, ◌≤◌, ◌<◌, IsTrue, ◌^◌, length, map, IfSome, true};
ghost use Rattle.asm_tokens.specs.Tokens.{digit, is_digit, is_hex_digit, is_of_name, are_some, number_in, spelled_number, escape_value};
ghost use Rattle.std.specs.List.{AllPass, list_all, prefix_len};

/// Whether it is a decimal digit.
pub fn is_digit(byte: u8) -> bool
    ensures { result ≡ is_digit byte }
{
    b'0' <= byte && byte <= b'9'
}

/// Whether it is a hexadecimal digit.
pub fn is_hex_digit(byte: u8) -> bool
    ensures { result ≡ is_hex_digit byte }
{
    is_digit(byte) || b'a' <= byte && byte <= b'f' || b'A' <= byte && byte <= b'F'
}

/// Whether a name may contain the byte.
pub fn is_of_name(byte: u8) -> bool
    ensures { result ≡ is_of_name byte }
{
    is_digit(byte)
        || b'a' <= byte && byte <= b'z'
        || b'A' <= byte && byte <= b'Z'
        || byte == b'_'
        || byte == b'.'
}

/// The number of bytes of the word at the front.
pub fn word_length(bytes: &[u8]) -> usize
    ensures length { result ≡ prefix_len is_of_name bytes.now }
    ensures within { result ≤ length bytes.now }
{
    let mut i = 0;
    while i < bytes.len() && is_of_name(bytes[i]) {
        i += 1;
    }
    i
}

/// The digit's number.
pub fn digit(byte: u8) -> u8
    requires { IsTrue (is_hex_digit byte) }
    ensures value { result ≡ digit byte }
    ensures small { result < 16 }
{
    if is_digit(byte) {
        byte - b'0'
    } else if b'A' <= byte && byte <= b'F' {
        byte - b'A' + 10
    } else {
        byte - b'a' + 10
    }
}

/// The number whose digits these are, or 2^64 if it is larger.
pub fn number_in(base: u8, digits: &[u8]) -> u128
    requires base { base ≤ 16 }
    requires digits { AllPass is_hex_digit digits.now }
    ensures value { result ≡ number_in base digits.now }
    ensures small { result ≤ 2 ^ 64 }
{
    let mut value: u128 = 0;
    for byte in digits.iter() {
        value = value * base as u128 + digit(*byte) as u128;
        if value > 1 << 64 {
            value = 1 << 64;
        }
    }
    value
}

/// Whether these are decimal digits.
fn all_digits(bytes: &[u8]) -> bool
    ensures { result ≡ list_all is_digit bytes.now }
{
    bytes.iter().all(|byte| is_digit(*byte))
}

/// Whether these are hexadecimal digits.
fn all_hex_digits(bytes: &[u8]) -> bool
    ensures { result ≡ list_all is_hex_digit bytes.now }
{
    bytes.iter().all(|byte| is_hex_digit(*byte))
}

/// Whether these are some decimal digits.
fn are_digits(bytes: &[u8]) -> bool
    ensures value { result ≡ are_some is_digit bytes.now }
    ensures each { result ≡ true → AllPass is_hex_digit bytes.now }
{
    all_digits(bytes) && 0 < bytes.len()
}

/// Whether these are some hexadecimal digits.
fn are_hex_digits(bytes: &[u8]) -> bool
    ensures value { result ≡ are_some is_hex_digit bytes.now }
    ensures each { result ≡ true → AllPass is_hex_digit bytes.now }
{
    all_hex_digits(bytes) && 0 < bytes.len()
}

/// The number that a word spells. None if it spells none.
pub fn spelled(word: &[u8]) -> Option<u128>
    ensures value { result ≡ spelled_number word.now }
    ensures small { IfSome result (λ n. n ≤ 2 ^ 64) }
{
    if are_digits(word) {
        return Some(number_in(10, word));
    }
    if word.starts_with(b"0x") && are_hex_digits(&word[2..]) {
        return Some(number_in(16, &word[2..]));
    }
    None
}

/// The byte that an escape denotes. None if it is not an escape.
pub fn escaped(byte: u8) -> Option<u8>
    ensures { result ≡ escape_value byte }
{
    match byte {
        b'n' => Some(10),
        b't' => Some(9),
        b'\\' => Some(b'\\'),
        b'"' => Some(b'"'),
        b'0' => Some(0),
        _ => None,
    }
}
