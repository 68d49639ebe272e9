//! Bytes in hex.
ghost use Rattle.std.specs.Prelude.{◌≡◌, IfOk, IfSome, MatchOption, ◌<◌, Some, None};
ghost use Rattle.cases.specs.Hex.{digit_of, byte_of, bytes_of};

use std::alloc::{AllocError, Global};

/// The digit that a byte is.
pub fn digit(b: u8) -> Option<u8>
    ensures found { result ≡ digit_of b }
    ensures small { IfSome result (λ d. d < 16) }
{
    match b {
        b'0'..=b'9' => Some(b - b'0'),
        b'A'..=b'F' => Some(b - b'A' + 10),
        _ => None,
    }
}

/// The byte that two digits stand for.
pub fn byte(high: u8, low: u8) -> Option<u8>
    ensures { result ≡ byte_of high low }
{
    let high = digit(high)?;
    let low = digit(low)?;
    Some(high * 16 + low)
}

/// The bytes that a text in hex stands for, or none where it is no hex.
// By hand: the library's hex takes small letters too, and tells want of memory as a fault of the text.
pub fn unhex(heap: Global, hex: &[u8]) -> Result<Option<Vec<u8>>, AllocError>
    ensures { IfOk result (λ found. MatchOption found (bytes_of hex.now ≡ None) (λ bytes. bytes_of hex.now ≡ Some bytes.items)) }
{
    let mut bytes = Vec::new(heap);
    let mut rest = hex;
    while let [high, low, behind @ ..] = rest {
        // a `?` on an Option cannot leave a function that may also want memory
        let Some(b) = byte(*high, *low) else {
            return Ok(None);
        };
        bytes.push(b)?;
        rest = behind;
    }
    Ok(rest.is_empty().then_some(bytes))
}
