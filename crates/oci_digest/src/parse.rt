//! The grammar of digest texts (OCI image specification 1.1, descriptor.md, "Digests").
ghost use Rattle.std.specs.Prelude.{◌≡◌, ◌↔◌, ◌*◌, IsTrue};
ghost use Rattle.hex.specs.Hex.{encode_lower};
ghost use Rattle.oci_digest.specs.Grammar.{is_component_char, is_separator, IsAlgorithm, IsEncoded, IsLowerHex};
ghost use Rattle.oci_digest.specs.Refusals.{Parses};

use crate::digest::Digest;
use crate::fault::DigestFault;
use hex::FromHex;

/// Reads a digest from its text.
pub(crate) fn parsed(text: &str) -> Result<Digest, DigestFault>
    ensures { Parses text.now result }
{
    // An algorithm contains no colon, so the first colon ends it.
    let Some((algorithm, encoded)) = text.split_once(':') else {
        return Err(DigestFault::BadForm);
    };
    if !is_algorithm(algorithm) || !is_encoded(encoded) {
        return Err(DigestFault::BadForm);
    }
    if algorithm == "sha256" {
        if !is_lower_hex(encoded, 64) {
            return Err(DigestFault::BadEncoding);
        }
        Ok(Digest::from_sha256(decoded(encoded)))
    } else if algorithm == "sha512" {
        if !is_lower_hex(encoded, 128) {
            return Err(DigestFault::BadEncoding);
        }
        Ok(Digest::from_sha512(decoded(encoded)))
    } else {
        Err(DigestFault::UnknownAlgorithm)
    }
}

/// Returns the bytes that these hexadecimal digits encode.
fn decoded<const N: usize>(digits: &str) -> [u8; N]
    requires { IsLowerHex (2 * N) digits.now }
    ensures { encode_lower result ≡ digits.now }
{
    match <[u8; N] as FromHex>::from_hex(digits) {
        Ok(bytes) => bytes,
        Err(_) => unreachable!(),
    }
}

/// Returns whether a text consists of components joined by single separators.
fn is_algorithm(text: &str) -> bool
    ensures { IsTrue result ↔ IsAlgorithm text.now }
{
    let bytes = text.as_bytes();
    let mut after_component = false;
    for byte in bytes {
        if is_component_byte(*byte) {
            after_component = true;
        } else if after_component && is_separator_byte(*byte) {
            after_component = false;
        } else {
            return false;
        }
    }
    after_component
}

fn is_component_byte(byte: u8) -> bool
    ensures { result ≡ is_component_char byte }
{
    byte.is_ascii_lowercase() || byte.is_ascii_digit()
}

fn is_separator_byte(byte: u8) -> bool
    ensures { result ≡ is_separator byte }
{
    matches!(byte, b'+' | b'.' | b'_' | b'-')
}

/// Returns whether a text is one or more characters of `[a-zA-Z0-9=_-]`.
fn is_encoded(text: &str) -> bool
    ensures { IsTrue result ↔ IsEncoded text.now }
{
    !text.is_empty()
        && text.as_bytes().iter().all(|byte| byte.is_ascii_alphanumeric()
            || matches!(byte, b'=' | b'_' | b'-'))
}

/// Returns whether a text is `count` characters of `[a-f0-9]`.
fn is_lower_hex(text: &str, count: usize) -> bool
    ensures { IsTrue result ↔ IsLowerHex count text.now }
{
    text.len() == count
        && text
            .as_bytes()
            .iter()
            .all(|byte| matches!(byte, b'a'..=b'f' | b'0'..=b'9'))
}
