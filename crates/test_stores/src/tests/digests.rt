use oci_digest::{Digest, DigestFault, NoMemory};
use std::alloc::{AllocError, Global};
use std::process::Abort;
use std::test::Fail;

/// Returns `count` bytes equal to `byte`. It has no contract, so that no proof expands the bytes.
pub(crate) fn repeated(alloc: Global, byte: u8, count: usize) -> Result<Vec<u8>, AllocError> {
    vec![in alloc; byte; count]
}

/// Returns whether a digest prints as this text, is read back from it, has its digits, and verifies
/// only this content.
fn goes_with(alloc: Global, digest: Digest, content: &[u8], text: &str) -> Result<bool, NoMemory> {
    let printed = digest.text(alloc)?;
    let digits = digest.encoded(alloc)?;
    Ok(
        printed.as_str() == text
            && text.ends_with(digits.as_str())
            && Digest::parse(text) == Ok(digest)
            && digest.matches(content)
            && !digest.matches(b"abd"),
    )
}

#[derive(Clone, Copy)]
enum Algorithm {
    Sha256,
    Sha512,
}

fn digest(algorithm: Algorithm, content: &[u8]) -> Digest {
    match algorithm {
        Algorithm::Sha256 => Digest::of(content),
        Algorithm::Sha512 => Digest::of_sha512(content),
    }
}

/// Asserts that the digest of a content has this text.
fn assert_digest<R: AllocGlobal + Abort>(
    rt: &R,
    algorithm: Algorithm,
    content: &[u8],
    text: &str,
) -> Result<(), Fail> {
    let digest = digest(algorithm, content);
    assert!(rt; goes_with(rt.alloc(), digest, content, text)?, "{text}");
    Ok(())
}

/// The last one of each algorithm is the two-block example of FIPS 180-4.
const VECTORS: [(Algorithm, &[u8], &str); 6] = [
    (
        Algorithm::Sha256,
        b"",
        "sha256:e3b0c44298fc1c149afbf4c8996fb92427ae41e4649b934ca495991b7852b855",
    ),
    (
        Algorithm::Sha256,
        b"abc",
        "sha256:ba7816bf8f01cfea414140de5dae2223b00361a396177a9cb410ff61f20015ad",
    ),
    (
        Algorithm::Sha256,
        b"abcdbcdecdefdefgefghfghighijhijkijkljklmklmnlmnomnopnopq",
        "sha256:248d6a61d20638b8e5c026930c3e6039a33ce45964ff2167f6ecedd419db06c1",
    ),
    (
        Algorithm::Sha512,
        b"",
        "sha512:cf83e1357eefb8bdf1542850d66d8007d620e4050b5715dc83f4a921d36ce9ce47d0d13c5d85f2b0ff8318d2877eec2f63b931bd47417a81a538327af927da3e",
    ),
    (
        Algorithm::Sha512,
        b"abc",
        "sha512:ddaf35a193617abacc417349ae20413112e6fa4e89a97ea20a9eeee64b55d39a2192992a274fc1a836ba3c23a3feebbd454d4423643ce80e2a9ac94fa54ca49f",
    ),
    (
        Algorithm::Sha512,
        b"abcdefghbcdefghicdefghijdefghijkefghijklfghijklmghijklmnhijklmnoijklmnopjklmnopqklmnopqrlmnopqrsmnopqrstnopqrstu",
        "sha512:8e959b75dae313da8cf4f72814fc143f8f7779c6eb9f7fa17299aeadb6889018501d289e4900f7e4331b99dec4b5433ac7d329eeb6dd26545e96e55b874be909",
    ),
];

/// The digests of one million `a`, the many-block example of FIPS 180-4.
const MILLION: [(Algorithm, &str); 2] = [
    (
        Algorithm::Sha256,
        "sha256:cdc76e5c9914fb9281a1c7e284d73e67f1809a48a497200e046d39ccc7112cd0",
    ),
    (
        Algorithm::Sha512,
        "sha512:e718483d0ce769644e2e42c7bc15b4638e1f98b13b2044285632a803afa973ebde0ff244877ea60a4cb0432ce577c31beb009c5c2c49aa2e4eadb217ad8cc09b",
    ),
];

#[test]
fn digest_vectors(rt: HostRuntime) -> Result<(), Fail> {
    for (algorithm, content, text) in &VECTORS {
        assert_digest(&rt, *algorithm, content, text)?;
    }
    let million = repeated(rt.alloc(), b'a', 1_000_000)?;
    for (algorithm, text) in &MILLION {
        assert_digest(&rt, *algorithm, &million, text)?;
    }
    Ok(())
}

/// Encoded parts that are not valid for the algorithm. Those of SHA-512 have 64 digits, 127 digits,
/// the digest of `abc` with one more digit, and 128 characters with one that is not a digit. The
/// last one has 128 digits, which are too many for `sha256`.
const BAD_ENCODING: &[&str] = &[
    "sha256:AAAAAAAAAAAAAAAAAAAAAAAAAAAAAAAAAAAAAAAAAAAAAAAAAAAAAAAAAAAAAAAA",
    "sha256:aaaaaaaaaaaaaaaaaaaaaaaaaaaaaaaaaaaaaaaaaaaaaaaaaaaaaaaaaaaaaaa",
    "sha256:aaaaaaaaaaaaaaaaaaaaaaaaaaaaaaaaaaaaaaaaaaaaaaaaaaaaaaaaaaaaaaaaa",
    "sha256:gaaaaaaaaaaaaaaaaaaaaaaaaaaaaaaaaaaaaaaaaaaaaaaaaaaaaaaaaaaaaaaa",
    "sha256:aaaaaaaaaaaaaaaaaaaaaaaaaaaaaaaaaaaaaaaaaaaaaaaaaaaaaaaaaaaaaaa=",
    "sha256:aa",
    "sha256:=",
    "sha512:aaaaaaaaaaaaaaaaaaaaaaaaaaaaaaaaaaaaaaaaaaaaaaaaaaaaaaaaaaaaaaaa",
    "sha512:aaaaaaaaaaaaaaaaaaaaaaaaaaaaaaaaaaaaaaaaaaaaaaaaaaaaaaaaaaaaaaaaaaaaaaaaaaaaaaaaaaaaaaaaaaaaaaaaaaaaaaaaaaaaaaaaaaaaaaaaaaaaaaa",
    "sha512:ddaf35a193617abacc417349ae20413112e6fa4e89a97ea20a9eeee64b55d39a2192992a274fc1a836ba3c23a3feebbd454d4423643ce80e2a9ac94fa54ca49f0",
    "sha512:aaaaaaaaaaaaaaaaaaaaaaaaaaaaaaaaaaaaaaaaaaaaaaaaaaaaaaaaaaaaaaaaaaaaaaaaaaaaaaaaaaaaaaaaaaaaaaaaaaaaaaaaaaaaaaaaaaaaaaaaaaaaaaaA",
    "sha512:aaaaaaaaaaaaaaaaaaaaaaaaaaaaaaaaaaaaaaaaaaaaaaaaaaaaaaaaaaaaaaaaaaaaaaaaaaaaaaaaaaaaaaaaaaaaaaaaaaaaaaaaaaaaaaaaaaaaaaaaaaaaaaag",
    "sha512:=",
    "sha256:aaaaaaaaaaaaaaaaaaaaaaaaaaaaaaaaaaaaaaaaaaaaaaaaaaaaaaaaaaaaaaaaaaaaaaaaaaaaaaaaaaaaaaaaaaaaaaaaaaaaaaaaaaaaaaaaaaaaaaaaaaaaaaaa",
];

/// Texts with other algorithms. The second and the third are examples of descriptor.md. The last
/// two have 128 digits.
const UNKNOWN_ALGORITHM: &[&str] = &[
    "md5:d41d",
    "multihash+base58:QmRZxt2b1FVZPNqd8hsiykDL3TdBDeTSPX9Kv46HmX4Gx8",
    "sha256+b64u:LCa0a2j_xo_5m0U8HTBBNBNCLXBkg7-g-YpeiGJm564",
    "sha256+b64:=_-",
    "a.b_c-d+e:Z",
    "0:0",
    "sha2560:aaaaaaaaaaaaaaaaaaaaaaaaaaaaaaaaaaaaaaaaaaaaaaaaaaaaaaaaaaaaaaaa",
    "sha25:aaaaaaaaaaaaaaaaaaaaaaaaaaaaaaaaaaaaaaaaaaaaaaaaaaaaaaaaaaaaaaaa",
    "sha384:aa",
    "sha384:aaaaaaaaaaaaaaaaaaaaaaaaaaaaaaaaaaaaaaaaaaaaaaaaaaaaaaaaaaaaaaaaaaaaaaaaaaaaaaaaaaaaaaaaaaaaaaaaaaaaaaaaaaaaaaaaaaaaaaaaaaaaaaaa",
    "sha512+b64:aaaaaaaaaaaaaaaaaaaaaaaaaaaaaaaaaaaaaaaaaaaaaaaaaaaaaaaaaaaaaaaaaaaaaaaaaaaaaaaaaaaaaaaaaaaaaaaaaaaaaaaaaaaaaaaaaaaaaaaaaaaaaaaa",
];

/// Texts that do not match the grammar of digests.
const BAD_FORM: &[&str] = &[
    "sha256",
    "sha256:",
    "SHA256:aa",
    "SHA512:aa",
    "a:b:c",
    "",
    ":",
    ":aa",
    // Separators with no component before, between or after them.
    "+sha256:aa",
    "sha256+:aa",
    "sha256+-b64:aa",
    "sha256..b64:aa",
    // Characters that are not allowed in an algorithm, or in an encoded part.
    "sha/256:aa",
    "sha=256:aa",
    "sh\u{e1}256:aa",
    "sha256:\u{e9}\u{20ac}\u{1f980}",
    "sha256:aa+bb",
    "sha256:aa.bb",
    "sha256:aa/bb",
    // The digest of no bytes, with one more character.
    " sha256:e3b0c44298fc1c149afbf4c8996fb92427ae41e4649b934ca495991b7852b855",
    "sha256: e3b0c44298fc1c149afbf4c8996fb92427ae41e4649b934ca495991b7852b855",
    "sha256:e3b0c44298fc1c149afbf4c8996fb92427ae41e4649b934ca495991b7852b855\n",
    "sha256:e3b0c44298fc1c149afbf4c8996fb92427ae41e4649b934ca495991b7852b855\0",
    "sha256::e3b0c44298fc1c149afbf4c8996fb92427ae41e4649b934ca495991b7852b855",
];

/// Asserts that parsing each text returns this error.
fn assert_refused(rt: &impl Abort, fault: DigestFault, texts: &[&str]) {
    for text in texts {
        assert!(rt; Digest::parse(text) == Err(fault), "{text:?}");
    }
}

#[test]
fn digest_refusals(rt: HostRuntime) {
    assert_refused(&rt, DigestFault::BadEncoding, BAD_ENCODING);
    assert_refused(&rt, DigestFault::UnknownAlgorithm, UNKNOWN_ALGORITHM);
    assert_refused(&rt, DigestFault::BadForm, BAD_FORM);
}
