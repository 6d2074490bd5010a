//! Sums that are larger than those of any layout that a session could write.

use oci_program::{Form, Sum, print_answer};
use std::process::Abort;
use std::test::Fail;

/// The greatest number, and one more.
const SUMS: [(u128, &str); 2] = [
    (18_446_744_073_709_551_615, "18446744073709551615\n"),
    (18_446_744_073_709_551_616, "\"18446744073709551616\"\n"),
];

/// A sum is a number in a document if it is at most 2^64 - 1, and otherwise a text of its digits.
#[test]
fn large_sums(rt: HostRuntime) -> Result<(), Fail> {
    for (sum, wanted) in SUMS {
        assert_document(&rt, Sum(sum), wanted)?;
    }
    Ok(())
}

fn assert_document<R: AllocGlobal + Abort>(rt: &R, sum: Sum, wanted: &str) -> Result<(), Fail> {
    let mut out = Vec::new(rt.alloc());
    match print_answer(rt.alloc(), &sum, Form::Json, &mut out) {
        Ok(_) => {}
        Err(fault) => return Err(Fail::from(fault)),
    }
    assert_eq!(rt; str::from_utf8(&out)?, wanted);
    Ok(())
}
