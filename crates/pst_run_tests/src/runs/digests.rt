//! Runs of `check --digest`: the digests are those of sha256sum.

use super::encoded::{encoded, is_run};
use pst_make::{Method, flip, m0};
use std::test::Fail;

const M0_DIGEST: &str =
    "{\"blocks\":2,\"folders\":1,\"lost\":[],\"messages\":0,\"nodes\":2,\"order\":\"high\",\"pages\":2,\"sha256\":\"fad9565623624ccd53baedac897c48ca75dbda38b419cb8b6967b97ea848d681\",\"verdict\":\"yes\"}\n";

const M1_PERMUTED: &str =
    "{\"blocks\":3,\"folders\":2,\"lost\":[],\"messages\":0,\"nodes\":4,\"order\":\"high\",\"pages\":2,\"sha256\":\"9115834182a5c7eedb13d83d9cace5e92d785e7a1bf7b41ae14bf22a1e6722c2\",\"verdict\":\"yes\"}\n";

const M1_CYCLIC: &str =
    "{\"blocks\":3,\"folders\":2,\"lost\":[],\"messages\":0,\"nodes\":4,\"order\":\"high\",\"pages\":2,\"sha256\":\"d1fcdd9a0d04f7f879739ee4382a557316537d4943a86fa2eb0a922ce13152ee\",\"verdict\":\"yes\"}\n";

#[test]
fn the_verdict_has_the_digest_of_the_file(rt: HostRuntime) -> Result<(), Fail> {
    let bytes = m0(rt.alloc())?;
    for words in [
        &["check", "--digest", "a.pst"][..],
        &["check", "--digest", "--strict", "a.pst"],
        &["check", "a.pst", "--decode", "--digest"],
    ] {
        is_run(&rt, words, &bytes, 0, M0_DIGEST, "")?;
    }
    Ok(())
}

// The digest is of the file as it is stored, and not of what it is decoded to.
#[test]
fn the_digest_is_taken_before_anything_is_decoded(rt: HostRuntime) -> Result<(), Fail> {
    for (method, told) in [(Method::Permute, M1_PERMUTED), (Method::Cyclic, M1_CYCLIC)] {
        let bytes = encoded(rt.alloc(), method)?;
        let words = &["check", "--digest", "--decode", "a.pst"];
        is_run(&rt, words, &bytes, 0, told, "")?;
    }
    Ok(())
}

#[test]
fn a_no_says_nothing_of_the_digest(rt: HostRuntime) -> Result<(), Fail> {
    let mut bytes = m0(rt.alloc())?;
    flip(&mut bytes, 0x4c5e)?;
    let fault = "no: 14 BlockTrailer at 0x4c40 bid 0x8 nid 0x0\n";
    is_run(&rt, &["check", "--digest", "a.pst"], &bytes, 1, "", fault)
}
