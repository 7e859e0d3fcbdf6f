//! New keys: what is handed out, and what the file has.
use nesl_keys::keys::{Keys, KeysFault};
use nesl_keys::make::{Newcomer, RenewFault, make_keys, renew_key};
use std::test::Fail;

const ANN: Newcomer<'static> = Newcomer {
    name: b"ann",
    salt: [
        0x00, 0x11, 0x22, 0x33, 0x44, 0x55, 0x66, 0x77, 0x88, 0x99, 0xaa, 0xbb, 0xcc, 0xdd, 0xee,
        0xff,
    ],
    key: [
        0x01, 0x23, 0x45, 0x67, 0x89, 0xab, 0xcd, 0xef, 0x01, 0x23, 0x45, 0x67, 0x89, 0xab, 0xcd,
        0xef,
    ],
};

const BOB: Newcomer<'static> = Newcomer {
    name: b"bob",
    salt: [
        0xff, 0xee, 0xdd, 0xcc, 0xbb, 0xaa, 0x99, 0x88, 0x77, 0x66, 0x55, 0x44, 0x33, 0x22, 0x11,
        0x00,
    ],
    key: [
        0xfe, 0xdc, 0xba, 0x98, 0x76, 0x54, 0x32, 0x10, 0xfe, 0xdc, 0xba, 0x98, 0x76, 0x54, 0x32,
        0x10,
    ],
};

/// What Ann and Bob get.
const HANDOUTS: &str =
    "ann 0123456789abcdef0123456789abcdef http://127.0.0.1:8080/#ann.0123456789abcdef0123456789abcdef
bob fedcba9876543210fedcba9876543210 http://127.0.0.1:8080/#bob.fedcba9876543210fedcba9876543210
";

/// The file of their keys. The digests are those of `printf %s SALTKEY | sha256sum`.
const FILE: &str = "pazkindu keys 1
ann 00112233445566778899aabbccddeeff 1bfdb43545f0dcd7514ca7733399e3235fd99e99b50c08404b05f47d5600e983
bob ffeeddccbbaa99887766554433221100 1ffed0e3c9e4addd5864b86f173e3b4abef9749dfeb02a8f9c70e853bf6e8630
";

fn named(name: &[u8]) -> Newcomer<'_> {
    Newcomer {
        name,
        salt: ANN.salt,
        key: ANN.key,
    }
}

#[test]
fn keys_are_made(rt: HostRuntime) -> Result<(), Fail> {
    let made = make_keys(rt.alloc(), b"http://127.0.0.1:8080/", &[ANN, BOB])?;
    assert_eq!(rt; made.handouts.as_slice(), HANDOUTS.as_bytes());
    assert_eq!(rt; made.file.as_slice(), FILE.as_bytes());
    let keys = Keys::read(rt.alloc(), made.file.as_slice())?;
    assert!(rt; keys.opens(b"ann", b"0123456789abcdef0123456789abcdef"));
    assert!(rt; !keys.opens(b"bob", b"0123456789abcdef0123456789abcdef"));
    Ok(())
}

#[test]
fn no_keys_are_made(rt: HostRuntime) -> Result<(), Fail> {
    let alloc = rt.alloc();
    assert_eq!(rt; make_keys(alloc, b"", &[]).err(), Some(KeysFault::Nobody));
    let twice = make_keys(alloc, b"", &[ANN, BOB, named(b"ann")]).err();
    assert_eq!(rt; twice, Some(KeysFault::Twice { number: 4 }));
    for name in [
        b"Ann".as_slice(),
        b"",
        b"ann bob",
        b"ann\nbob",
        b"1a",
        b"abcdefghijklmnopq",
    ] {
        let fault = make_keys(alloc, b"", &[BOB, named(name)]).err();
        assert_eq!(rt; fault, Some(KeysFault::Line { number: 3 }));
    }
    let comment = make_keys(alloc, b"", &[BOB, named(b"#ann")]).err();
    assert_eq!(rt; comment, Some(KeysFault::Line { number: 3 }));
    Ok(())
}

/// A file of Ann and Bob, both with Bob's salt and key.
const OLD: &str = "pazkindu keys 1
# class of 2026

bob ffeeddccbbaa99887766554433221100 1ffed0e3c9e4addd5864b86f173e3b4abef9749dfeb02a8f9c70e853bf6e8630
#ann
ann ffeeddccbbaa99887766554433221100 1ffed0e3c9e4addd5864b86f173e3b4abef9749dfeb02a8f9c70e853bf6e8630";

/// The same after Ann has got a new key.
const RENEWED: &str = "pazkindu keys 1
# class of 2026

bob ffeeddccbbaa99887766554433221100 1ffed0e3c9e4addd5864b86f173e3b4abef9749dfeb02a8f9c70e853bf6e8630
#ann
ann 00112233445566778899aabbccddeeff 1bfdb43545f0dcd7514ca7733399e3235fd99e99b50c08404b05f47d5600e983";

#[test]
fn one_line_is_renewed(rt: HostRuntime) -> Result<(), Fail> {
    let alloc = rt.alloc();
    let made = renew_key(alloc, b"http://127.0.0.1:8080/", OLD.as_bytes(), &ANN)?;
    assert_eq!(rt; made.file.as_slice(), RENEWED.as_bytes());
    assert!(rt; HANDOUTS.as_bytes().starts_with(made.handouts.as_slice()));
    let all = renew_key(alloc, b"", FILE.as_bytes(), &BOB)?;
    assert_eq!(rt; all.file.as_slice(), FILE.as_bytes());
    let stranger = renew_key(alloc, b"", FILE.as_bytes(), &named(b"eve")).err();
    assert_eq!(rt; stranger, Some(RenewFault::Unlisted));
    let empty = renew_key(alloc, b"", b"", &ANN).err();
    assert_eq!(rt; empty, Some(RenewFault::Content(KeysFault::Version)));
    Ok(())
}
