use std::process::Abort;
use std::test::Fail;
use ws_hmac::{UseSha256, check, hmac, own_signature_checks, signature};
use ws_model::Alg;

const BODY: &[u8] = b"what do ya want for nothing?";

const SHA1_HEADER: &[u8] = b"sha1=effcdf6ae5eb2fa2d27416d5f184df9c259a7c79";

const LONG_BODY: &[u8] =
    b"This is a test using a larger than block-size key and a larger than block-size data. The key needs to be hashed before being used by the HMAC algorithm.";

const COUNTED_KEY: [u8; 25] = [
    1, 2, 3, 4, 5, 6, 7, 8, 9, 10, 11, 12, 13, 14, 15, 16, 17, 18, 19, 20, 21, 22, 23, 24, 25,
];

// Each signature has the wanted text, and is one that `check` takes.
fn assert_signs<R: AllocGlobal + Abort>(
    rt: &R,
    alg: Alg,
    cases: &[(&[u8], &[u8], &str)],
) -> Result<(), Fail> {
    for (key, body, want) in cases {
        let text = signature(rt.alloc(), alg, key, body)?;
        assert!(rt; text.as_slice() == want.as_bytes(), "{want}");
        assert!(rt; check(want.as_bytes(), key, body), "{want}");
    }
    Ok(())
}

// The test cases of RFC 2202, section 3.
#[test]
fn rfc_2202(rt: HostRuntime) -> Result<(), Fail> {
    let cases: [(&[u8], &[u8], &str); 7] = [
        (
            &[0x0b; 20],
            b"Hi There",
            "sha1=b617318655057264e28bc0b6fb378c8ef146be00",
        ),
        (
            b"Jefe",
            BODY,
            "sha1=effcdf6ae5eb2fa2d27416d5f184df9c259a7c79",
        ),
        (
            &[0xaa; 20],
            &[0xdd; 50],
            "sha1=125d7342b9ac11cd91a39af48aa17b4f63f175d3",
        ),
        (
            &COUNTED_KEY,
            &[0xcd; 50],
            "sha1=4c9007f4026250c6bc8414f9bf50c86c2d7235da",
        ),
        (
            &[0x0c; 20],
            b"Test With Truncation",
            "sha1=4c1a03424b55e07fe7f27be1d58bb9324a9a5a04",
        ),
        (
            &[0xaa; 80],
            b"Test Using Larger Than Block-Size Key - Hash Key First",
            "sha1=aa4ae5e15272d00e95705637ce8a3b55ed402112",
        ),
        (
            &[0xaa; 80],
            b"Test Using Larger Than Block-Size Key and Larger Than One Block-Size Data",
            "sha1=e8e99d0f45237d786d6bbaa7965c7808bbff1a91",
        ),
    ];
    assert_signs(&rt, Alg::Sha1, &cases)
}

// The test cases of RFC 4231, section 4. It gives 16 bytes of the fifth alone; the others are Python's (hmac, 3.11).
#[test]
fn rfc_4231_sha256(rt: HostRuntime) -> Result<(), Fail> {
    let cases: [(&[u8], &[u8], &str); 7] = [
        (
            &[0x0b; 20],
            b"Hi There",
            "sha256=b0344c61d8db38535ca8afceaf0bf12b881dc200c9833da726e9376c2e32cff7",
        ),
        (
            b"Jefe",
            BODY,
            "sha256=5bdcc146bf60754e6a042426089575c75a003f089d2739839dec58b964ec3843",
        ),
        (
            &[0xaa; 20],
            &[0xdd; 50],
            "sha256=773ea91e36800e46854db8ebd09181a72959098b3ef8c122d9635514ced565fe",
        ),
        (
            &COUNTED_KEY,
            &[0xcd; 50],
            "sha256=82558a389a443c0ea4cc819899f2083a85f0faa3e578f8077a2e3ff46729665b",
        ),
        (
            &[0x0c; 20],
            b"Test With Truncation",
            "sha256=a3b6167473100ee06e0c796c2955552bfa6f7c0a6a8aef8b93f860aab0cd20c5",
        ),
        (
            &[0xaa; 131],
            b"Test Using Larger Than Block-Size Key - Hash Key First",
            "sha256=60e431591ee0b67f0d8a26aacbf5b77f8e0bc6213728c5140546040f0ee37f54",
        ),
        (
            &[0xaa; 131],
            LONG_BODY,
            "sha256=9b09ffa71b942fcb27635fbcd5b0e944bfdc63644f0713938a7f51535c3a35e2",
        ),
    ];
    assert_signs(&rt, Alg::Sha256, &cases)
}

#[test]
fn rfc_4231_sha384(rt: HostRuntime) -> Result<(), Fail> {
    let cases: [(&[u8], &[u8], &str); 7] = [
        (
            &[0x0b; 20],
            b"Hi There",
            "sha384=afd03944d84895626b0825f4ab46907f15f9dadbe4101ec682aa034c7cebc59cfaea9ea9076ede7f4af152e8b2fa9cb6",
        ),
        (
            b"Jefe",
            BODY,
            "sha384=af45d2e376484031617f78d2b58a6b1b9c7ef464f5a01b47e42ec3736322445e8e2240ca5e69e2c78b3239ecfab21649",
        ),
        (
            &[0xaa; 20],
            &[0xdd; 50],
            "sha384=88062608d3e6ad8a0aa2ace014c8a86f0aa635d947ac9febe83ef4e55966144b2a5ab39dc13814b94e3ab6e101a34f27",
        ),
        (
            &COUNTED_KEY,
            &[0xcd; 50],
            "sha384=3e8a69b7783c25851933ab6290af6ca77a9981480850009cc5577c6e1f573b4e6801dd23c4a7d679ccf8a386c674cffb",
        ),
        (
            &[0x0c; 20],
            b"Test With Truncation",
            "sha384=3abf34c3503b2a23a46efc619baef897f4c8e42c934ce55ccbae9740fcbc1af4ca62269e2a37cd88ba926341efe4aeea",
        ),
        (
            &[0xaa; 131],
            b"Test Using Larger Than Block-Size Key - Hash Key First",
            "sha384=4ece084485813e9088d2c63a041bc5b44f9ef1012a2b588f3cd11f05033ac4c60c2ef6ab4030fe8296248df163f44952",
        ),
        (
            &[0xaa; 131],
            LONG_BODY,
            "sha384=6617178e941f020d351e2f254e8fd32c602420feb0b8fb9adccebb82461e99c5a678cc31e799176d3860e6110c46523e",
        ),
    ];
    assert_signs(&rt, Alg::Sha384, &cases)
}

#[test]
fn rfc_4231_sha512(rt: HostRuntime) -> Result<(), Fail> {
    let cases: [(&[u8], &[u8], &str); 7] = [
        (
            &[0x0b; 20],
            b"Hi There",
            "sha512=87aa7cdea5ef619d4ff0b4241a1d6cb02379f4e2ce4ec2787ad0b30545e17cdedaa833b7d6b8a702038b274eaea3f4e4be9d914eeb61f1702e696c203a126854",
        ),
        (
            b"Jefe",
            BODY,
            "sha512=164b7a7bfcf819e2e395fbe73b56e0a387bd64222e831fd610270cd7ea2505549758bf75c05a994a6d034f65f8f0e6fdcaeab1a34d4a6b4b636e070a38bce737",
        ),
        (
            &[0xaa; 20],
            &[0xdd; 50],
            "sha512=fa73b0089d56a284efb0f0756c890be9b1b5dbdd8ee81a3655f83e33b2279d39bf3e848279a722c806b485a47e67c807b946a337bee8942674278859e13292fb",
        ),
        (
            &COUNTED_KEY,
            &[0xcd; 50],
            "sha512=b0ba465637458c6990e5a8c5f61d4af7e576d97ff94b872de76f8050361ee3dba91ca5c11aa25eb4d679275cc5788063a5f19741120c4f2de2adebeb10a298dd",
        ),
        (
            &[0x0c; 20],
            b"Test With Truncation",
            "sha512=415fad6271580a531d4179bc891d87a650188707922a4fbb36663a1eb16da008711c5b50ddd0fc235084eb9d3364a1454fb2ef67cd1d29fe6773068ea266e96b",
        ),
        (
            &[0xaa; 131],
            b"Test Using Larger Than Block-Size Key - Hash Key First",
            "sha512=80b24263c7c1a3ebb71493c1dd7be8b49b46d1f41b4aeec1121b013783f8f3526b56d037e05f2598bd0fd2215d6a1e5295e64f73f63f0aec8b915a985d786598",
        ),
        (
            &[0xaa; 131],
            LONG_BODY,
            "sha512=e37b6a775dc87dbaa4dfa9f96e5e3ffddebd71f8867289865df5a32d20cdc944b6022cac3c4982b10d5eeb55c3e4de15134676fb6de0446065c97440fa8c6a58",
        ),
    ];
    assert_signs(&rt, Alg::Sha512, &cases)
}

// Values of Python 3.11's hmac: keys around the two sizes of block, and the longest secret, with an empty body.
#[test]
fn hmac_key_lengths(rt: HostRuntime) -> Result<(), Fail> {
    let cases: [(&[u8], &[u8], &str); 5] = [
        (
            &[b'k'; 64],
            b"",
            "sha1=b6b10bf17b16d7347adb5e4149102761dbb3bcbd",
        ),
        (
            &[b'k'; 65],
            b"",
            "sha1=52b70f513f87ea4feaf119af1cdc8097107b3837",
        ),
        (
            &[b'k'; 128],
            b"",
            "sha1=407dbc5c3c134c2b80791444ec305276e649c3ae",
        ),
        (
            &[b'k'; 129],
            b"",
            "sha1=f1df19a20bdc59d033e3c5017eba211d656acce2",
        ),
        (
            &[b'k'; 199],
            b"",
            "sha1=e3dcbbdf3bc22c655ad9fbc8a04554f769aa2c24",
        ),
    ];
    assert_signs(&rt, Alg::Sha1, &cases)?;
    let cases: [(&[u8], &[u8], &str); 5] = [
        (
            &[b'k'; 64],
            b"",
            "sha256=83026a325aaee70e36cfe607536aa1054104ad1077c36134810d4ccded1ccd3b",
        ),
        (
            &[b'k'; 65],
            b"",
            "sha256=41f1c4cc3107cd5b8d92460f61032902bfdb06484eef17e861b83a5012d3b7f3",
        ),
        (
            &[b'k'; 128],
            b"",
            "sha256=81833a4e8e9917c622249092d8cf2e71d7b759c580547e82ba5dd84917b29eed",
        ),
        (
            &[b'k'; 129],
            b"",
            "sha256=6fccbbdf42a3aa30d48ac78c3370dd2e703a1f839b0342efe35a9428f01f2fc6",
        ),
        (
            &[b'k'; 199],
            b"",
            "sha256=2a1a50c25efc2fe95c0c7b83c15fea7f83aaa8b80312ec510a6da955ebf05d0e",
        ),
    ];
    assert_signs(&rt, Alg::Sha256, &cases)?;
    let cases: [(&[u8], &[u8], &str); 5] = [
        (
            &[b'k'; 64],
            b"",
            "sha384=62629f8a0300744659368e3837de4a065694417e50d92bf74bfb78761bdc6f4eea121e2fc1c874c7b745f87911127a89",
        ),
        (
            &[b'k'; 65],
            b"",
            "sha384=063737449922b414ba215911c58ae2ae07e35b8b183d9791b264900ccc62b1c8fc0f118a456041bc00ee266ae93f332d",
        ),
        (
            &[b'k'; 128],
            b"",
            "sha384=6a2c7a0784f6a1f92a451c85fea7802d13f8ecd754735d6f6cab037b724713de9af127f457ce12fb1708cacda894480f",
        ),
        (
            &[b'k'; 129],
            b"",
            "sha384=0b06fcbb1b03bed88326ca27f2a71a1c72d2d316898ad69604a1e2f0e5d9a25f63e6b8a30704cfb6946704974c72137e",
        ),
        (
            &[b'k'; 199],
            b"",
            "sha384=7e07e1fd97563a77cf7174fce9a42338472e4121e5fc0a3df1f31186777e63d62a3b2f31911fcc38379923049dc7cf7e",
        ),
    ];
    assert_signs(&rt, Alg::Sha384, &cases)?;
    let cases: [(&[u8], &[u8], &str); 5] = [
        (
            &[b'k'; 64],
            b"",
            "sha512=f823594b6d4fae1f9ee7b1b8c6147e3f583bca04bc1f28f5a5554bce39df9f05a0e2705bee4200848a39b4d68d084028c917e63781e844eb4c09f85e451407c5",
        ),
        (
            &[b'k'; 65],
            b"",
            "sha512=7c538716fa688f347e056b462f98acfb1f012d7f9f20ae54256d1d4764131b2d912f21f43d5310ed5a53fd56aaa653996c1441e4f2e730153c3a098b50c86f16",
        ),
        (
            &[b'k'; 128],
            b"",
            "sha512=73b9d00273f1a9c5948422a4cabe327dcaded0f8df306af23ada45cafcf6306df4f30a143e352f61f7a6629c88d59e4f9df9f688b85ed48bd3f519af96c7df63",
        ),
        (
            &[b'k'; 129],
            b"",
            "sha512=fddb8a2194cbfb75ae9c862b615b44a2dcd28ffed5a6ed3f49723358398331c8e295c9ab9661cd448d8aee44b80689d0a2f4f2bc7d0014d418283f5326a7c02d",
        ),
        (
            &[b'k'; 199],
            b"",
            "sha512=ea1feaea5665c2c7d23d0cea1e52fd153ecc240417d5e5ba038639ca1ebe8b61549e80fd290111a5f1413108098103f4218de5d7abbaee057dc5c44aa0aed788",
        ),
    ];
    assert_signs(&rt, Alg::Sha512, &cases)?;
    Ok(())
}

#[test]
fn signature_vector_sha1(rt: HostRuntime) -> Result<(), Fail> {
    let text = signature(rt.alloc(), Alg::Sha1, b"Jefe", BODY)?;
    assert!(rt; text.as_slice() == SHA1_HEADER);
    assert!(rt; check(SHA1_HEADER, b"Jefe", BODY));
    assert!(rt;
        !check(
            b"sha1=effcdf6ae5eb2fa2d27416d5f184df9c259a7c78",
            b"Jefe",
            BODY
        )
    );
    Ok(())
}

#[test]
fn signature_lengths(rt: HostRuntime) -> Result<(), Fail> {
    let lengths = [
        (Alg::Sha1, 45),
        (Alg::Sha256, 71),
        (Alg::Sha384, 103),
        (Alg::Sha512, 135),
    ];
    for (alg, length) in lengths {
        let text = signature(rt.alloc(), alg, b"Jefe", BODY)?;
        assert_eq!(rt; text.as_slice().len(), length);
    }
    Ok(())
}

#[test]
fn signature_check_case_and_method(rt: HostRuntime) {
    let cases: [(&[u8], bool); 9] = [
        (b"sha1=EFFCDF6AE5EB2FA2D27416D5F184DF9C259A7C79", true),
        (b"sha1=EffCdf6ae5eb2fa2d27416d5f184df9c259a7C79", true),
        (b"md5=effcdf6ae5eb2fa2d27416d5f184df9c259a7c79", false),
        (b"SHA1=effcdf6ae5eb2fa2d27416d5f184df9c259a7c79", false),
        (b"sha1 effcdf6ae5eb2fa2d27416d5f184df9c259a7c79", false),
        (b"sha1=effcdf6ae5eb2fa2d27416d5f184df9c259a7c7", false),
        (b"sha1=effcdf6ae5eb2fa2d27416d5f184df9c259a7c79 ", false),
        (b"sha1=gffcdf6ae5eb2fa2d27416d5f184df9c259a7c79", false),
        (b"", false),
    ];
    for (header, want) in cases {
        assert_eq!(rt; check(header, b"Jefe", BODY), want, "{header:?}");
    }
}

// The value of RFC 4231, section 4.3, through the generic function.
#[test]
fn hmac_alone(rt: HostRuntime) {
    let value = hmac::<UseSha256, 64, 32>(b"Jefe", BODY);
    assert!(rt; value[..4] == [0x5b, 0xdc, 0xc1, 0x46]);
    assert!(rt; value[28..] == [0x64, 0xec, 0x38, 0x43]);
    own_signature_checks();
}
