// The expected values are worked out by hand from the URL Standard (sections 3.5, 4.4, 4.5 and 5.2).
use std::alloc::Global;
use std::process::Abort;
use std::test::Fail;
use ws_model::{Bytes, NoMemory, Pair};
use ws_target::*;

fn check_key(rt: &impl Abort, alloc: Global, text: &str, want: &str) -> Result<(), Fail> {
    let key = topic(alloc, text.as_bytes(), true)?;
    assert!(rt; key.as_slice() == want.as_bytes(), "{text}");
    let key = callback(alloc, text.as_bytes(), true)?;
    assert!(rt; key.as_slice() == want.as_bytes(), "{text}");
    assert!(rt; is_key(alloc, want.as_bytes())?, "{want}");
    assert!(rt; is_key(alloc, text.as_bytes())? == (text == want), "{text}");
    Ok(())
}

#[test]
fn keys_by_the_url_standard(rt: HostRuntime) -> Result<(), Fail> {
    let table = [
        ("http://sub.example/cb?a=b", "http://sub.example/cb?a=b"),
        ("HTTP://PUB.Example/X", "http://pub.example/X"),
        ("HTTPS://PUB.Example/X", "https://pub.example/X"),
        ("http://pub.example:80/x", "http://pub.example/x"),
        ("https://pub.example:443/x", "https://pub.example/x"),
        ("http://pub.example:443/x", "http://pub.example:443/x"),
        ("http://pub.example:/x", "http://pub.example/x"),
        ("http://p.example/a/./b/../%2e%2E/d", "http://p.example/d"),
        (
            "http://p.example/a b/%7Eé?q='",
            "http://p.example/a%20b/%7E%C3%A9?q=%27",
        ),
        ("http://bücher.example/", "http://xn--bcher-kva.example/"),
        ("http://[2001:DB8::0:1]:8080/", "http://[2001:db8::1]:8080/"),
        ("http://127.1/", "http://127.0.0.1/"),
        ("http://pub.example", "http://pub.example/"),
        ("http://pub.example/x?", "http://pub.example/x?"),
        ("http://pub.example/x?y#part", "http://pub.example/x?y"),
        ("http://:@pub.example/", "http://pub.example/"),
        (
            " \u{1}http://pub.ex\tample/a\nb\r ",
            "http://pub.example/ab",
        ),
        (
            "http://p.example/a\u{1}\u{7f}>",
            "http://p.example/a%01%7F%3E",
        ),
        ("http:\\\\pub.example\\x", "http://pub.example/x"),
    ];
    for (text, want) in table {
        check_key(&rt, rt.alloc(), text, want)?;
    }
    Ok(())
}

fn check_fault(
    rt: &impl Abort,
    alloc: Global,
    text: &str,
    gateway: bool,
    want: TargetFault,
) -> Result<(), Fail> {
    assert!(rt;
        topic(alloc, text.as_bytes(), gateway) == Err(want),
        "{text}"
    );
    assert!(rt;
        callback(alloc, text.as_bytes(), gateway) == Err(want),
        "{text}"
    );
    assert!(rt; is_key(alloc, text.as_bytes())? == !gateway, "{text}");
    Ok(())
}

#[test]
fn callback_faults(rt: HostRuntime) -> Result<(), Fail> {
    let alloc = rt.alloc();
    let table = [
        ("", true, TargetFault::NotUrl),
        ("/x", true, TargetFault::NotUrl),
        ("http://", true, TargetFault::NotUrl),
        ("http://u@pub exam.ple/", true, TargetFault::NotUrl),
        ("http://pub.example:65536/", true, TargetFault::NotUrl),
        (
            "https://sub.example/cb",
            false,
            TargetFault::SchemeNotServed,
        ),
        ("ftp://u@sub.example/", true, TargetFault::SchemeNotServed),
        ("mailto:u@sub.example", true, TargetFault::SchemeNotServed),
        ("http://u@sub.example/", true, TargetFault::UserInfo),
        ("http://:p@sub.example/", true, TargetFault::UserInfo),
        ("https://u@sub.example/", true, TargetFault::UserInfo),
    ];
    for (text, gateway, want) in table {
        check_fault(&rt, alloc, text, gateway, want)?;
    }
    for byte in [b'a', 0xff] {
        let long = vec![in alloc; byte; 2049]?;
        let too_long = TargetFault::TooLong { len: 2049 };
        assert!(rt; callback(alloc, long.as_slice(), true) == Err(too_long));
        let fits = vec![in alloc; byte; 2048]?;
        assert!(rt; callback(alloc, fits.as_slice(), true) == Err(TargetFault::NotUrl));
    }
    Ok(())
}

#[test]
fn long_keys_and_bytes_that_are_not_utf8(rt: HostRuntime) -> Result<(), Fail> {
    let alloc = rt.alloc();
    let mut text = b"http://pub.example/".to_vec(alloc)?;
    let base = topic(alloc, text.as_slice(), false)?;
    text.extend_from_slice(vec![in alloc; b'a'; 3000]?.as_slice())?;
    assert!(rt; is_key(alloc, text.as_slice())?);
    text.truncate(19);
    text.push(0xff)?;
    assert!(rt; topic(alloc, text.as_slice(), false) == Err(TargetFault::NotUrl));
    assert!(rt; !is_key(alloc, text.as_slice())?);
    assert!(rt; join(alloc, &base, text.as_slice()) == Err(TargetFault::NotUrl));
    Ok(())
}

// What is wanted of a key: its host, port, path and query, its field Host, and its target.
#[derive(Drop)]
struct Wanted {
    host: &'static str,
    port: u16,
    path: &'static str,
    query: &'static str,
    field: &'static str,
    target: &'static str,
}

fn check_place(rt: &impl Abort, alloc: Global, text: &str, want: Wanted) -> Result<(), Fail> {
    let key = topic(alloc, text.as_bytes(), true)?;
    let at = place(alloc, &key)?;
    assert!(rt; at.secure == text.starts_with("https:"), "{text}");
    assert!(rt; at.host.as_slice() == want.host.as_bytes(), "{text}");
    assert!(rt; at.port == want.port, "{text}");
    assert!(rt; at.path.as_slice() == want.path.as_bytes(), "{text}");
    assert!(rt; at.query.as_slice() == want.query.as_bytes(), "{text}");
    assert!(rt;
        host_field(alloc, &key)?.as_slice() == want.field.as_bytes(),
        "{text}"
    );
    let own = path_and_query(alloc, &at)?;
    assert!(rt; own.as_slice() == want.target.as_bytes(), "{text}");
    let plain = request_target(alloc, &key, &own, false)?;
    assert!(rt; plain.as_slice() == want.target.as_bytes(), "{text}");
    Ok(())
}

#[test]
fn places_and_targets(rt: HostRuntime) -> Result<(), Fail> {
    let alloc = rt.alloc();
    let plain = Wanted {
        host: "sub.example",
        port: 80,
        path: "/cb",
        query: "a=b",
        field: "sub.example",
        target: "/cb?a=b",
    };
    check_place(&rt, alloc, "http://sub.example/cb?a=b", plain)?;
    let secure = Wanted {
        host: "sub.example",
        port: 443,
        path: "/",
        query: "",
        field: "sub.example",
        target: "/",
    };
    check_place(&rt, alloc, "https://sub.example", secure)?;
    let empty_query = Wanted {
        host: "[2001:db8::1]",
        port: 443,
        path: "/x",
        query: "",
        field: "[2001:db8::1]:443",
        target: "/x",
    };
    check_place(&rt, alloc, "http://[2001:db8::1]:443/x?", empty_query)?;
    Ok(())
}

#[test]
fn targets_through_the_gateway(rt: HostRuntime) -> Result<(), Fail> {
    let alloc = rt.alloc();
    let table = [
        ("https://sub.example/cb", "https://sub.example/x?y"),
        ("http://sub.example:8080/", "http://sub.example:8080/x?y"),
        ("https://[::1]:80/", "https://[::1]:80/x?y"),
    ];
    let target = Bytes::copy(alloc, b"/x?y")?;
    for (text, want) in table {
        let key = topic(alloc, text.as_bytes(), true)?;
        let told = request_target(alloc, &key, &target, true)?;
        assert!(rt; told.as_slice() == want.as_bytes());
    }
    Ok(())
}

fn pair(alloc: Global, name: &[u8], value: &[u8]) -> Result<Pair, NoMemory> {
    Ok(Pair {
        name: Bytes::copy(alloc, name)?,
        value: Bytes::copy(alloc, value)?,
    })
}

fn check_query(
    rt: &impl Abort,
    alloc: Global,
    callback: &str,
    pairs: &[Pair],
    want: &str,
) -> Result<(), Fail> {
    let at = place(alloc, &topic(alloc, callback.as_bytes(), false)?)?;
    assert!(rt;
        with_query(alloc, &at, pairs)?.as_slice() == want.as_bytes(),
        "{want}"
    );
    Ok(())
}

#[test]
fn query_added_to_callback(rt: HostRuntime) -> Result<(), Fail> {
    let alloc = rt.alloc();
    let one = [pair(alloc, b"c", b"d")?];
    check_query(&rt, alloc, "http://sub.example/cb?a=b", &one, "/cb?a=b&c=d")?;
    check_query(&rt, alloc, "http://sub.example/cb", &one, "/cb?c=d")?;
    check_query(&rt, alloc, "http://sub.example/cb?", &one, "/cb?c=d")?;
    check_query(&rt, alloc, "http://sub.example/cb?a=b", &[], "/cb?a=b&")?;
    let two = [
        pair(alloc, b"hub.topic", b"http://p.example/a b?*-._~")?,
        pair(alloc, b"", b"\xff+&=")?,
    ];
    let want = "/cb?hub.topic=http%3A%2F%2Fp.example%2Fa+b%3F*-._%7E&=%FF%2B%26%3D";
    check_query(&rt, alloc, "http://sub.example/cb", &two, want)?;
    Ok(())
}

#[test]
fn link_field_targets(rt: HostRuntime) -> Result<(), Fail> {
    let alloc = rt.alloc();
    let base = topic(alloc, b"http://pub.example/x/y?q", false)?;
    let table = [
        ("/feed", "http://pub.example/feed"),
        ("feed#part", "http://pub.example/x/feed"),
        ("../feed", "http://pub.example/feed"),
        ("?z", "http://pub.example/x/y?z"),
        ("", "http://pub.example/x/y?q"),
        ("//Other.example:80/", "http://other.example/"),
        ("https://u:p@other.example/#f", "https://u:p@other.example/"),
        ("mailto:u@other.example", "mailto:u@other.example"),
    ];
    for (reference, want) in table {
        let key = join(alloc, &base, reference.as_bytes())?;
        assert!(rt; key.as_slice() == want.as_bytes());
    }
    assert!(rt; join(alloc, &base, b"http://a b/") == Err(TargetFault::NotUrl));
    let no_base = Bytes::copy(alloc, b"pub.example")?;
    assert!(rt; join(alloc, &no_base, b"http://pub.example/") == Err(TargetFault::NotUrl));
    Ok(())
}
