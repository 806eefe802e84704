// Forms and what is meant by them. What is meant was worked out by hand from the order of the faults
// and, for URLs and escapes, from the URL Standard.
use std::alloc::Global;
use std::test::Fail;
use ws_form::{Ask, AskFault, read_ask};
use ws_model::Bytes;
use ws_target::TargetFault;

// The fields of a subscriber, as their text.
#[derive(Clone, Copy)]
struct Wanted {
    topic: &'static str,
    echo: &'static str,
    callback: &'static str,
    secret: &'static str,
    granted: u32,
}

const PLAIN: Wanted = Wanted {
    topic: "http://p.example/x",
    echo: "http://p.example/x",
    callback: "http://s.example/c",
    secret: "",
    granted: 864_000,
};

fn is_text(bytes: &Bytes, text: &str) -> bool {
    bytes.as_slice() == text.as_bytes()
}

fn is_wanted(ask: &Ask, wanted: &Wanted) -> bool {
    let Ask::Subscribe {
        topic,
        echo,
        callback,
        secret,
        granted,
    } = ask
    else {
        return false;
    };
    is_text(topic, wanted.topic)
        && is_text(echo, wanted.echo)
        && is_text(callback, wanted.callback)
        && is_text(secret, wanted.secret)
        && *granted == wanted.granted
}

const FAULTS: [(&str, AskFault); 36] = [
    ("", AskFault::ModeMissing),
    ("a=b&hub.topic=x", AskFault::ModeMissing),
    ("mode=subscribe", AskFault::ModeMissing),
    ("hub.mode=ping", AskFault::ModeUnknown),
    ("hub.mode", AskFault::ModeUnknown),
    (
        "hub.mode=Subscribe&hub.topic=http://p.example/x&hub.callback=http://s.example/c",
        AskFault::ModeUnknown,
    ),
    (
        "hub.mode=ping&hub.mode=subscribe&hub.topic=http://p.example/x",
        AskFault::ModeUnknown,
    ),
    // topic-missing-before-callback
    ("hub.mode=unsubscribe&a=b&c", AskFault::TopicMissing),
    ("hub.mode=subscribe", AskFault::TopicMissing),
    (
        "hub.mode=subscribe&hub.callback=x&hub.lease_seconds=0",
        AskFault::TopicMissing,
    ),
    (
        "hub.mode=subscribe&hub.url=http://p.example/x&hub.callback=http://s.example/c",
        AskFault::TopicMissing,
    ),
    (
        "hub.mode=subscribe&hub.topic=x",
        AskFault::TopicBad(TargetFault::NotUrl),
    ),
    (
        "hub.mode=subscribe&hub.topic=&hub.callback=x",
        AskFault::TopicBad(TargetFault::NotUrl),
    ),
    (
        "hub.mode=unsubscribe&hub.topic=ftp://p.example/&hub.callback=http://s.example/c",
        AskFault::TopicBad(TargetFault::SchemeNotServed),
    ),
    (
        "hub.mode=subscribe&hub.topic=https://p.example/&hub.callback=http://s.example/c",
        AskFault::TopicBad(TargetFault::SchemeNotServed),
    ),
    (
        "hub.mode=subscribe&hub.topic=http://u@p.example/&hub.callback=http://s.example/c",
        AskFault::TopicBad(TargetFault::UserInfo),
    ),
    (
        "hub.mode=subscribe&hub.topic=x&hub.topic=http://p.example/x&hub.callback=http://s.example/c",
        AskFault::TopicBad(TargetFault::NotUrl),
    ),
    (
        "hub.mode=subscribe&hub.topic=http://p.example/x",
        AskFault::CallbackMissing,
    ),
    (
        "hub.mode=unsubscribe&hub.topic=http://p.example/x",
        AskFault::CallbackMissing,
    ),
    (
        "hub.mode=subscribe&hub.topic=http://p.example/x&hub.lease_seconds=0",
        AskFault::CallbackMissing,
    ),
    (
        "hub.mode=subscribe&hub.topic=http://p.example/x&hub.callback=c&hub.lease_seconds=0",
        AskFault::CallbackBad(TargetFault::NotUrl),
    ),
    // https-callback-needs-gateway
    (
        "hub.mode=subscribe&hub.topic=http://p.example/x&hub.callback=https://s.example/c",
        AskFault::CallbackBad(TargetFault::SchemeNotServed),
    ),
    (
        "hub.mode=unsubscribe&hub.topic=http://p.example/x&hub.callback=http://:p@s.example/c",
        AskFault::CallbackBad(TargetFault::UserInfo),
    ),
    (
        "hub.mode=subscribe&hub.topic=http://p.example/x&hub.callback=http://s.example/c&hub.lease_seconds=0",
        AskFault::LeaseBad,
    ),
    (
        "hub.mode=subscribe&hub.topic=http://p.example/x&hub.callback=http://s.example/c&hub.lease_seconds=000",
        AskFault::LeaseBad,
    ),
    (
        "hub.mode=subscribe&hub.topic=http://p.example/x&hub.callback=http://s.example/c&hub.lease_seconds=abc",
        AskFault::LeaseBad,
    ),
    (
        "hub.mode=subscribe&hub.topic=http://p.example/x&hub.callback=http://s.example/c&hub.lease_seconds=%2B60",
        AskFault::LeaseBad,
    ),
    (
        "hub.mode=subscribe&hub.topic=http://p.example/x&hub.callback=http://s.example/c&hub.lease_seconds=+60",
        AskFault::LeaseBad,
    ),
    (
        "hub.mode=subscribe&hub.topic=http://p.example/x&hub.callback=http://s.example/c&hub.lease_seconds=%D9%A3",
        AskFault::LeaseBad,
    ),
    (
        "hub.mode=subscribe&hub.topic=http://p.example/x&hub.callback=http://s.example/c&hub.lease_seconds=0&hub.lease_seconds=60",
        AskFault::LeaseBad,
    ),
    ("hub.mode=publish", AskFault::UrlMissing),
    (
        "hub.mode=publish&hub.callback=http://s.example/c",
        AskFault::UrlMissing,
    ),
    (
        "hub.mode=publish&hub.url=",
        AskFault::TopicBad(TargetFault::NotUrl),
    ),
    (
        "hub.mode=publish&hub.url=http://p.example/x&hub.topic=ftp://p.example/&hub.url=x",
        AskFault::TopicBad(TargetFault::SchemeNotServed),
    ),
    (
        "hub.mode=publish&hub.topic=http://u@p.example/&hub.url=x",
        AskFault::TopicBad(TargetFault::UserInfo),
    ),
    (
        "hub.mode=publish&hub.url=https://p.example/",
        AskFault::TopicBad(TargetFault::SchemeNotServed),
    ),
];

#[test]
fn faults_in_their_order(rt: HostRuntime) -> Result<(), Fail> {
    let alloc = rt.alloc();
    for (body, wanted) in FAULTS {
        match read_ask(alloc, body.as_bytes(), false) {
            Err(fault) => assert_eq!(rt; fault, wanted, "{body}"),
            Ok(ask) => assert!(rt; false, "{body} asks for {ask:?}"),
        }
    }
    Ok(())
}

const BASE: &str =
    "hub.mode=subscribe&hub.topic=http://p.example/x&hub.callback=http://s.example/c";

// What stands behind the fields of BASE, and what the form asks for then.
const ASKS: [(&str, Wanted); 17] = [
    ("", PLAIN),
    ("&hub.lease_seconds=&hub.secret=", PLAIN),
    // form-faults-and-unleased-publish: the first topic counts, as does the first of all else
    ("&hub.topic=x&hub.callback=c&hub.mode=publish", PLAIN),
    ("&hub.url=x&hub.foo=1&hub.secret%3D1&&=&=x", PLAIN),
    (
        "&hub.secret=s",
        Wanted {
            secret: "s",
            ..PLAIN
        },
    ),
    (
        "&hub.secret=s&hub.secret=t",
        Wanted {
            secret: "s",
            ..PLAIN
        },
    ),
    (
        "&hub%2Esecret=a%20b+c",
        Wanted {
            secret: "a b c",
            ..PLAIN
        },
    ),
    (
        "&hub.secret=%FF%",
        Wanted {
            secret: "\u{fffd}%",
            ..PLAIN
        },
    ),
    // lease-clamped-to-bounds
    (
        "&hub.lease_seconds=1",
        Wanted {
            granted: 60,
            ..PLAIN
        },
    ),
    (
        "&hub.lease_seconds=59",
        Wanted {
            granted: 60,
            ..PLAIN
        },
    ),
    (
        "&hub.lease_seconds=60",
        Wanted {
            granted: 60,
            ..PLAIN
        },
    ),
    (
        "&hub.lease_seconds=0061",
        Wanted {
            granted: 61,
            ..PLAIN
        },
    ),
    (
        "&hub.lease_seconds=863999",
        Wanted {
            granted: 863_999,
            ..PLAIN
        },
    ),
    ("&hub.lease_seconds=864000", PLAIN),
    ("&hub.lease_seconds=864001", PLAIN),
    (
        "&hub.lease_seconds=1000000000000000000000000000000000000000",
        PLAIN,
    ),
    (
        "&hub.lease_seconds=0000000000000000000000000000000000000123&hub.lease_seconds=x",
        Wanted {
            granted: 123,
            ..PLAIN
        },
    ),
];

#[test]
fn lease_clamped_to_bounds(rt: HostRuntime) -> Result<(), Fail> {
    let alloc = rt.alloc();
    for (more, wanted) in ASKS {
        let body = format!(in alloc; "{BASE}{more}")?;
        let ask = read_ask(alloc, body.as_bytes(), false)?;
        assert!(rt; is_wanted(&ask, &wanted), "{more} asks for {ask:?}");
    }
    Ok(())
}

#[test]
fn urls_become_keys(rt: HostRuntime) -> Result<(), Fail> {
    let alloc = rt.alloc();
    let rows = [
        (
            "hub.callback=HTTPS://S.example:443/c%23d&hub.topic=http://P.example:80/a+b%23part&hub.mode=subscribe",
            Wanted {
                topic: "http://p.example/a%20b",
                echo: "http://P.example:80/a b#part",
                callback: "https://s.example/c",
                ..PLAIN
            },
        ),
        (
            "hub.mode=subscribe&hub.topic=https://p.example/%FF&hub.callback=http://s.example/c",
            Wanted {
                topic: "https://p.example/%EF%BF%BD",
                echo: "https://p.example/\u{fffd}",
                ..PLAIN
            },
        ),
    ];
    for (body, wanted) in rows {
        let ask = read_ask(alloc, body.as_bytes(), true)?;
        assert!(rt; is_wanted(&ask, &wanted), "{body} asks for {ask:?}");
    }
    Ok(())
}

// BASE with a secret of so many letters behind it, and what follows that.
fn with_secret(alloc: Global, count: usize, more: &str) -> Result<String, Fail> {
    let mut body = format!(in alloc; "{BASE}&hub.secret=")?;
    for _ in 0..count {
        body.push('s')?;
    }
    body.push_str(more)?;
    Ok(body)
}

#[test]
fn secret_length_bound(rt: HostRuntime) -> Result<(), Fail> {
    let alloc = rt.alloc();
    let longest = with_secret(alloc, 199, "")?;
    assert!(rt; read_ask(alloc, longest.as_bytes(), false).is_ok());
    let rows = [
        (with_secret(alloc, 200, "")?, AskFault::SecretLong),
        (with_secret(alloc, 199, "%2B")?, AskFault::SecretLong),
        (
            with_secret(alloc, 200, "&hub.lease_seconds=0")?,
            AskFault::LeaseBad,
        ),
    ];
    for (body, wanted) in &rows {
        match read_ask(alloc, body.as_bytes(), false) {
            Err(fault) => assert_eq!(rt; fault, *wanted),
            Ok(ask) => assert!(rt; false, "it asks for {ask:?}"),
        }
    }
    Ok(())
}

const UNSUBSCRIPTION: &str =
    "hub.mode=unsubscribe&hub.topic=http://p.example/x&hub.callback=http://s.example/c&hub.lease_seconds=abc&hub.secret=";

// Whether it asks for the end of the subscription of BASE.
fn is_plain_unsubscription(ask: &Ask) -> bool {
    match ask {
        Ask::Unsubscribe {
            topic,
            echo,
            callback,
        } => {
            is_text(topic, PLAIN.topic)
                && is_text(echo, PLAIN.echo)
                && is_text(callback, PLAIN.callback)
        }
        _ => false,
    }
}

#[test]
fn an_unsubscription_has_no_lease_and_no_secret(rt: HostRuntime) -> Result<(), Fail> {
    let alloc = rt.alloc();
    let mut body = String::from_str(alloc, UNSUBSCRIPTION)?;
    for _ in 0..200 {
        body.push('s')?;
    }
    let ask = read_ask(alloc, body.as_bytes(), false)?;
    assert!(rt; is_plain_unsubscription(&ask), "it asks for {ask:?}");
    Ok(())
}

// A publisher's form of so many topics, one name after the other, and one more pair.
fn publishing(alloc: Global, count: usize, last: &str) -> Result<String, Fail> {
    let mut body = format!(in alloc; "hub.mode=publish&hub.callback=x")?;
    for i in 0..count {
        let name = if i % 2 == 0 { "hub.url" } else { "hub.topic" };
        write!(body, "&{name}=http://p.example/{i}")?;
    }
    body.push_str(last)?;
    Ok(body)
}

#[test]
fn publications(rt: HostRuntime) -> Result<(), Fail> {
    let alloc = rt.alloc();
    for count in [1, 2, 16] {
        let body = publishing(alloc, count, "&hub.lease_seconds=x")?;
        let Ask::Publish { topics } = read_ask(alloc, body.as_bytes(), false)? else {
            assert!(rt; false, "{body} is no publication");
            return Ok(());
        };
        assert_eq!(rt; topics.as_slice().len(), count);
        for (i, topic) in topics.as_slice().iter().enumerate() {
            let wanted = format!(in alloc; "http://p.example/{i}")?;
            assert!(rt; is_text(topic, wanted.as_str()), "topic {i} of {body}");
        }
    }
    let rows = [
        (publishing(alloc, 17, "")?, AskFault::TooManyUrls),
        (publishing(alloc, 16, "&hub.url=x")?, AskFault::TooManyUrls),
        (
            publishing(alloc, 15, "&hub.url=x")?,
            AskFault::TopicBad(TargetFault::NotUrl),
        ),
    ];
    for (body, wanted) in &rows {
        match read_ask(alloc, body.as_bytes(), false) {
            Err(fault) => assert_eq!(rt; fault, *wanted, "{body}"),
            Ok(ask) => assert!(rt; false, "{body} asks for {ask:?}"),
        }
    }
    Ok(())
}

#[test]
fn texts_of_faults(rt: HostRuntime) -> Result<(), Fail> {
    let alloc = rt.alloc();
    let rows = [
        (AskFault::ModeMissing, "hub.mode missing"),
        (AskFault::ModeUnknown, "hub.mode unknown"),
        (AskFault::TopicMissing, "hub.topic missing"),
        (
            AskFault::TopicBad(TargetFault::TooLong { len: 2049 }),
            "hub.topic: too long",
        ),
        (
            AskFault::TopicBad(TargetFault::NotUrl),
            "hub.topic: not a URL",
        ),
        (
            AskFault::TopicBad(TargetFault::UserInfo),
            "hub.topic: user info",
        ),
        (AskFault::CallbackMissing, "hub.callback missing"),
        (
            AskFault::CallbackBad(TargetFault::SchemeNotServed),
            "hub.callback: scheme not served",
        ),
        (AskFault::LeaseBad, "hub.lease_seconds bad"),
        (AskFault::SecretLong, "hub.secret too long"),
        (AskFault::UrlMissing, "hub.url missing"),
        (AskFault::TooManyUrls, "too many topics"),
    ];
    for (fault, wanted) in rows {
        assert_eq!(rt; fault.text(), wanted);
        let shown = format!(in alloc; "{fault}")?;
        assert_eq!(rt; shown.as_str(), wanted);
    }
    Ok(())
}
