// Own links, worked out by hand from RFC 8288, section 3, and the URL Standard, section 4.4.
use std::alloc::{AllocError, Global};
use std::test::Fail;
use ws_model::Bytes;
use ws_ownlink::own_link;

// The own link of a content of the topic.
fn told(alloc: Global, field: &str) -> Result<Vec<u8>, AllocError> {
    let topic = Bytes::from_vec(b"http://pub.example/x".to_vec(alloc)?);
    match own_link(alloc, &topic, field.as_bytes()) {
        Ok(link) => Ok(link.into_vec()),
        Err(_) => b"no memory".to_vec(alloc),
    }
}

#[test]
fn own_links_of_fields(rt: HostRuntime) -> Result<(), Fail> {
    let topic = "http://pub.example/x";
    let fields = [
        (
            "<https://hub.example/>; rel=\"hub foo\", </feed>; rel=self; rel=hub",
            "http://pub.example/feed",
        ),
        (
            "<?page=2#top>; rel=\"SELF first\"",
            "http://pub.example/x?page=2",
        ),
        (
            "<https://other.example/feed>; rel=self",
            "https://other.example/feed",
        ),
        ("<>; rel=self", topic),
        ("", topic),
        ("</feed>; rel=hub", topic),
        ("</a>; rel=self, </b>; rel=self", topic),
        ("</a>; rel=self; anchor=\"/b\"", topic),
        (
            "</a>; rel=self, </b>; rel=self; anchor=\"/b\"",
            "http://pub.example/a",
        ),
        ("</a; rel=self", topic),
        ("<http://[>; rel=self", topic),
        ("<mailto:a%3Eb>; rel=self", "mailto:a%3Eb"),
    ];
    for (field, wanted) in fields {
        assert_eq!(rt;
            told(rt.alloc(), field)?.as_slice(),
            wanted.as_bytes(),
            "{field}"
        );
    }
    Ok(())
}
