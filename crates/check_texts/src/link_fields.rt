// What is wanted here was worked out by hand from the grammar of RFC 8288, section 3, and the
// tokens and quoted strings of RFC 9110, sections 5.6.2 to 5.6.4.
use std::alloc::{AllocError, Global};
use std::test::Fail;
use ws_linkhdr::{LinkFault, read_links, rel_targets, write_links};
use ws_model::{Bytes, NoMemory, Pair};

// What a field says: a line with target, `|`, relation, `|` and perhaps `anchored` for each link;
// or where it leaves the grammar.
fn told(alloc: Global, field: &[u8]) -> Result<Vec<u8>, AllocError> {
    let mut text = Vec::new(alloc);
    match read_links(alloc, field) {
        Ok(items) => {
            for item in &items {
                text.extend_from_slice(item.target.as_slice())?;
                text.extend_from_slice(b"|")?;
                text.extend_from_slice(item.rel.as_slice())?;
                text.extend_from_slice(if item.anchored {
                    b"|anchored\n".as_slice()
                } else {
                    b"|\n".as_slice()
                })?;
            }
        }
        Err(LinkFault::Grammar { at }) => {
            text.extend_from_slice(format!(in alloc; "at {at}")?.as_bytes())?;
        }
        Err(LinkFault::NoMemory) => {
            text.extend_from_slice(b"no memory")?;
        }
    }
    Ok(text)
}

#[test]
fn fields_of_the_grammar(rt: HostRuntime) -> Result<(), Fail> {
    let fields = [
        ("", ""),
        (" \t ", ""),
        (" , ,\t", ""),
        ("<a>", "a||\n"),
        ("<>", "||\n"),
        ("<a>,<b>", "a||\nb||\n"),
        (",<a>, ,<b>,", "a||\nb||\n"),
        ("\t<a> \t; \trel \t= \t\"x\" \t, \t<b> \t;", "a|x|\nb||\n"),
        ("<a>;;; rel=x;", "a|x|\n"),
        ("<a>; REL=X; Anchor=\"#b\"", "a|X|anchored\n"),
        ("<a>; anchor, <b>; rel=y", "a||anchored\nb|y|\n"),
        ("<a>; rel; rel=x", "a||\n"),
        ("<a>; rel=\"\"; rel=x", "a||\n"),
        ("<a>; rel=\"a\\\"b\\\\c\\ d\"", "a|a\"b\\c d|\n"),
        ("<a>; rel=http://x.example/y:z", "a|http://x.example/y:z|\n"),
        ("<a>; title*=UTF-8''x%20y; rel=y; rel=z", "a|y|\n"),
        ("<a b\"c;,d<>; rel=\"x,y;z>\"", "a b\"c;,d<|x,y;z>|\n"),
        ("<a>; !#$%&'*+-.^_`|~09azAZ=x; rel=y", "a|y|\n"),
        ("<\u{e9}>; rel=\"\u{e9}\t\"", "\u{e9}|\u{e9}\t|\n"),
    ];
    for (field, want) in fields {
        assert_eq!(rt;
            told(rt.alloc(), field.as_bytes())?.as_slice(),
            want.as_bytes(),
            "{field}"
        );
    }
    Ok(())
}

#[test]
fn link_grammar_fault_place(rt: HostRuntime) -> Result<(), Fail> {
    let fields = [
        ("<a>; rel\x01", "at 8"),
        ("a", "at 0"),
        (" a", "at 1"),
        ("<a", "at 2"),
        ("<a\x7f>", "at 2"),
        ("<a\t>", "at 2"),
        ("<a>x", "at 3"),
        ("<a><b>", "at 3"),
        ("<a>, b", "at 5"),
        ("<a>; =x", "at 5"),
        ("<a>; \"x\"", "at 5"),
        ("<a>; rel x", "at 9"),
        ("<a>; rel=", "at 9"),
        ("<a>; rel=, <b>", "at 9"),
        ("<a>; rel=x@", "at 10"),
        ("<a>; rel=x=y", "at 10"),
        ("<a>; rel=x y", "at 11"),
        ("<a>; rel=\"x", "at 11"),
        ("<a>; rel=\"x\"y", "at 12"),
        ("<a>; rel=\"\x01\"", "at 10"),
        ("<a>; rel=\"\\\x01\"", "at 11"),
        ("<a>; rel=\"\\\u{e9}\"", "at 11"),
        ("<a>; rel=\"x\\", "at 12"),
    ];
    for (field, want) in fields {
        assert_eq!(rt;
            told(rt.alloc(), field.as_bytes())?.as_slice(),
            want.as_bytes(),
            "{field}"
        );
    }
    Ok(())
}

// The targets of a relation in a field, each on a line.
fn targets(alloc: Global, field: &[u8], rel: &[u8]) -> Result<Vec<u8>, LinkFault> {
    let items = read_links(alloc, field)?;
    let mut text = Vec::new(alloc);
    for target in &rel_targets(alloc, &items, rel)? {
        text.extend_from_slice(target.as_slice())
            .map_err(NoMemory::from)?;
        text.push(b'\n').map_err(NoMemory::from)?;
    }
    Ok(text)
}

#[test]
fn link_field_targets(rt: HostRuntime) -> Result<(), Fail> {
    let two = "<https://hub.example/>; rel=\"hub foo\", </feed>; rel=self; rel=hub";
    let wanted = [
        (two, "hub", "https://hub.example/\n"),
        (two, "self", "/feed\n"),
        (two, "FOO", "https://hub.example/\n"),
        (two, "hub foo", ""),
        (two, "", ""),
        (
            "<a>; rel=\" x  Hub \", <b>; rel=hub; anchor=\"#c\", <d>; rel=hub",
            "hub",
            "a\nd\n",
        ),
        ("<a>; rel=hubs, <b>", "hub", ""),
        ("<a>; rel=\"\"", "", ""),
    ];
    for (field, rel, want) in wanted {
        assert_eq!(rt;
            targets(rt.alloc(), field.as_bytes(), rel.as_bytes())?.as_slice(),
            want.as_bytes(),
            "{field} {rel}"
        );
    }
    Ok(())
}

fn pair(alloc: Global, name: &[u8], value: &[u8]) -> Result<Pair, NoMemory> {
    Ok(Pair {
        name: Bytes::copy(alloc, name)?,
        value: Bytes::copy(alloc, value)?,
    })
}

#[test]
fn links_written(rt: HostRuntime) -> Result<(), Fail> {
    let alloc = rt.alloc();
    let links = [
        pair(alloc, b"http://hub.example/", b"hub")?,
        pair(alloc, b"http://pub.example/x", b"self")?,
    ];
    let one = write_links(alloc, &links[..1])?;
    assert_eq!(rt;
        one.as_slice(),
        b"<http://hub.example/>; rel=\"hub\"".as_slice()
    );
    let both = write_links(alloc, &links)?;
    assert_eq!(rt;
        both.as_slice(),
        b"<http://hub.example/>; rel=\"hub\", <http://pub.example/x>; rel=\"self\"".as_slice()
    );
    assert!(rt; write_links(alloc, &[])?.as_slice().is_empty());
    Ok(())
}
