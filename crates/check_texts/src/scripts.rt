// Scripts in memory. What each one has is worked out by hand from the grammar, and the keys from the URL
// Standard.
use std::alloc::Global;
use std::process::Abort;
use std::test::Fail;
use ws_link::MemSource;
use ws_script::*;

// A happening as a line: its kind, and its number, its bytes or the texts and keys of its words.
fn shown(alloc: Global, happening: &Happening) -> Result<Vec<u8>, Fail> {
    let mut line = Vec::new(alloc);
    match happening {
        Happening::At(t) => line.extend_from_slice(format!(in alloc; "at {t}")?.as_bytes())?,
        Happening::Form(body) => {
            line.extend_from_slice(b"form ")?;
            line.extend_from_slice(body.as_slice())?;
        }
        Happening::In(bytes) => {
            line.extend_from_slice(b"in ")?;
            line.extend_from_slice(bytes.as_slice())?;
        }
        Happening::Revoke { topic, callback } => {
            line.extend_from_slice(b"revoke")?;
            for part in [&topic.text, &topic.key, &callback.text, &callback.key] {
                line.push(b' ')?;
                line.extend_from_slice(part.as_slice())?;
            }
        }
        Happening::Sum => line.extend_from_slice(b"sum")?,
        Happening::End => line.extend_from_slice(b"end")?,
    }
    line.push(b';')?;
    Ok(line)
}

// The happenings that a source has, up to where it leaves the grammar.
fn all_shown(alloc: Global, source: &mut MemSource, gateway: bool) -> Result<Vec<u8>, Fail> {
    let mut lines = Vec::new(alloc);
    for _ in 0..100 {
        let Some(happening) = take_happening(alloc, source, gateway)? else {
            return Ok(lines);
        };
        lines.extend_from_slice(&shown(alloc, &happening)?)?;
    }
    Ok(lines)
}

// Compares the happenings of a script, given at once and byte by byte, with those that are wanted.
fn check_script(
    rt: &impl Abort,
    alloc: Global,
    script: &[u8],
    gateway: bool,
    want: &[u8],
) -> Result<(), Fail> {
    let pieces = vec![in alloc; 1; script.len().min(9_000)]?;
    let mut whole = MemSource::made(alloc, script, &[], &[])?;
    let mut cut = MemSource::made(alloc, script, &pieces, &[])?;
    assert!(rt; all_shown(alloc, &mut whole, gateway)?.as_slice() == want);
    assert!(rt; all_shown(alloc, &mut cut, gateway)?.as_slice() == want);
    Ok(())
}

#[test]
fn numbers_and_lines(rt: HostRuntime) -> Result<(), Fail> {
    let table = [
        ("", ""),
        ("at 0\nsum\nend\n", "at 0;sum;end;"),
        ("at 10\n", "at 10;"),
        // 2^48 - 1 and 2^48
        ("at 281474976710655\n", "at 281474976710655;"),
        ("at 281474976710656\n", ""),
        ("at 18446744073709551617\n", ""),
        ("at 00\n", ""),
        ("at 01\n", ""),
        ("at +1\n", ""),
        ("at -1\n", ""),
        ("at 1a\n", ""),
        ("at \n", ""),
        ("at\n", ""),
        ("at 1 \n", ""),
        ("at  1\n", ""),
        (" at 1\n", ""),
        ("At 1\n", ""),
        ("at 1\r\n", ""),
        // without a line feed
        ("at 1", ""),
        ("sum\nend", "sum;"),
        ("sum \n", ""),
        ("sums\n", ""),
        ("\n", ""),
        ("sum\n\nsum\n", "sum;"),
        ("sum\nnext\nsum\n", "sum;"),
    ];
    for (script, want) in table {
        check_script(&rt, rt.alloc(), script.as_bytes(), true, want.as_bytes())?;
    }
    Ok(())
}

#[test]
fn bodies(rt: HostRuntime) -> Result<(), Fail> {
    let table = [
        ("form 3\na=b\nend\n", "form a=b;end;"),
        ("form 0\n\nend\n", "form ;end;"),
        ("in 0\n\nend\n", "in ;end;"),
        ("in 3\na\nb\nend\n", "in a\nb;end;"),
        ("in 3\nin \nsum\n", "in in ;sum;"),
        // a body that is too long, too short, without its line feed, and cut off
        ("form 2\na=b\nend\n", ""),
        ("form 4\na=b\nend\n", ""),
        ("form 3\na=bend\n", ""),
        ("form 3\na=b", ""),
        ("in 3\na=", ""),
        ("in 3", ""),
        ("form 03\na=b\n", ""),
        ("in 03\na=b\n", ""),
        ("in\n\n", ""),
        ("in 3 \na=b\n", ""),
    ];
    for (script, want) in table {
        check_script(&rt, rt.alloc(), script.as_bytes(), false, want.as_bytes())?;
    }
    Ok(())
}

// A line, so many bytes `x`, and a line feed.
fn with_body(alloc: Global, line: &str, size: usize) -> Result<Vec<u8>, Fail> {
    let mut script = line.as_bytes().to_vec(alloc)?;
    script.extend_from_slice(&vec![in alloc; b'x'; size]?)?;
    script.push(b'\n')?;
    Ok(script)
}

fn has_body(happening: &Happening, size: usize) -> bool {
    match happening {
        Happening::Form(body) | Happening::In(body) => body.as_slice().len() == size,
        _ => false,
    }
}

fn check_body(
    rt: &impl Abort,
    alloc: Global,
    line: &str,
    size: usize,
    is_taken: bool,
) -> Result<(), Fail> {
    let script = with_body(alloc, line, size)?;
    let mut source = MemSource::made(alloc, &script, &[], &[])?;
    let read = take_happening(alloc, &mut source, false)?;
    let taken = match &read {
        Some(happening) => has_body(happening, size),
        None => false,
    };
    assert!(rt; taken == is_taken, "{line}");
    Ok(())
}

#[test]
fn sizes_of_bodies(rt: HostRuntime) -> Result<(), Fail> {
    let table = [
        ("form 16384\n", 16_384, true),
        ("form 16385\n", 16_385, false),
        ("form 16384\n", 16_383, false),
        ("form 16384\n", 16_385, false),
        ("in 16385\n", 16_385, true),
        ("in 16777216\n", 16_777_216, true),
        ("in 16777217\n", 16_777_217, false),
        ("in 16777216\n", 16_777_215, false),
        ("in 16777216\n", 16_777_217, false),
        ("in 16777216\n", 10, false),
    ];
    for (line, size, is_taken) in table {
        check_body(&rt, rt.alloc(), line, size, is_taken)?;
    }
    Ok(())
}

#[test]
fn words_of_a_revocation(rt: HostRuntime) -> Result<(), Fail> {
    let table = [
        (
            "revoke http://pub.example/x http://sub.example/cb\nend\n",
            "revoke http://pub.example/x http://pub.example/x http://sub.example/cb http://sub.example/cb;end;",
        ),
        (
            "revoke HTTP://PUB.Example:80/X http://sub.example/cb#part\n",
            "revoke HTTP://PUB.Example:80/X http://pub.example/X http://sub.example/cb#part http://sub.example/cb;",
        ),
        ("revoke http://pub.example/x\n", ""),
        ("revoke http://pub.example/x \n", ""),
        ("revoke  http://sub.example/cb\n", ""),
        ("revoke  http://pub.example/x http://sub.example/cb\n", ""),
        ("revoke http://pub.example/x  http://sub.example/cb\n", ""),
        ("revoke http://pub.example/x http://sub.example/cb \n", ""),
        ("revoke http://pub.example/x http://sub.example/c b\n", ""),
        ("revoke http://pub.example/x\thttp://sub.example/cb\n", ""),
        ("revoke http://pub.example/x http://sub.example/cb", ""),
        ("revoke x http://sub.example/cb\n", ""),
        ("revoke http://pub.example/x cb\n", ""),
        ("revoke ftp://pub.example/x http://sub.example/cb\n", ""),
        ("revoke http://pub.example/x http://u@sub.example/cb\n", ""),
        ("revoke\n", ""),
        ("revoke \n", ""),
        ("revoke  \n", ""),
        ("Revoke http://pub.example/x http://sub.example/cb\n", ""),
    ];
    for (script, want) in table {
        check_script(&rt, rt.alloc(), script.as_bytes(), true, want.as_bytes())?;
    }
    let not_text = b"revoke http://pub.example/\xff http://sub.example/cb\n";
    check_script(&rt, rt.alloc(), not_text, true, b"")
}

#[test]
fn https_in_words_needs_the_gateway(rt: HostRuntime) -> Result<(), Fail> {
    let table = [
        (
            "revoke https://pub.example/ http://sub.example/\n",
            "revoke https://pub.example/ https://pub.example/ http://sub.example/ http://sub.example/;",
        ),
        (
            "revoke http://pub.example/ https://sub.example/\n",
            "revoke http://pub.example/ http://pub.example/ https://sub.example/ https://sub.example/;",
        ),
    ];
    for (script, want) in table {
        check_script(&rt, rt.alloc(), script.as_bytes(), true, want.as_bytes())?;
        check_script(&rt, rt.alloc(), script.as_bytes(), false, b"")?;
    }
    Ok(())
}

// A word of so many bytes: the 19 of the front, and then `x`.
fn push_word(script: &mut Vec<u8>, front: &str, size: usize) -> Result<(), Fail> {
    script.extend_from_slice(front.as_bytes())?;
    for _ in front.len()..size {
        script.push(b'x')?;
    }
    Ok(())
}

fn has_words(happening: &Happening, topic_size: usize, callback_size: usize) -> bool {
    match happening {
        Happening::Revoke { topic, callback } => {
            topic.text.as_slice().len() == topic_size
                && callback.text.as_slice().len() == callback_size
        }
        _ => false,
    }
}

fn check_words(
    rt: &impl Abort,
    alloc: Global,
    topic_size: usize,
    callback_size: usize,
    is_taken: bool,
) -> Result<(), Fail> {
    let mut script = b"revoke ".to_vec(alloc)?;
    push_word(&mut script, "http://pub.example/", topic_size)?;
    script.push(b' ')?;
    push_word(&mut script, "http://sub.example/", callback_size)?;
    script.push(b'\n')?;
    let mut source = MemSource::made(alloc, &script, &[], &[])?;
    let read = take_happening(alloc, &mut source, false)?;
    let taken = match &read {
        Some(happening) => has_words(happening, topic_size, callback_size),
        None => false,
    };
    assert!(rt; taken == is_taken, "{topic_size} {callback_size}");
    Ok(())
}

// `revoke`, two spaces and two words of together 4,088 bytes make a line of 4,096.
#[test]
fn lengths_of_lines(rt: HostRuntime) -> Result<(), Fail> {
    let table = [
        (2_044, 2_044, true),
        (2_044, 2_045, false),
        (2_045, 2_044, false),
        (2_048, 2_040, true),
        (2_040, 2_048, true),
        (2_048, 2_041, false),
        (2_049, 2_039, false),
        (2_039, 2_049, false),
        (2_048, 2_048, false),
    ];
    for (topic_size, callback_size, is_taken) in table {
        check_words(&rt, rt.alloc(), topic_size, callback_size, is_taken)?;
    }
    let long = with_body(rt.alloc(), "", 4_097)?;
    check_script(&rt, rt.alloc(), &long, false, b"")
}

// The source fails at each call in turn, up to the last one that reads the script.
#[test]
fn failing_sources(rt: HostRuntime) -> Result<(), Fail> {
    let alloc = rt.alloc();
    let table = [
        ("at 1\n", 5),
        ("form 2\nab\n", 9),
        ("in 2\nab\n", 7),
        ("revoke http://p.example/ http://s.example/\n", 43),
    ];
    for (script, calls) in table {
        for call in 0..calls {
            let mut source = MemSource::made(alloc, script.as_bytes(), &[], &[call])?;
            let read = take_happening(alloc, &mut source, false);
            assert!(rt; matches!(read, Err(ReadFault::Failed)), "{script} {call}");
        }
        let mut source = MemSource::made(alloc, script.as_bytes(), &[], &[calls])?;
        let read = take_happening(alloc, &mut source, false)?;
        assert!(rt; read.is_some(), "{script}");
    }
    Ok(())
}
