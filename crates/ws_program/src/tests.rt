// The first command over sources and sinks in memory. Expected outputs are written by hand.
use crate::command::run;
use std::alloc::Global;
use std::test::Fail;
use ws_link::{MemSink, MemSource, Sink, Status, WriteFailed};

pub(crate) const BASE: &str =
    "hub.mode=subscribe&hub.topic=http%3A%2F%2Fpub.example%2Fx&hub.callback=http%3A%2F%2Fsub.example%2Fcb";

pub(crate) const NO_OTHERS: &str =
    "notices 0\nleases 0\ntopics 0\nfetches 0\nowed 0\nanswered 0\nexpired 0\nunsubscribed 0\nreplaced 0\ngone 0\nspent 0\nrevoked 0\n";

fn words_of(alloc: Global, line: &str) -> Result<Vec<String>, Fail> {
    let mut words = Vec::new(alloc);
    for word in line.split_whitespace() {
        words.push(String::from_str(alloc, word)?)?;
    }
    Ok(words)
}

// The output and the status of a run over this script in these pieces, with these failing calls.
pub(crate) fn played(
    alloc: Global,
    line: &str,
    script: &str,
    pieces: &[u32],
    failing: (&[u64], &[u64]),
) -> Result<(Vec<u8>, Status), Fail> {
    let words = words_of(alloc, line)?;
    let mut source = MemSource::made(alloc, script.as_bytes(), pieces, failing.0)?;
    let mut sink = MemSink::made(alloc, 2_000_000, failing.1)?;
    let status = run(alloc, &words, &mut source, &mut sink);
    Ok((sink.written().to_vec(alloc)?, status))
}

#[test]
fn the_first_examples(rt: HostRuntime) -> Result<(), Fail> {
    let alloc = rt.alloc();
    let accepted = format!(in alloc; "at 1000\nform 100\n{BASE}\nsum\nend\n")?;
    let accepted_out = format!(in alloc; "answer 202 accepted\npending 1\n{NO_OTHERS}")?;
    let twice = format!(in alloc; "form 100\n{BASE}\nform 100\n{BASE}\nsum\nend\nsum\n")?;
    let twice_out = format!(in alloc;
        "answer 202 accepted\nanswer 202 accepted\npending 2\n{NO_OTHERS}"
    )?;
    let rows = [
        // empty-script
        ("drive", "", "", Status::Script { line: 1 }),
        // subscription-accepted
        (
            "drive",
            accepted.as_str(),
            accepted_out.as_str(),
            Status::Ok,
        ),
        // nothing behind `end` is played
        ("drive", twice.as_str(), twice_out.as_str(), Status::Ok),
        // cut-happening-is-script-fault
        (
            "drive",
            "form 10\n123456789",
            "",
            Status::Script { line: 1 },
        ),
        ("drive", "form 3\nabcd\n", "", Status::Script { line: 1 }),
        // topic-missing-before-callback
        (
            "drive",
            "form 26\nhub.mode=unsubscribe&a=b&c\nend\n",
            "answer 400 hub.topic missing\n",
            Status::Ok,
        ),
        (
            "drive",
            "form 0\n\nend\n",
            "answer 400 hub.mode missing\n",
            Status::Ok,
        ),
        // lines outside the grammar
        (
            "drive",
            "at 0\nat 01\nend\n",
            "",
            Status::Script { line: 2 },
        ),
        ("drive", "at 281474976710655\nend\n", "", Status::Ok),
        (
            "drive",
            "at 281474976710656\nend\n",
            "",
            Status::Script { line: 1 },
        ),
        ("drive", "at +1\nend\n", "", Status::Script { line: 1 }),
        ("drive", "at  1\nend\n", "", Status::Script { line: 1 }),
        ("drive", "form 16385\n", "", Status::Script { line: 1 }),
        ("drive", "sum \nend\n", "", Status::Script { line: 1 }),
        ("drive", "end", "", Status::Script { line: 1 }),
        // drive-with-unknown-word
        ("drive now", "", "", Status::Words { place: 2 }),
        ("now drive", "", "", Status::Words { place: 1 }),
        ("", "", "", Status::Words { place: 1 }),
    ];
    for (line, script, wanted, status) in rows {
        for pieces in [[].as_slice(), [1; 300].as_slice(), [7, 1, 3].as_slice()] {
            let (written, ended) = played(alloc, line, script, pieces, (&[], &[]))?;
            assert_eq!(rt; ended, status, "the status of {script}");
            assert_eq!(rt;
                written.as_slice(),
                wanted.as_bytes(),
                "the output of {script}"
            );
        }
    }
    Ok(())
}

const HTTPS: &str =
    "hub.mode=subscribe&hub.topic=http%3A%2F%2Fpub.example%2Fx&hub.callback=https%3A%2F%2Fsub.example%2Fcb";

#[test]
fn forms_with_and_without_settings(rt: HostRuntime) -> Result<(), Fail> {
    let alloc = rt.alloc();
    let https = format!(in alloc; "form 101\n{HTTPS}\nsum\nend\n")?;
    let none = format!(in alloc;
        "answer 400 hub.callback: scheme not served\npending 0\n{NO_OTHERS}"
    )?;
    let one = format!(in alloc; "answer 202 accepted\npending 1\n{NO_OTHERS}")?;
    let lease = format!(in alloc; "form 120\n{BASE}&hub.lease_seconds=0\nend\n")?;
    let off = format!(in alloc;
        "form 124\nhub.mode=un{}&hub.lease_seconds=abc\nsum\nend\n",
        BASE.strip_prefix("hub.mode=").unwrap_or("")
    )?;
    let publish = format!(in alloc;
        "form 45\nhub.mode=publish&hub.url=http://pub.example/x\nsum\nend\n"
    )?;
    let published = format!(in alloc; "answer 202 accepted\npending 0\n{NO_OTHERS}")?;
    let rows = [
        // https-callback-needs-gateway
        ("drive", https.as_str(), none.as_str()),
        (
            "drive --gateway 127.0.0.1:8080",
            https.as_str(),
            one.as_str(),
        ),
        (
            "drive --allow http://pub.example/ --hub https://hub.example/ --alg sha512 --gateway g:1 --allow x",
            https.as_str(),
            one.as_str(),
        ),
        // lease-clamped-to-bounds
        (
            "drive",
            lease.as_str(),
            "answer 400 hub.lease_seconds bad\n",
        ),
        ("drive", off.as_str(), one.as_str()),
        // form-faults-and-unleased-publish
        ("drive", publish.as_str(), published.as_str()),
        (
            "drive",
            "form 13\nhub.mode=ping\nform 16\nhub.mode=publish\nend\n",
            "answer 400 hub.mode unknown\nanswer 400 hub.url missing\n",
        ),
    ];
    for (line, script, wanted) in rows {
        let (written, ended) = played(alloc, line, script, &[], (&[], &[]))?;
        assert_eq!(rt; ended, Status::Ok, "the status of {line} with {script}");
        assert_eq!(rt;
            written.as_slice(),
            wanted.as_bytes(),
            "the output of {line} with {script}"
        );
    }
    Ok(())
}

// Command lines and the place of their fault, 0 where they have none.
const LINES: [(&str, u64); 41] = [
    ("", 1),
    ("now drive", 1),
    ("driver", 1),
    // drive-with-unknown-word
    ("drive now", 2),
    ("drive", 0),
    // setting-without-value
    ("drive --gateway 127.0.0.1", 3),
    ("drive --hub", 3),
    ("drive --allow", 3),
    ("drive --alg sha1 --hub", 5),
    ("drive --alg sha1 --alg", 4),
    // unknown-algorithm-word
    ("drive --alg md5", 3),
    ("drive --alg SHA1", 3),
    ("drive --alg sha1", 0),
    ("drive --alg sha256", 0),
    ("drive --alg sha384", 0),
    ("drive --alg sha512", 0),
    ("drive --alg sha1 --alg sha1", 4),
    ("drive --alg sha1 drive", 4),
    ("drive --hub http://hub.example/", 0),
    ("drive --hub https://hub.example/", 0),
    ("drive --hub hub.example", 3),
    ("drive --hub ftp://hub.example/", 3),
    ("drive --hub http://u@hub.example/", 3),
    (
        "drive --hub http://hub.example/ --hub http://hub.example/",
        4,
    ),
    ("drive --gateway proxy:1", 0),
    ("drive --gateway proxy:65535", 0),
    ("drive --gateway proxy:65536", 3),
    ("drive --gateway proxy:100000000000000000000", 3),
    ("drive --gateway proxy:0", 3),
    ("drive --gateway proxy:080", 3),
    ("drive --gateway proxy:+80", 3),
    ("drive --gateway proxy:", 3),
    ("drive --gateway proxy", 3),
    ("drive --gateway :80", 3),
    ("drive --gateway [::1]:80", 3),
    ("drive --gateway pro\u{1}xy:80", 3),
    ("drive --gateway pro\u{7f}xy:80", 3),
    ("drive --gateway prôxy:80", 0),
    ("drive --gateway a:1 --gateway b:2", 4),
    ("drive --allow x --gateway a:1 --allow x --now", 8),
    ("drive --alg sha1 --allow x --gateway a:1 --hub now", 9),
];

#[test]
fn setting_without_value(rt: HostRuntime) -> Result<(), Fail> {
    let alloc = rt.alloc();
    for (line, place) in LINES {
        let (written, ended) = played(alloc, line, "end\n", &[], (&[], &[]))?;
        let wanted = if place == 0 {
            Status::Ok
        } else {
            Status::Words { place }
        };
        assert_eq!(rt; ended, wanted, "{line}");
        assert_eq!(rt; written.len(), 0);
    }
    Ok(())
}

// A command line with a setting and a value of so many letters, and then so many more prefixes.
fn line_of(
    alloc: Global,
    setting: &str,
    letters: usize,
    behind: &str,
    more: usize,
) -> Result<String, Fail> {
    let mut line = format!(in alloc; "drive {setting} ")?;
    for _ in 0..letters {
        line.push('a')?;
    }
    line.push_str(behind)?;
    for i in 0..more {
        write!(line, " --allow {i}")?;
    }
    Ok(line)
}

#[test]
fn bounds_of_settings(rt: HostRuntime) -> Result<(), Fail> {
    let alloc = rt.alloc();
    let rows = [
        (line_of(alloc, "--gateway", 255, ":1", 16)?, Status::Ok),
        (
            line_of(alloc, "--gateway", 256, ":1", 16)?,
            Status::Words { place: 3 },
        ),
        (line_of(alloc, "--allow", 2048, "", 15)?, Status::Ok),
        (
            line_of(alloc, "--allow", 2049, "", 15)?,
            Status::Words { place: 3 },
        ),
        (
            line_of(alloc, "--allow", 1, "", 16)?,
            Status::Words { place: 34 },
        ),
        (line_of(alloc, "--alg sha1 --allow", 1, "", 15)?, Status::Ok),
    ];
    for (line, wanted) in &rows {
        let (_, ended) = played(alloc, line.as_str(), "end\n", &[], (&[], &[]))?;
        assert_eq!(rt; ended, *wanted, "{line}");
    }
    Ok(())
}

#[test]
fn a_long_line_leaves_the_grammar(rt: HostRuntime) -> Result<(), Fail> {
    let alloc = rt.alloc();
    let mut script = String::new(alloc);
    for _ in 0..4097 {
        script.push('1')?;
    }
    script.push_str("\nend\n")?;
    let (written, status) = played(alloc, "drive", script.as_str(), &[], (&[], &[]))?;
    assert_eq!(rt; status, Status::Script { line: 1 });
    assert_eq!(rt; written.len(), 0);
    Ok(())
}

#[test]
fn a_source_fails_in_mid_form(rt: HostRuntime) -> Result<(), Fail> {
    let alloc = rt.alloc();
    let script = format!(in alloc; "form 0\n\nform 100\n{BASE}\nsum\nend\n")?;
    // The first form takes 8 bytes, a byte a call but for none of its body; the second line 9.
    let (written, status) = played(alloc, "drive", script.as_str(), &[], (&[17], &[]))?;
    assert_eq!(rt; status, Status::ReadFailed);
    assert_eq!(rt;
        written.as_slice(),
        b"answer 400 hub.mode missing\n".as_slice()
    );
    Ok(())
}

// A sink that takes at most three bytes at each call, and fails at its sixth.
#[derive(Drop)]
struct SlowSink {
    written: Vec<u8>,
    calls: u64,
    faults: u64,
}

impl Sink for SlowSink {
    ghost use Rattle.std.specs.Prelude.{None};

    ghost written = { λ _. None };

    ghost faults = { λ s. s.faults };

    fn give(&mut self, bytes: &[u8]) -> Result<usize, WriteFailed> {
        let part = &bytes[..bytes.len().min(3)];
        self.calls = self.calls.saturating_add(1);
        if self.calls > 5 || self.written.extend_from_slice(part).is_err() {
            self.faults = self.faults.saturating_add(1);
            return Err(WriteFailed);
        }
        Ok(part.len())
    }
}

#[test]
fn a_sink_fails_in_mid_answer(rt: HostRuntime) -> Result<(), Fail> {
    let alloc = rt.alloc();
    let (written, status) = played(alloc, "drive", "form 0\n\nsum\nend\n", &[], (&[], &[1]))?;
    assert_eq!(rt; status, Status::WriteFailed);
    assert_eq!(rt;
        written.as_slice(),
        b"answer 400 hub.mode missing\n".as_slice()
    );
    let mut source = MemSource::made(alloc, b"form 0\n\nend\n", &[], &[])?;
    let mut small = MemSink::made(alloc, 10, &[])?;
    let words = words_of(alloc, "drive")?;
    assert_eq!(rt;
        run(alloc, &words, &mut source, &mut small),
        Status::WriteFailed
    );
    assert_eq!(rt; small.written().len(), 0);
    let mut source = MemSource::made(alloc, b"form 0\n\nend\n", &[], &[])?;
    let mut slow = SlowSink {
        written: Vec::new(alloc),
        calls: 0,
        faults: 0,
    };
    assert_eq!(rt;
        run(alloc, &words, &mut source, &mut slow),
        Status::WriteFailed
    );
    assert_eq!(rt; slow.written.as_slice(), b"answer 400 hub.".as_slice());
    Ok(())
}
