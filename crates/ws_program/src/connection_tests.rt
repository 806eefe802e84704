// Connections and revocations in scripts, through the whole program. Expected outputs are written by hand.
use crate::tests::{BASE, NO_OTHERS, played};
use std::alloc::Global;
use std::process::Abort;
use std::test::Fail;
use ws_link::Status;

const PLAIN: &str = "Content-Type: text/plain; charset=utf-8\r\n";

const HEAD: &str =
    "POST / HTTP/1.1\r\nHost: 127.0.0.1:8080\r\nUser-Agent: curl/8.5.0\r\nAccept: */*\r\nContent-Length: 108\r\nContent-Type: application/x-www-form-urlencoded\r\nExpect: 100-continue\r\n\r\n";

const CONTINUE: &str = "HTTP/1.1 100 Continue\r\n\r\n";

// The happening of a connection with these bytes.
fn connection(alloc: Global, bytes: &str) -> Result<String, Fail> {
    Ok(format!(in alloc; "in {}\n{bytes}\n", bytes.len())?)
}

// What is written for a connection to which these bytes were written.
fn written(alloc: Global, bytes: &str) -> Result<String, Fail> {
    Ok(format!(in alloc; "out {}\n{bytes}\n", bytes.len())?)
}

// The bytes of a final answer.
fn answer(alloc: Global, status: &str, more: &str, text: &str) -> Result<String, Fail> {
    Ok(format!(in alloc;
        "HTTP/1.1 {status}\r\n{more}{PLAIN}Content-Length: {}\r\nConnection: close\r\n\r\n{text}\n",
        text.len() + 1
    )?)
}

// A connection with these bytes, what was written to it, and the pending intents afterwards.
fn serves(
    rt: &impl Abort,
    alloc: Global,
    bytes: &str,
    out: &str,
    pending: u64,
) -> Result<(), Fail> {
    let script = format!(in alloc; "at 1000\n{}sum\nend\n", connection(alloc, bytes)?)?;
    let wanted = format!(in alloc; "{}pending {pending}\n{NO_OTHERS}", written(alloc, out)?)?;
    for pieces in [[].as_slice(), [1; 700].as_slice(), [7, 1, 3].as_slice()] {
        let (got, status) = played(alloc, "drive", &script, pieces, (&[], &[]))?;
        assert_eq!(rt; status, Status::Ok, "the status for {bytes}");
        assert_eq!(rt; got.as_slice(), wanted.as_bytes(), "the output for {bytes}");
    }
    Ok(())
}

#[test]
fn connections(rt: HostRuntime) -> Result<(), Fail> {
    let alloc = rt.alloc();
    let accepted = answer(alloc, "202 Accepted", "", "accepted")?;
    assert_eq!(rt; accepted.len(), 113);
    // curl-request-with-expect
    let whole = format!(in alloc; "{HEAD}{BASE}%3Fa%3Db")?;
    assert_eq!(rt; whole.len(), 278);
    let out = format!(in alloc; "{CONTINUE}{accepted}")?;
    assert_eq!(rt; out.len(), 138);
    serves(&rt, alloc, &whole, &out, 1)?;
    // nothing is looked at behind the message
    let more = format!(in alloc; "{whole}GET / HTTP/1.1\r\n")?;
    serves(&rt, alloc, &more, &out, 1)?;
    // empty-connection
    serves(&rt, alloc, "", "", 0)?;
    // connection-cut-after-head
    serves(&rt, alloc, HEAD, CONTINUE, 0)?;
    // and cut inside the head
    serves(&rt, alloc, "POST / HTTP/1.1\r\nHost: a\r\n", "", 0)
}

#[test]
fn refusals(rt: HostRuntime) -> Result<(), Fail> {
    let alloc = rt.alloc();
    let rows = [
        // http-request-refusals
        (
            "GET / HTTP/1.1\r\nHost: a\r\n\r\n",
            "405 Method Not Allowed",
            "Allow: POST\r\n",
            "post only",
        ),
        (
            "POST /other HTTP/1.1\r\nHost: a\r\nContent-Length: 0\r\n\r\n",
            "404 Not Found",
            "",
            "not found",
        ),
        (
            "GET /other HTTP/1.1\r\nHost: a\r\n\r\n",
            "404 Not Found",
            "",
            "not found",
        ),
        (
            "POST / HTTP/1.1\r\nHost: a\r\nContent-Type: application/json\r\nContent-Length: 2\r\n\r\n{}",
            "415 Unsupported Media Type",
            "",
            "form only",
        ),
        (
            "POST / HTTP/1.1\r\nHost: a\r\nContent-Length: 20000\r\n\r\n",
            "413 Content Too Large",
            "",
            "too large",
        ),
        (
            "POST / HTTP/1.1\r\nContent-Length: 0\r\n\r\n",
            "400 Bad Request",
            "",
            "bad request",
        ),
        // a form's fault
        (
            "POST / HTTP/1.1\r\nHost: a\r\nContent-Length: 13\r\n\r\nhub.mode=ping",
            "400 Bad Request",
            "",
            "hub.mode unknown",
        ),
    ];
    for (bytes, status, more, text) in rows {
        serves(&rt, alloc, bytes, &answer(alloc, status, more, text)?, 0)?;
    }
    Ok(())
}

#[test]
fn denials_and_revocations(rt: HostRuntime) -> Result<(), Fail> {
    let alloc = rt.alloc();
    let denied = format!(in alloc; "form 100\n{BASE}\nsum\nend\n")?;
    let others = NO_OTHERS.strip_prefix("notices 0\n").unwrap_or("");
    let denied_out = format!(in alloc; "answer 202 accepted\npending 0\nnotices 1\n{others}")?;
    let allowed_out = format!(in alloc; "answer 202 accepted\npending 1\n{NO_OTHERS}")?;
    let revoked = "revoke http://pub.example/x http://sub.example/cb\nend\n";
    let rows = [
        // disallowed-topic-denied
        (
            "drive --allow http://pub.example/news/",
            denied.as_str(),
            denied_out.as_str(),
            Status::Ok,
        ),
        (
            "drive --allow http://pub.example/news/ --allow http://pub.example/x",
            denied.as_str(),
            allowed_out.as_str(),
            Status::Ok,
        ),
        ("drive", revoked, "no lease\n", Status::Ok),
        (
            "drive",
            "revoke http://pub.example/x https://sub.example/cb\nend\n",
            "",
            Status::Script { line: 1 },
        ),
        (
            "drive --gateway g:1",
            "revoke http://pub.example/x https://sub.example/cb\nend\n",
            "no lease\n",
            Status::Ok,
        ),
        (
            "drive",
            "revoke http://pub.example/x\nend\n",
            "",
            Status::Script { line: 1 },
        ),
    ];
    for (line, script, wanted, status) in rows {
        let (got, ended) = played(alloc, line, script, &[], (&[], &[]))?;
        assert_eq!(rt; ended, status, "the status of {line} with {script}");
        assert_eq!(rt;
            got.as_slice(),
            wanted.as_bytes(),
            "the output of {line} with {script}"
        );
    }
    Ok(())
}

// So many forms that each subscribe another callback, and then an account.
fn subscriptions(alloc: Global, count: u64) -> Result<String, Fail> {
    let mut script = String::new(alloc);
    for i in 0..count {
        writeln!(script, "form {}\n{BASE}{i:05}", BASE.len() + 5)?;
    }
    script.push_str("sum\nend\n")?;
    Ok(script)
}

// pending-limit-full
#[test]
fn pending_intents_up_to_their_limit(rt: HostRuntime) -> Result<(), Fail> {
    let alloc = rt.alloc();
    let script = subscriptions(alloc, 65_537)?;
    let (got, status) = played(alloc, "drive", &script, &[], (&[], &[]))?;
    assert_eq!(rt; status, Status::Ok);
    let line = b"answer 202 accepted\n".as_slice();
    let mut rest = got.as_slice();
    for _ in 0..65_536 {
        rest = rest.strip_prefix(line).unwrap_or(b"");
    }
    let wanted = format!(in alloc;
        "answer 503 full: pending 65536 of 65536\npending 65536\n{NO_OTHERS}"
    )?;
    assert_eq!(rt; rest, wanted.as_bytes());
    Ok(())
}

// The happening of a form with this body.
fn form(alloc: Global, body: &str) -> Result<String, Fail> {
    Ok(format!(in alloc; "form {}\n{body}\n", body.len())?)
}

// A publication of so many topics.
fn publication(alloc: Global, topics: u64) -> Result<String, Fail> {
    let mut body = String::from_str(alloc, "hub.mode=publish")?;
    for _ in 0..topics {
        body.push_str("&hub.url=http://p.example/")?;
    }
    form(alloc, &body)
}

// form-faults-and-unleased-publish: of two topics the first counts, which alone is allowed here
#[test]
fn form_faults_and_unleased_publish(rt: HostRuntime) -> Result<(), Fail> {
    let alloc = rt.alloc();
    let twice = form(
        alloc,
        &format!(in alloc; "{BASE}&hub.topic=http://pub.example/y")?,
    )?;
    let missing = form(alloc, "hub.topic=http://pub.example/x")?;
    let unknown = form(alloc, "hub.mode=ping")?;
    let none = publication(alloc, 0)?;
    let many = publication(alloc, 17)?;
    let some = publication(alloc, 16)?;
    let script = format!(in alloc; "{twice}{missing}{unknown}{none}{many}{some}sum\nend\n")?;
    let wanted = format!(in alloc;
        "answer 202 accepted\nanswer 400 hub.mode missing\nanswer 400 hub.mode unknown\nanswer 400 hub.url missing\nanswer 400 too many topics\nanswer 202 accepted\npending 1\n{NO_OTHERS}"
    )?;
    let line = "drive --allow http://pub.example/x";
    let (got, status) = played(alloc, line, &script, &[], (&[], &[]))?;
    assert_eq!(rt; status, Status::Ok);
    assert_eq!(rt; got.as_slice(), wanted.as_bytes());
    Ok(())
}
