// What requests make of tables of nothing, worked out by hand.
use std::alloc::Global;
use std::test::Fail;
use ws_answer::{CoreFault, judge, revocation};
use ws_core_tables::Tables;
use ws_form::Ask;
use ws_model::{Alg, Bytes, Keys, Mode, NoMemory, Policy, What};

fn bytes(alloc: Global, text: &str) -> Result<Bytes, NoMemory> {
    Bytes::copy(alloc, text.as_bytes())
}

// A policy that allows topics with one prefix, or all topics where it is empty.
fn policy(alloc: Global, prefix: &str) -> Result<Policy, NoMemory> {
    let mut allow = Keys::empty(alloc);
    if !prefix.is_empty() {
        allow.push(bytes(alloc, prefix)?)?;
    }
    Ok(Policy {
        hub: bytes(alloc, "http://127.0.0.1:8080/")?,
        gateway: false,
        allow,
        alg: Alg::Sha256,
    })
}

fn subscription(alloc: Global) -> Result<Ask, NoMemory> {
    Ok(Ask::Subscribe {
        topic: bytes(alloc, "http://pub.example/x")?,
        echo: bytes(alloc, "http://pub.example/x")?,
        callback: bytes(alloc, "http://sub.example/cb")?,
        secret: bytes(alloc, "Jefe")?,
        granted: 864_000,
    })
}

// How a request is answered: how many events it makes, with the first one's number and the last one's
// kind.
fn told(alloc: Global, ask: &Ask, prefix: &str) -> Result<(usize, u64, bool), CoreFault> {
    let tables = Tables::empty(alloc);
    let events = judge(alloc, &tables, 1000, ask, &policy(alloc, prefix)?)?;
    let number = match events.first() {
        Some(What::Asked(intent)) if intent.mode == Mode::On => intent.n,
        _ => 0,
    };
    let is_barred = matches!(events.last(), Some(What::Barred { .. }));
    Ok((events.len(), number, is_barred))
}

// Whether a revocation ends anything.
fn is_revoked(alloc: Global) -> Result<bool, NoMemory> {
    let topic = bytes(alloc, "http://pub.example/x")?;
    let callback = bytes(alloc, "http://sub.example/cb")?;
    let event = revocation(alloc, &Tables::empty(alloc), 1000, &topic, &callback)?;
    Ok(event.is_some())
}

#[test]
fn requests_of_nothing(rt: HostRuntime) -> Result<(), Fail> {
    let alloc = rt.alloc();
    let ask = subscription(alloc)?;
    assert_eq!(rt; told(alloc, &ask, ""), Ok((1, 1, false)));
    assert_eq!(rt; told(alloc, &ask, "http://pub.example/"), Ok((1, 1, false)));
    assert_eq!(rt;
        told(alloc, &ask, "http://other.example/"),
        Ok((2, 1, true))
    );
    let mut topics = Keys::empty(alloc);
    topics.push(bytes(alloc, "http://pub.example/x")?)?;
    let ping = Ask::Publish { topics };
    assert_eq!(rt; told(alloc, &ping, ""), Ok((0, 0, false)));
    assert_eq!(rt; is_revoked(alloc), Ok(false));
    Ok(())
}
