// What the outcome of a fetch makes (own).
ghost use Rattle.std.specs.Prelude.{◌≡◌, ◌≤◌, ◌<◌, ◌^◌, ℕ, List, IfOk};
ghost use Rattle.std.specs.Option.{option_copied};
ghost use Rattle.ws_model.specs.declared.event.Event.{Event};
ghost use Rattle.ws_model.specs.declared.event.Version.{Version};
ghost use Rattle.ws_model.specs.declared.event.What.TheVariants.{Same, Unfetched};
ghost use Rattle.ws_model.specs.Legal.{Legal};
ghost use Rattle.ws_model.specs.Verdict.{fetch_verdict, is_coded, is_same, new_version, reply_verdict, version_verdict};
ghost use Rattle.ws_model.specs.Versions.{latest_of};
ghost use Rattle.ws_ownlink.specs.OwnLink.{IsOwnLink};
ghost use Rattle.ws_core_tables.specs.Stands.{StandsFor};
ghost use Rattle.ws_verdict.specs.Settles.{IsReplyLink, content};

use crate::limits::passes_limits;
use crate::outcomes::miss_number;
use std::alloc::Global;
use ws_core_tables::Tables;
use ws_model::{Bytes, Key, NoMemory, Outcome, Reply, Version, What};
use ws_ownlink::own_link;

/// The greatest number of a version.
const LAST_NUMBER: u64 = 9_223_372_036_854_775_807;

/// The number of a fetch that is missed since its content is coded.
const CODED: u16 = 4;

/// The number of a fetch that is missed since its content passes a limit.
const FULL: u16 = 5;

/// Whether the content is coded: by a Content-Encoding other than `identity`, compared without case.
fn is_coded(reply: &Reply) -> bool
    ensures { result ≡ is_coded reply.now }
{
    let coding = reply.coding.as_slice();
    !coding.is_empty() && !coding.eq_ignore_ascii_case(b"identity")
}

/// Whether the version has the body and the type of the reply.
fn is_same(reply: &Reply, latest: Option<&Version>) -> bool
    ensures { result ≡ is_same reply.now (option_copied latest.entry) }
{
    match latest {
        Some(version) => version.body == reply.body && version.media == reply.media,
        None => false,
    }
}

/// A fetch that gave no version.
fn unfetched(alloc: Global, topic: &Key, upto: u64, why: u16) -> Result<What, NoMemory>
    ensures { IfOk result (λ w. w ≡ Unfetched topic.now upto why) }
{
    let topic = Bytes::copy(alloc, topic.as_slice())?;
    Ok(What::Unfetched { topic, upto, why })
}

/// A fetch that gave the latest version again.
fn same(alloc: Global, topic: &Key, upto: u64) -> Result<What, NoMemory>
    ensures { IfOk result (λ w. w ≡ Same topic.now upto) }
{
    let topic = Bytes::copy(alloc, topic.as_slice())?;
    Ok(What::Same { topic, upto })
}

/// The content of a reply as a version of the topic.
fn content(
    alloc: Global,
    ver: u64,
    topic: &Key,
    upto: u64,
    own_link: Bytes,
    reply: &Reply,
) -> Result<Version, NoMemory>
    ensures { IfOk result (λ v. v ≡ content ver topic.now upto own_link reply.now) }
{
    Ok(Version {
        ver,
        topic: Bytes::copy(alloc, topic.as_slice())?,
        upto,
        media: Bytes::copy(alloc, reply.media.as_slice())?,
        own_link,
        body: Bytes::copy(alloc, reply.body.as_slice())?,
    })
}

/// A new version of the topic, but where it would pass a limit, or no number is left.
fn version(
    alloc: Global,
    tables: &Tables,
    t: u64,
    topic: &Key,
    upto: u64,
    reply: &Reply,
) -> Result<What, NoMemory>
    requires in_time { t < 2 ^ 48 }
    ensures stands { (h : List Event) (since : ℕ) (link : List ℕ) → StandsFor h since tables.now → Legal h → since ≤ t → IsOwnLink topic.now reply.now.links link →
        IfOk result (λ w. w ≡ version_verdict h t (new_version h topic.now upto link reply.now)) }
{
    let last = tables.version_number();
    if last >= LAST_NUMBER {
        return unfetched(alloc, topic, upto, FULL);
    }
    let bytes = reply.body.as_slice().len() as u64;
    if passes_limits(tables, t, topic.as_slice(), bytes)? {
        return unfetched(alloc, topic, upto, FULL);
    }
    let link = own_link(alloc, topic, reply.links.as_slice())?;
    Ok(What::Fetched(content(alloc, last + 1, topic, upto, link, reply)?))
}

/// What a reply to a fetch makes: a status other than 200 and a coded content are missed, the content and
/// type of the latest version are the same, and any other is a new version.
fn answered(
    alloc: Global,
    tables: &Tables,
    t: u64,
    topic: &Key,
    upto: u64,
    reply: &Reply,
) -> Result<What, NoMemory>
    requires in_time { t < 2 ^ 48 }
    ensures stands { (h : List Event) (since : ℕ) (link : List ℕ) → StandsFor h since tables.now → Legal h → since ≤ t → IsOwnLink topic.now reply.now.links link →
        IfOk result (λ w. w ≡ reply_verdict h t topic.now upto link reply.now) }
{
    if reply.code != 200 {
        return unfetched(alloc, topic, upto, reply.code);
    }
    if is_coded(reply) {
        return unfetched(alloc, topic, upto, CODED);
    }
    if is_same(reply, tables.latest_version(topic.as_slice())) {
        return same(alloc, topic, upto);
    }
    version(alloc, tables, t, topic, upto, reply)
}

/// What the outcome of a fetch of a topic makes, that was drawn when the greatest serial was `upto`.
pub(crate) fn fetch(
    alloc: Global,
    tables: &Tables,
    t: u64,
    topic: &Key,
    upto: u64,
    outcome: &Outcome,
) -> Result<What, NoMemory>
    requires in_time { t < 2 ^ 48 }
    ensures stands { (h : List Event) (since : ℕ) (link : List ℕ) → StandsFor h since tables.now → Legal h → since ≤ t → IsReplyLink topic.now outcome.now link →
        IfOk result (λ w. w ≡ fetch_verdict h t topic.now upto link outcome.now) }
{
    match outcome {
        Outcome::Reply(reply) => answered(alloc, tables, t, topic, upto, reply),
        _ => unfetched(alloc, topic, upto, miss_number(outcome)),
    }
}
