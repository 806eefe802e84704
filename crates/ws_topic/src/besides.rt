// The bodies that stay kept once another version of a topic is its latest one.
ghost use Rattle.std.specs.Prelude.{◌≡◌, ◌<◌, ◌^◌};
ghost use Rattle.std.specs.List.{sum_by};
ghost use Rattle.std.specs.Map.{values_of};
ghost use Rattle.ws_topic.specs.Besides.{bodies_besides, is_besides};
ghost use Rattle.ws_topic.specs.ByTopic.{by_bytes};
ghost use Rattle.ws_topic.specs.Rows.{size};

use crate::by_topic::ByTopic;
use crate::versions::{latest_in, size};
use std::collections::{BTreeMap, BTreeSet};
use ws_model::Version;

/// Whether a version's number is among these, or it is the latest version of another topic.
fn is_besides(
    topic: &[u8],
    among: &BTreeSet<u64>,
    latest: &ByTopic<u64>,
    ver: u64,
    version: &Version,
) -> bool
    ensures { result ≡ is_besides topic.now among.now (by_bytes latest.now.entries) (ver, version.now) }
{
    if among.contains(&ver) {
        return true;
    }
    let own = version.topic.as_slice();
    topic != own && latest_in(latest, own) == Some(ver)
}

/// How many bytes the bodies have of the versions whose numbers are among these, or that are the latest
/// of another topic.
pub(crate) fn bodies_besides(
    by_number: &BTreeMap<u64, Version>,
    latest: &ByTopic<u64>,
    topic: &[u8],
    among: &BTreeSet<u64>,
) -> u64
    requires few { sum_by size (values_of by_number.now.entries) < 2 ^ 64 }
    ensures { result ≡ bodies_besides topic.now among.now (by_bytes latest.now.entries) by_number.now.entries }
{
    let mut bytes = 0;
    for (ver, version) in by_number {
        if is_besides(topic, among, latest, *ver, version) {
            bytes += size(version);
        }
    }
    bytes
}
