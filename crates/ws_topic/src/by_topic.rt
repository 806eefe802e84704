// Maps by topic. Contracts see them as lists of topics, in order, with what stands there.
ghost use Rattle.std.specs.Prelude.{◌≡◌, List, ℕ, OnOk, OnErr, IfOk, Some, None, cond, bytes_eq};
ghost use Rattle.std.specs.Option.{option_copied};
ghost use Rattle.std.specs.Map.{keys_of};
ghost use Rattle.std.specs.BTreeMap.{IsUnchanged};
ghost use Rattle.ws_topic.specs.ByTopic.{IsAscending, at_topic, by_bytes, with_topic, without_topic};

use std::alloc::Global;
use std::collections::BTreeMap;
use ws_model::NoMemory;

pub type ByTopic<V> = BTreeMap<Vec<u8>, V>;

/// What stands at a topic.
pub fn get<'a, V>(map: &'a ByTopic<V>, topic: &[u8]) -> Option<&'a V>
    ensures { option_copied result ≡ at_topic topic.now (by_bytes map.now.entries) }
{
    map.get(topic)
}

/// Puts a value at a topic, or leaves the map as it was.
pub fn put<V: Drop>(map: &mut ByTopic<V>, topic: Vec<u8>, value: V) -> Result<(), NoMemory>
    ensures entries { OnOk result (by_bytes map.new.entries ≡ with_topic topic.items value (by_bytes map.old.entries)) }
    ensures rows { OnOk result ((q : List ℕ) → at_topic q (by_bytes map.new.entries) ≡ cond (bytes_eq q topic.items) (Some value) (at_topic q (by_bytes map.old.entries))) }
    ensures ordered { IsAscending (keys_of (by_bytes map.new.entries)) }
    ensures err { OnErr result (IsUnchanged map.old map.new) }
{
    map.insert(topic, value)?;
    Ok(())
}

/// Takes out what stands at a topic.
pub fn remove<V: Drop>(map: &mut ByTopic<V>, topic: &[u8])
    ensures entries { by_bytes map.new.entries ≡ without_topic topic.now (by_bytes map.old.entries) }
    ensures rows { (q : List ℕ) → at_topic q (by_bytes map.new.entries) ≡ cond (bytes_eq q topic.now) None (at_topic q (by_bytes map.old.entries)) }
    ensures ordered { IsAscending (keys_of (by_bytes map.new.entries)) }
{
    let _ = map.remove(topic);
}

/// A copy of a topic's bytes, to be a key.
pub fn copied(alloc: Global, from: &[u8]) -> Result<Vec<u8>, NoMemory>
    ensures { IfOk result (λ v. v.items ≡ from.now) }
{
    Ok(from.to_vec(alloc)?)
}
