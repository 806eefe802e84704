// The fetch that a topic is owed.
ghost use Rattle.std.specs.Prelude.{◌≡◌, ℕ, List, bytes_eq, find};
ghost use Rattle.std.specs.Option.{option_map};
ghost use Rattle.ws_model.specs.declared.event.Event.{Event};
ghost use Rattle.ws_model.specs.Versions.{fetches};
ghost use Rattle.ws_core_tables.specs.Stands.{StandsFor};

use crate::Tables;

impl Tables {
    /// The serial of the latest ping of a topic whose fetch is owed.
    pub fn owed_fetch(&self, topic: &[u8]) -> Option<u64>
        ensures stands { (h : List Event) (since : ℕ) → StandsFor h since self.now → result ≡ option_map (λ p. p.serial) (find (λ p. bytes_eq p.topic topic.now) (fetches h)) }
    {
        match self.topics.last_ping(topic) {
            Some(ping) => Some(ping.serial),
            None => None,
        }
    }
}
