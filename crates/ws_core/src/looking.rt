// The intents, the reasons and the versions that work goes by.
ghost use Rattle.std.specs.Prelude.{◌≡◌, ◌≤◌, ◌==◌, ℕ, List, IfSome, IsSome, Some, find, map, true};
ghost use Rattle.std.specs.List.{list_any};
ghost use Rattle.std.specs.Option.{option_copied, option_map};
ghost use Rattle.ws_model.specs.declared.event.Event.{Event};
ghost use Rattle.ws_model.specs.Intents.{notices};
ghost use Rattle.ws_model.specs.Legal.{Legal};
ghost use Rattle.ws_model.specs.Moment.{time};
ghost use Rattle.ws_model.specs.Pairs.{owed};
ghost use Rattle.ws_model.specs.Versions.{versions};
ghost use Rattle.ws_model.specs.View.{owed_notice};
ghost use Rattle.ws_ledger.specs.InUse.{intent_in_use};
ghost use Rattle.ws_core.specs.Stands.{StandsFor};

use crate::Core;
use ws_model::{Bytes, Intent, Version};

impl Core {
    /// The accepted request of a number that is pending, or whose notice is owed, or whose lease is live at
    /// the greatest time so far. It takes no memory.
    pub fn intent(&self, n: u64) -> Option<&Intent>
        ensures stands { (h : List Event) (since : ℕ) → StandsFor h since self.now → Legal h → since ≤ time h → option_copied result ≡ intent_in_use h n }
    {
        self.ledger.intent(n)
    }

    /// The reason that the owed notice of a number gives. It takes no memory.
    pub fn reason(&self, n: u64) -> Option<&Bytes>
        ensures stands { (h : List Event) (since : ℕ) → StandsFor h since self.now → option_copied result ≡ option_map (λ w. w.reason) (find (λ w. w.intent.n == n) (map (owed_notice h) (notices h))) }
    {
        self.ledger.reason(n)
    }

    /// The version of a number, where the core holds it, as it does each owed one. It takes no memory.
    pub fn version(&self, ver: u64) -> Option<&Version>
        ensures stands { (h : List Event) (since : ℕ) → StandsFor h since self.now → IfSome (option_copied result) (λ v. find (λ w. w.ver == ver) (versions h) ≡ Some v) }
        ensures owed { (h : List Event) (since t : ℕ) → StandsFor h since self.now → since ≤ t → list_any (λ p. p.version.ver == ver) (owed h t) ≡ true → IsSome result }
    {
        self.ledger.version(ver)
    }
}
