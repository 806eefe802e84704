// The table of intents.
ghost use Rattle.std.specs.Prelude.{◌≡◌, ◌<◌, ◌∷◌, ◌++◌, [], not, ℕ, List, OnOk, OnErr, IsSome, MatchOption, IfSome, ◌≤◌, Some, None, find, filter, length, option_map, cond, ◌==◌};
ghost use Rattle.std.specs.Option.{option_copied};
ghost use Rattle.std.specs.List.{sum_by};
ghost use Rattle.std.specs.Map.{values_of};
ghost use Rattle.ws_model.specs.declared.event.Event.{Event};
ghost use Rattle.ws_model.specs.declared.event.Tally.{Tally};
ghost use Rattle.ws_model.specs.declared.event.What.TheVariants.{Asked, Barred, Revoked, Tally as TallyOf};
ghost use Rattle.ws_model.specs.Due.{due_notices, due_verifications, is_out};
ghost use Rattle.ws_model.specs.Intents.{notices, pending};
ghost use Rattle.ws_model.specs.Leases.{is_on, live};
ghost use Rattle.ws_model.specs.Legal.{Legal, is_first_one, pending_of};
ghost use Rattle.ws_intent.specs.Rows.{Rows, number_at, with_row, without, weight, is_first_number, denied_by, denied_rows, settled, left_by, next_of, work_of, intent_of, is_last, missed, after_miss, denied_intent, is_last_notice, missed_notice, after_notice_miss};
ghost use Rattle.ws_intent.specs.declared.kinds.Settle.TheVariants.{Noticed};
ghost use Rattle.ws_intent.specs.Stands.{StandsFor, IsSettling, LooksSettled};

use crate::kinds::{Due, Settle};
use crate::notices::{self, Notices};
use crate::pending::Pending;
use crate::rows::{Denial, Waiting};
use std::alloc::Global;
use std::collections::BTreeMap;
use std::marker::Model;
use ws_model::{Bytes, Held, Intent, NoMemory};

/// The pending intents, and the denial notices that are owed. Contracts see them as two lists of
/// numbers with what stands there, rising.
#[derive(Drop)]
pub struct Intents {
    alloc: Global,
    pending: Pending,
    notices: Notices,
}

impl Model for Intents {
    ghost use Rattle.ws_intent.specs.Rows.{Rows};

    ghost Value = { Rows };

    ghost use Rattle.ws_intent.specs.Indexed.{IsKeyed};

    ghost view = { λ s. record { pending = s.pending; notices = s.notices.entries } };

    ghost invariant = { λ s. IsKeyed (λ d. d.intent) s.notices.entries };
}

impl Intents {
    /// No intents. It takes no memory.
    pub fn empty(alloc: Global) -> Intents
        ensures empty { result ≡ record { pending = []; notices = [] } }
        ensures stands { StandsFor result [] }
        ensures tally { (e : Event) (c : Tally) → e.what ≡ TallyOf c → StandsFor result (e ∷ []) }
    {
        Intents {
            alloc,
            pending: Pending::empty(alloc),
            notices: BTreeMap::new(alloc),
        }
    }

    /// Adds a new intent, which is pending. Its number is above all asked before.
    pub fn asked(&mut self, intent: Intent) -> Result<(), NoMemory>
        requires above { (q : ℕ) → IsSome (number_at q self.old.pending) → q < intent.n }
        ensures ok { OnOk result (self.new ≡ record { pending = with_row intent.n (record { intent = intent; unheard = 0 }) self.old.pending; notices = self.old.notices }) }
        ensures look { OnOk result ((q : ℕ) → number_at q self.new.pending ≡ cond (q == intent.n) (Some (record { intent = intent; unheard = 0 })) (number_at q self.old.pending)) }
        ensures stands { OnOk result ((h : List Event) (e : Event) → StandsFor self.old h → Legal (e ∷ h) → e.what ≡ Asked intent → StandsFor self.new (e ∷ h)) }
        ensures err { OnErr result (self.new ≡ self.old) }
    {
        self.pending.add(intent)
    }

    /// Turns a pending intent that isn't allowed into an owed notice. A number that isn't pending
    /// changes nothing.
    pub fn barred(&mut self, n: u64, reason: Bytes) -> Result<(), NoMemory>
        ensures ok { OnOk result (self.new ≡ record { pending = without n self.old.pending; notices = denied_rows n reason (number_at n self.old.pending) self.old.notices }) }
        ensures look { OnOk result ((q : ℕ) → number_at q self.new.pending ≡ cond (q == n) None (number_at q self.old.pending)) }
        ensures look_notices { OnOk result ((q : ℕ) → number_at q self.new.notices ≡ cond (q == n) (denied_by reason (number_at n self.old.pending) (number_at n self.old.notices)) (number_at q self.old.notices)) }
        ensures stands { OnOk result ((h : List Event) (e : Event) → StandsFor self.old h → Legal (e ∷ h) → e.what ≡ Barred n reason → StandsFor self.new (e ∷ h)) }
        ensures err { OnErr result (self.new ≡ self.old) }
    {
        let intent = match self.pending.get(n) {
            Some(waiting) => waiting.intent.copy(self.alloc)?,
            None => return Ok(()),
        };
        let denial = Denial {
            intent,
            reason,
            unheard: 0,
        };
        notices::put(&mut self.notices, n, denial)?;
        let _ = self.pending.take(n);
        Ok(())
    }

    /// Adds the notice that is owed for a revoked lease. Its intent was neither barred nor revoked before.
    pub fn revoked(&mut self, intent: Intent, reason: Bytes) -> Result<(), NoMemory>
        ensures ok { OnOk result (self.new ≡ record { pending = self.old.pending; notices = with_row intent.n (record { intent = intent; reason = reason; unheard = 0 }) self.old.notices }) }
        ensures look { OnOk result ((q : ℕ) → number_at q self.new.notices ≡ cond (q == intent.n) (Some (record { intent = intent; reason = reason; unheard = 0 })) (number_at q self.old.notices)) }
        ensures stands { OnOk result ((h : List Event) (e : Event) → StandsFor self.old h → Legal (e ∷ h) → e.what ≡ Revoked intent.n reason → option_map (λ l. l.intent) (find (λ l. l.intent.n == intent.n) (live h e.t)) ≡ Some intent → StandsFor self.new (e ∷ h)) }
        ensures err { OnErr result (self.new ≡ self.old) }
    {
        let n = intent.n;
        let denial = Denial {
            intent,
            reason,
            unheard: 0,
        };
        notices::put(&mut self.notices, n, denial)
    }

    /// Settles a verification or a notice, and gives the intent where it left the table: a third
    /// exchange without a reply gives up. It takes no memory. A number that isn't there changes nothing.
    pub fn settle(&mut self, n: u64, how: Settle) -> Option<Intent>
        ensures left { result ≡ left_by n how self.old }
        ensures rows { self.new ≡ settled n how self.old }
        ensures stands { (h : List Event) (e : Event) → StandsFor self.old h → Legal (e ∷ h) → IsSettling n how e.what → StandsFor self.new (e ∷ h) }
    {
        match how {
            Settle::Confirmed => self.answered(n),
            Settle::Declined => self.answered(n),
            Settle::Unheard => self.unheard(n),
            Settle::Noticed(heard) => self.noticed(n, heard),
        }
    }

    // The verification was answered, in one way or the other.
    fn answered(&mut self, n: u64) -> Option<Intent>
        ensures left { result ≡ intent_of (number_at n self.old.pending) }
        ensures rows { self.new ≡ record { pending = without n self.old.pending; notices = self.old.notices } }
        ensures look { (q : ℕ) → number_at q self.new.pending ≡ cond (q == n) None (number_at q self.old.pending) }
        ensures notices { self.new.notices ≡ self.old.notices }
    {
        match self.pending.take(n) {
            Some(waiting) => Some(waiting.intent),
            None => None,
        }
    }

    fn unheard(&mut self, n: u64) -> Option<Intent>
        ensures left { result ≡ cond (is_last (number_at n self.old.pending)) (intent_of (number_at n self.old.pending)) None }
        ensures rows { self.new ≡ record { pending = after_miss n self.old.pending; notices = self.old.notices } }
        ensures look { (q : ℕ) → number_at q self.new.pending ≡ cond (q == n) (missed (number_at n self.old.pending)) (number_at q self.old.pending) }
        ensures notices { self.new.notices ≡ self.old.notices }
    {
        self.pending.miss(n)
    }

    fn noticed(&mut self, n: u64, heard: bool) -> Option<Intent>
        ensures left { result ≡ left_by n (Noticed heard) self.old }
        ensures rows { self.new ≡ settled n (Noticed heard) self.old }
        ensures look { LooksSettled n (Noticed heard) self.old self.new }
    {
        if heard {
            self.told(n)
        } else {
            self.unanswered(n)
        }
    }

    fn told(&mut self, n: u64) -> Option<Intent>
        ensures left { result ≡ denied_intent (number_at n self.old.notices) }
        ensures rows { self.new ≡ record { pending = self.old.pending; notices = without n self.old.notices } }
        ensures look { (q : ℕ) → number_at q self.new.notices ≡ cond (q == n) None (number_at q self.old.notices) }
        ensures pending { self.new.pending ≡ self.old.pending }
    {
        notices::take(&mut self.notices, n)
    }

    fn unanswered(&mut self, n: u64) -> Option<Intent>
        ensures left { result ≡ cond (is_last_notice (number_at n self.old.notices)) (denied_intent (number_at n self.old.notices)) None }
        ensures rows { self.new ≡ record { pending = self.old.pending; notices = after_notice_miss n self.old.notices } }
        ensures look { (q : ℕ) → number_at q self.new.notices ≡ cond (q == n) (missed_notice (number_at n self.old.notices)) (number_at q self.old.notices) }
        ensures pending { self.new.pending ≡ self.old.pending }
    {
        notices::miss(&mut self.notices, n)
    }

    /// The first due verification or notice whose ticket isn't out: the first pending intents of their
    /// topics and callbacks by number, then the owed notices by number.
    pub fn next_due(&self, held: &Held) -> Option<Due>
        ensures first { option_map work_of result ≡ next_of held.now self.now }
        ensures stands { (h : List Event) → StandsFor self.now h → Legal h → option_map work_of result ≡ find (λ w. not (is_out held.now w)) (due_verifications h ++ due_notices h) }
    {
        if let Some(n) = self.pending.first_due(held) {
            return Some(Due::Verify(n));
        }
        match notices::first_due(&self.notices, held) {
            Some(n) => Some(Due::Notice(n)),
            None => None,
        }
    }

    /// How many intents are pending.
    pub fn pending(&self) -> u64
        ensures count { result ≡ length self.now.pending }
        ensures stands { (h : List Event) → StandsFor self.now h → Legal h → result ≡ length (pending h) }
    {
        self.pending.count()
    }

    /// The greatest number of a pending intent.
    pub fn last(&self) -> Option<u64>
        ensures greatest { MatchOption result ((q : ℕ) → number_at q self.now.pending ≡ None) (λ n. (q : ℕ) → IsSome (number_at q self.now.pending) → q ≤ n) }
        ensures held { IfSome result (λ n. IsSome (number_at n self.now.pending)) }
    {
        self.pending.last()
    }

    /// How many pending intents ask to subscribe.
    pub fn subscriptions(&self) -> u64
        ensures count { result ≡ sum_by weight (values_of self.now.pending) }
        ensures stands { (h : List Event) → StandsFor self.now h → Legal h → result ≡ length (filter (λ i. is_on i.mode) (pending h)) }
    {
        self.pending.subscriptions()
    }

    /// How many notices are owed.
    pub fn notices(&self) -> u64
        ensures count { result ≡ length self.now.notices }
        ensures stands { (h : List Event) → StandsFor self.now h → Legal h → result ≡ length (notices h) }
    {
        self.notices.len() as u64
    }

    /// The pending intent of a number, with its count.
    pub fn waiting(&self, n: u64) -> Option<&Waiting>
        ensures { option_copied result ≡ number_at n self.now.pending }
    {
        self.pending.get(n)
    }

    /// The owed notice of a number, with its reason and its count.
    pub fn notice(&self, n: u64) -> Option<&Denial>
        ensures { option_copied result ≡ number_at n self.now.notices }
    {
        self.notices.get(&n)
    }

    /// Whether the number is pending, and the first of its topic and callback.
    pub fn is_first(&self, n: u64) -> bool
        ensures first { result ≡ is_first_number n self.now.pending }
        ensures stands { (h : List Event) → StandsFor self.now h → Legal h → result ≡ is_first_one h (pending_of h n) }
    {
        self.pending.is_first(n)
    }
}
