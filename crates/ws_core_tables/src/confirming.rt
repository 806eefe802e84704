// What happened, applied to the tables: confirmations.
ghost use Rattle.std.specs.Prelude.{◌≡◌, ◌≤◌, ◌<◌, ◌^◌, ◌∷◌, ◌==◌, ℕ, List, Some, None, IfSome, IsSome, IsSomeAnd, IfOk, OnOk, OnErr, MatchOption, is_some, option_map, cond, true, false};
ghost use Rattle.ws_model.specs.declared.event.Event.{Event};
ghost use Rattle.ws_model.specs.declared.event.Intent.{Intent};
ghost use Rattle.ws_model.specs.declared.event.What.TheVariants.{Confirmed};
ghost use Rattle.ws_model.specs.Leases.{expiry, is_on};
ghost use Rattle.ws_model.specs.Legal.{Legal, pending_of};
ghost use Rattle.ws_model.specs.Revocation.{live_lease_of};
ghost use Rattle.ws_intent.specs.Rows.{number_at};
ghost use Rattle.ws_lease.specs.Stands.{StandsFor as LeasesStand, EndsLease, LeavesLeases, MakesLease};
ghost use Rattle.ws_lease.specs.Table.{is_end, lease_at, live_at};
ghost use Rattle.ws_delivery.specs.Table.{pair_at};
ghost use Rattle.ws_core_tables.specs.Stands.{CanFollow, GoesOn, StandsFor, is_number, renewed};

use crate::Tables;
use ws_delivery::Deliveries;
use ws_intent::Settle;
use ws_model::{Cause, Event, Intent, Lease, Mode, NoMemory};

impl Tables {
    /// The number of the live lease of a pending intent's topic and callback.
    pub(crate) fn lease_of(&self, n: u64, t: u64) -> Option<u64>
        requires { t < 2 ^ 48 }
        ensures stands { (h : List Event) (since : ℕ) (i : Intent) → StandsFor h since self.now → Legal h → since ≤ t → Some i ≡ pending_of h n →
            result ≡ option_map (λ l. l.intent.n) (live_lease_of h t i.topic i.callback) }
    {
        match self.intents.waiting(n) {
            Some(waiting) => self.leases.find(
                waiting.intent.topic.as_slice(),
                waiting.intent.callback.as_slice(),
                t,
            ),
            None => None,
        }
    }

    /// Ends a live lease, where there is one, and closes its pairs. It takes no memory.
    fn end_lease(&mut self, n: Option<u64>, cause: Cause, t: u64)
        requires in_time { t < 2 ^ 48 }
        requires live { IfSome n (λ m. is_some (live_at m t self.old.leases) ≡ true) }
        requires cause { is_end cause ≡ true }
        ensures leases { (h : List Event) (e : Event) (since : ℕ) → LeasesStand h since self.old.leases → since ≤ e.t → Legal (e ∷ h) →
            MatchOption n (LeavesLeases e h) (λ m. EndsLease e h m cause) → LeasesStand (e ∷ h) e.t self.new.leases }
        ensures pairs { (v q : ℕ) → pair_at v q self.new.deliveries ≡ cond (is_number n q) None (pair_at v q self.old.deliveries) }
        ensures intents { self.new.intents ≡ self.old.intents }
        ensures topics { self.new.topics ≡ self.old.topics }
        ensures numbers { self.new.numbers ≡ self.old.numbers }
    {
        if let Some(n) = n {
            self.leases.end(n, cause, t);
            let _ = self.deliveries.close_lease(n);
        }
    }

    /// The end of a subscription was confirmed: it takes no memory.
    pub(crate) fn unsubscribed(&mut self, event: &Event, n: u64, _sent: u64)
        requires kind { event.now.what ≡ Confirmed n _sent }
        requires mode { IsSomeAnd (number_at n self.old.intents.pending) (λ w. is_on w.intent.mode ≡ false) }
        requires follows { CanFollow self.old event.now }
        ensures stands { GoesOn event.now self.old self.new }
    {
        let lease = self.lease_of(n, event.t);
        self.end_lease(lease, Cause::Unsubscribed, event.t);
        let _ = self.intents.settle(n, Settle::Confirmed);
        self.numbers = self.numbers.after(event);
    }

    /// Puts a new lease into the tables in the place of an old one, where there is one: what is open of
    /// that goes over to it, afresh at `t`. At an error the tables are as they were.
    fn renew_lease(&mut self, lease: Lease, old: Option<u64>, t: u64) -> Result<(), NoMemory>
        requires in_time { t < 2 ^ 48 }
        requires mode { is_on lease.intent.mode ≡ true }
        requires new { lease_at lease.intent.n self.old.leases ≡ None }
        requires sent { lease.sent ≤ t }
        requires none { (v : ℕ) → pair_at v lease.intent.n self.old.deliveries ≡ None }
        ensures leases { OnOk result ((h : List Event) (e : Event) (since : ℕ) → LeasesStand h since self.old.leases → since ≤ e.t → Legal (e ∷ h) → MakesLease e h lease →
            LeasesStand (e ∷ h) e.t self.new.leases) }
        ensures pairs { OnOk result ((v q : ℕ) → pair_at v q self.new.deliveries ≡ cond (is_number old q) None (cond (lease.intent.n == q) (renewed (expiry lease) t old v self.old.deliveries) (pair_at v q self.old.deliveries))) }
        ensures intents { OnOk result (self.new.intents ≡ self.old.intents) }
        ensures topics { OnOk result (self.new.topics ≡ self.old.topics) }
        ensures numbers { OnOk result (self.new.numbers ≡ self.old.numbers) }
        ensures err { OnErr result (self.new ≡ self.old) }
    {
        let n = lease.intent.n;
        let exp = lease.sent + u64::from(lease.intent.granted);
        // How the pairs are held is known from their number.
        let _ = self.deliveries.count();
        open_again(&mut self.deliveries, old, n, exp, t)?;
        match self.leases.confirm(lease, t) {
            Ok(_) => {
                close_pairs(&mut self.deliveries, old);
                Ok(())
            }
            Err(fault) => {
                let _ = self.deliveries.close_lease(n);
                Err(fault)
            }
        }
    }

    /// A subscription was confirmed.
    pub(crate) fn subscribed(&mut self, event: &Event, n: u64, sent: u64) -> Result<(), NoMemory>
        requires kind { event.now.what ≡ Confirmed n sent }
        requires mode { IsSomeAnd (number_at n self.old.intents.pending) (λ w. is_on w.intent.mode ≡ true) }
        requires follows { CanFollow self.old event.now }
        ensures ok { OnOk result (GoesOn event.now self.old self.new) }
        ensures err { OnErr result (self.new ≡ self.old) }
    {
        let intent = self.waiting_intent(n)?;
        let old = self.lease_of(n, event.t);
        self.renew_lease(Lease { intent, sent }, old, event.t)?;
        let _ = self.intents.settle(n, Settle::Confirmed);
        self.numbers = self.numbers.after(event);
        Ok(())
    }

    /// Whether the pending intent of a number asks for a subscription.
    pub(crate) fn waiting_mode(&self, n: u64) -> Mode
        requires { IsSome (number_at n self.now.intents.pending) }
        ensures { IsSomeAnd (number_at n self.now.intents.pending) (λ w. w.intent.mode ≡ result) }
    {
        match self.intents.waiting(n) {
            Some(waiting) => waiting.intent.mode,
            None => unreachable!(),
        }
    }

    /// A copy of the pending intent of a number.
    fn waiting_intent(&self, n: u64) -> Result<Intent, NoMemory>
        requires { IsSome (number_at n self.now.intents.pending) }
        ensures { IfOk result (λ i. Some i ≡ option_map (λ w. w.intent) (number_at n self.now.intents.pending)) }
    {
        match self.intents.waiting(n) {
            Some(waiting) => waiting.intent.copy(self.alloc),
            None => unreachable!(),
        }
    }
}

/// Opens afresh, for a new lease, what is open of an old one, where there is one. At an error the pairs
/// are as they were.
fn open_again(
    deliveries: &mut Deliveries,
    old: Option<u64>,
    n: u64,
    exp: u64,
    t: u64,
) -> Result<(), NoMemory>
    requires in_time { t < 2 ^ 48 }
    requires none { (v : ℕ) → pair_at v n deliveries.old ≡ None }
    ensures look { OnOk result ((v q : ℕ) → pair_at v q deliveries.new ≡ cond (n == q) (renewed exp t old v deliveries.old) (pair_at v q deliveries.old)) }
    ensures err { OnErr result (deliveries.new ≡ deliveries.old) }
{
    if let Some(old) = old {
        deliveries.renew(old, n, exp, t)?;
    }
    Ok(())
}

/// Closes the pairs of a lease, where there is one. It takes no memory.
fn close_pairs(deliveries: &mut Deliveries, n: Option<u64>)
    ensures { (v q : ℕ) → pair_at v q deliveries.new ≡ cond (is_number n q) None (pair_at v q deliveries.old) }
{
    if let Some(n) = n {
        let _ = deliveries.close_lease(n);
    }
}
