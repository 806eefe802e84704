// The calls that the desk answers.
ghost use Rattle.std.specs.Prelude.{◌≡◌, ◌≤◌, ◌<◌, ◌^◌, ◌∷◌, [], ℕ, true, false, List};
ghost use Rattle.ws_model.specs.Answer.{within_serials};
ghost use Rattle.ws_form.specs.Answers.{IsSound};
ghost use Rattle.ws_port.specs.Requests.{answer, revocation_answer};
ghost use Rattle.ws_desk.specs.Commits.{Does, MayEnd};
ghost use Rattle.ws_desk.specs.Seen.{Seen, moment_of, settings_of};

use crate::Desk;
use ws_answer::CoreFault;
use ws_form::Ask;
use ws_model::{Account, Event, Key, Kind, What};
use ws_port::{DeskFault, Port, Told};

/// The greatest serial.
const LAST_SERIAL: u64 = 9_223_372_036_854_775_807;

impl Desk {
    /// Does what a request asks for, at a hub time.
    fn ask_at(&mut self, t: u64, ask: &Ask) -> Result<Told, DeskFault>
        requires later { moment_of self.old ≤ t }
        requires bounded { t < 2 ^ 48 }
        requires sound { IsSound ask.now }
        ensures does { Does (λ h. answer h t ask.now (settings_of self.old).policy) t self.old self.new result }
        ensures settings { settings_of self.new ≡ settings_of self.old }
    {
        match self.core.judge(t, ask, &self.settings.policy) {
            Ok(whats) => Ok(self.commit(t, whats)?),
            Err(
                CoreFault::Full {
                    kind,
                    held,
                    asked,
                    limit,
                },
            ) => {
                self.pass_to(t);
                Err(DeskFault::Full {
                    kind,
                    held,
                    asked,
                    limit,
                })
            }
            Err(CoreFault::NoMemory) => Err(DeskFault::NoMemory),
        }
    }

    /// Ends the live lease of a topic and a callback at a hub time, where there is one.
    fn revoke_at(&mut self, t: u64, topic: &Key, callback: &Key) -> Result<Told, DeskFault>
        requires later { moment_of self.old ≤ t }
        requires bounded { t < 2 ^ 48 }
        ensures does { Does (λ h. revocation_answer h t topic.now callback.now) t self.old self.new result }
        ensures settings { settings_of self.new ≡ settings_of self.old }
    {
        match self.core.revocation(t, topic, callback)? {
            Some(what) => self.end_lease(t, what),
            None => {
                self.pass_to(t);
                Ok(Told {
                    at: self.count,
                    events: 0,
                })
            }
        }
    }

    /// Adds the end of a lease at a hub time, where a serial is left for it.
    fn end_lease(&mut self, t: u64, what: What) -> Result<Told, DeskFault>
        requires later { moment_of self.old ≤ t }
        requires bounded { t < 2 ^ 48 }
        requires may { MayEnd t what self.old }
        ensures does { Does (λ h. within_serials h (what ∷ [])) t self.old self.new result }
        ensures settings { settings_of self.new ≡ settings_of self.old }
    {
        let held = self.core.serial();
        if held >= LAST_SERIAL {
            self.pass_to(t);
            return Err(DeskFault::Full {
                kind: Kind::Numbers,
                held,
                asked: 1,
                limit: LAST_SERIAL,
            });
        }
        let serial = held + 1;
        Ok(self.add(&Event { serial, t, what })?)
    }
}

impl Port for Desk {
    ghost sole = { true };

    ghost stored = { false };

    ghost seen = { Seen };

    ghost tickets = { λ _. [] };

    ghost settings = { settings_of };

    ghost faults = { λ _. 0 };

    ghost moment = { moment_of };

    ghost legal = { λ port h seen. seen.legal };

    ghost timely = { λ alone port h seen. seen.in_time };

    fn ask(&mut self, now: u64, ask: &Ask) -> Result<Told, DeskFault> {
        let t = self.hub_time(now);
        self.ask_at(t, ask)
    }

    fn revoke(&mut self, now: u64, topic: &Key, callback: &Key) -> Result<Told, DeskFault> {
        let t = self.hub_time(now);
        self.revoke_at(t, topic, callback)
    }

    fn account(&mut self, now: u64) -> Account {
        let t = self.hub_time(now);
        self.pass_to(t);
        self.core.counts(t)
    }
}
