// Settings that are being read.
ghost use Rattle.std.specs.Prelude.{◌≡◌, IfOk, IfSome, true, unwrap_or};
ghost use Rattle.ws_model.specs.Key.{is_key};
ghost use Rattle.ws_program.specs.Drafts.{setting_of, nothing_set, may_set, with_value, default_hub, settings_from, HasKey};
ghost use Rattle.ws_program.specs.declared.draft.Setting.TheVariants as setting;

use crate::values::{address_of, alg_of, hub_key, is_allowed_prefix};
use std::alloc::Global;
use ws_model::{Alg, Bytes, Key, Keys, NoMemory, Policy, Settings};

/// A setting of a hub.
#[derive(Clone, Copy, Debug, PartialEq, Eq)]
pub enum Setting {
    Hub,
    Gateway,
    Alg,
    Allow,
}

impl Setting {
    /// The setting of a word.
    pub fn of(word: &str) -> Option<Setting>
        ensures { result ≡ setting_of word.now }
    {
        if word == "--hub" {
            Some(Setting::Hub)
        } else if word == "--gateway" {
            Some(Setting::Gateway)
        } else if word == "--alg" {
            Some(Setting::Alg)
        } else if word == "--allow" {
            Some(Setting::Allow)
        } else {
            None
        }
    }
}

/// What was set so far.
#[derive(Drop)]
pub struct Draft {
    pub hub: Option<Key>,
    pub gateway: Option<(Bytes, u16)>,
    pub alg: Option<Alg>,
    pub allow: Keys,
}

// How often a prefix may stand.
const MAX_ALLOW: usize = 16;

const DEFAULT_HUB: &str = "http://127.0.0.1:8080/";

fn hub_or_default(alloc: Global, hub: Option<Key>) -> Result<Key, NoMemory>
    ensures value { IfOk result (λ key. key ≡ unwrap_or hub default_hub) }
    ensures key { IfSome hub (λ k. is_key k ≡ true) → IfOk result (λ key. is_key key ≡ true) }
{
    match hub {
        Some(hub) => Ok(hub),
        None => Bytes::copy(alloc, DEFAULT_HUB.as_bytes()),
    }
}

impl Draft {
    /// Nothing is set. It takes no memory.
    pub fn empty(alloc: Global) -> Draft
        ensures { result ≡ nothing_set }
    {
        Draft {
            hub: None,
            gateway: None,
            alg: None,
            allow: Keys::empty(alloc),
        }
    }

    /// Whether the setting may stand once more.
    pub fn may_set(&self, setting: Setting) -> bool
        ensures { result ≡ may_set self.now setting }
    {
        match setting {
            Setting::Hub => self.hub.is_none(),
            Setting::Gateway => self.gateway.is_none(),
            Setting::Alg => self.alg.is_none(),
            Setting::Allow => self.allow.as_slice().len() < MAX_ALLOW,
        }
    }

    fn with_hub(self, alloc: Global, text: &str) -> Result<Option<Draft>, NoMemory>
        ensures value { IfOk result (λ draft. draft ≡ with_value self setting.Hub text.now) }
        ensures key { HasKey self → IfOk result (λ draft. IfSome draft HasKey) }
    {
        match hub_key(alloc, text)? {
            Some(hub) => Ok(Some(Draft {
                hub: Some(hub),
                ..self
            })),
            None => Ok(None),
        }
    }

    fn with_gateway(self, alloc: Global, text: &str) -> Result<Option<Draft>, NoMemory>
        ensures value { IfOk result (λ draft. draft ≡ with_value self setting.Gateway text.now) }
        ensures key { HasKey self → IfOk result (λ draft. IfSome draft HasKey) }
    {
        match address_of(alloc, text)? {
            Some(at) => Ok(Some(Draft {
                gateway: Some(at),
                ..self
            })),
            None => Ok(None),
        }
    }

    fn with_alg(self, text: &str) -> Option<Draft>
        ensures value { result ≡ with_value self setting.Alg text.now }
        ensures key { HasKey self → IfSome result HasKey }
    {
        match alg_of(text) {
            Some(alg) => Some(Draft {
                alg: Some(alg),
                ..self
            }),
            None => None,
        }
    }

    fn with_allow(mut self, alloc: Global, text: &str) -> Result<Option<Draft>, NoMemory>
        ensures value { IfOk result (λ draft. draft ≡ with_value self setting.Allow text.now) }
        ensures key { HasKey self → IfOk result (λ draft. IfSome draft HasKey) }
    {
        if !is_allowed_prefix(text) {
            return Ok(None);
        }
        self.allow.push(Bytes::copy(alloc, text.as_bytes())?)?;
        Ok(Some(self))
    }

    /// The draft with one more setting. None where the value hasn't the form of this setting.
    pub fn with(
        self,
        alloc: Global,
        setting: Setting,
        text: &str,
    ) -> Result<Option<Draft>, NoMemory>
        ensures value { IfOk result (λ draft. draft ≡ with_value self setting text.now) }
        ensures key { HasKey self → IfOk result (λ draft. IfSome draft HasKey) }
    {
        match setting {
            Setting::Hub => self.with_hub(alloc, text),
            Setting::Gateway => self.with_gateway(alloc, text),
            Setting::Alg => Ok(self.with_alg(text)),
            Setting::Allow => self.with_allow(alloc, text),
        }
    }

    /// The settings, with the defaults of what isn't set.
    pub fn settings(self, alloc: Global) -> Result<Settings, NoMemory>
        ensures value { IfOk result (λ settings. settings ≡ settings_from self) }
        ensures key { HasKey self → IfOk result (λ settings. is_key settings.policy.hub ≡ true) }
    {
        let Draft {
            hub,
            gateway,
            alg,
            allow,
        } = self;
        let hub = hub_or_default(alloc, hub)?;
        Ok(Settings {
            policy: Policy {
                hub,
                gateway: gateway.is_some(),
                allow,
                alg: alg.unwrap_or(Alg::Sha256),
            },
            gateway,
        })
    }
}
