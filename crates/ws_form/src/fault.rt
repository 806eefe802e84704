ghost use Rattle.std.specs.Prelude.{◌≡◌};
ghost use Rattle.ws_form.specs.FaultText.{fault_text};
ghost use Rattle.ws_form.specs.Form.{topic_fault, callback_fault};
ghost use Rattle.ws_form.specs.declared.fault.AskFault.TheVariants.{NoMemory as Wanting};

use ws_model::NoMemory;
use ws_target::TargetFault;

/// Why a form asks for nothing, in the order in which faults are looked for.
#[derive(Clone, Copy, Debug, PartialEq, Eq, thiserror::Error)]
pub enum AskFault {
    /// There is no `hub.mode`.
    #[error("hub.mode missing")]
    ModeMissing,
    /// The mode is none of `subscribe`, `unsubscribe` and `publish`.
    #[error("hub.mode unknown")]
    ModeUnknown,
    /// There is no `hub.topic`.
    #[error("hub.topic missing")]
    TopicMissing,
    /// A topic has no key.
    #[error("hub.topic: {0}")]
    TopicBad(TargetFault),
    /// There is no `hub.callback`.
    #[error("hub.callback missing")]
    CallbackMissing,
    /// The callback has no key.
    #[error("hub.callback: {0}")]
    CallbackBad(TargetFault),
    /// The lease isn't ASCII digits, or it is 0.
    #[error("hub.lease_seconds bad")]
    LeaseBad,
    /// The secret has 200 bytes or more.
    #[error("hub.secret too long")]
    SecretLong,
    /// A publisher tells no topic.
    #[error("hub.url missing")]
    UrlMissing,
    /// A publisher tells more than 16 topics.
    #[error("too many topics")]
    TooManyUrls,
    /// There was no memory.
    #[error("no memory")]
    NoMemory,
}

impl AskFault {
    /// The text that an answer gives. It takes no memory.
    pub fn text(&self) -> &'static str
        ensures { result.now ≡ fault_text self.now }
    {
        match self {
            AskFault::ModeMissing => "hub.mode missing",
            AskFault::ModeUnknown => "hub.mode unknown",
            AskFault::TopicMissing => "hub.topic missing",
            AskFault::TopicBad(fault) => topic_text(*fault),
            AskFault::CallbackMissing => "hub.callback missing",
            AskFault::CallbackBad(fault) => callback_text(*fault),
            AskFault::LeaseBad => "hub.lease_seconds bad",
            AskFault::SecretLong => "hub.secret too long",
            AskFault::UrlMissing => "hub.url missing",
            AskFault::TooManyUrls => "too many topics",
            AskFault::NoMemory => "no memory",
        }
    }
}

fn topic_text(fault: TargetFault) -> &'static str
    ensures { result.now ≡ fault_text (AskFault.TopicBad fault) }
{
    match fault {
        TargetFault::TooLong { .. } => "hub.topic: too long",
        TargetFault::NotUrl => "hub.topic: not a URL",
        TargetFault::SchemeNotServed => "hub.topic: scheme not served",
        TargetFault::UserInfo => "hub.topic: user info",
        TargetFault::NoMemory => "hub.topic: no memory",
    }
}

fn callback_text(fault: TargetFault) -> &'static str
    ensures { result.now ≡ fault_text (AskFault.CallbackBad fault) }
{
    match fault {
        TargetFault::TooLong { .. } => "hub.callback: too long",
        TargetFault::NotUrl => "hub.callback: not a URL",
        TargetFault::SchemeNotServed => "hub.callback: scheme not served",
        TargetFault::UserInfo => "hub.callback: user info",
        TargetFault::NoMemory => "hub.callback: no memory",
    }
}

impl From<NoMemory> for AskFault {
    ghost from_gives = { λ _ e. e ≡ Wanting };

    fn from(_: NoMemory) -> Self {
        AskFault::NoMemory
    }
}

/// The fault of a form whose topic has this one.
pub fn topic_fault(fault: TargetFault) -> AskFault
    ensures { result ≡ topic_fault fault }
{
    match fault {
        TargetFault::NoMemory => AskFault::NoMemory,
        _ => AskFault::TopicBad(fault),
    }
}

/// The fault of a form whose callback has this one.
pub fn callback_fault(fault: TargetFault) -> AskFault
    ensures { result ≡ callback_fault fault }
{
    match fault {
        TargetFault::NoMemory => AskFault::NoMemory,
        _ => AskFault::CallbackBad(fault),
    }
}
