use ws_model::{Bytes, Key, Keys};

/// What a form asks for. An `echo` is the topic as it was written.
#[derive(Debug, Drop)]
pub enum Ask {
    /// A subscription of `callback` to `topic` for `granted` seconds. Without a secret that is empty.
    Subscribe {
        topic: Key,
        echo: Bytes,
        callback: Key,
        secret: Bytes,
        granted: u32,
    },
    /// The end of the subscription of `callback` to `topic`.
    Unsubscribe {
        topic: Key,
        echo: Bytes,
        callback: Key,
    },
    /// A publisher's word that these topics have changed.
    Publish {
        topics: Keys,
    },
}
