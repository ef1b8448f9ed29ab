//! Replies that a replayer gives again.

ghost use Rattle.std.specs.Prelude.{◌≡◌, option_to_list};
ghost use Rattle.charmlet_replayers.specs.Replies.Replies.{kept_reply};

use charmlet_model::{MsgId, Origin, Words};

/// A reply to one of a client's requests.
#[derive(Debug, Drop)]
pub struct Reply {
    pub client: u32,
    pub number: u64,
    pub words: Words,
}

/// The reply with these words for the client that sent the message of this id, or `None` for a
/// message that an element sent.
pub fn reply_of(id: MsgId, words: Words) -> Option<Reply>
    ensures { option_to_list result ≡ kept_reply id.origin id.number words }
{
    match id.origin {
        Origin::Client(client) => Some(Reply {
            client,
            number: id.number,
            words,
        }),
        Origin::Element(_) => None,
    }
}
