//! Replayers that keep no replies.

ghost use Rattle.std.specs.List.{AllZip};
ghost use Rattle.charmlet_parallel_replay.specs.Log.LogRound.{HasNoReplies};

use charmlet_chare::Chare;
use charmlet_replayers::Replayer;

/// Drops the replies of a replayer.
fn forget_own<C: Chare>(replayer: &mut Replayer<C>)
    ensures { HasNoReplies replayer.old replayer.new }
{
    replayer.replies = Vec::new(replayer.alloc);
}

/// Drops the replies of all replayers.
pub(crate) fn forget_replies<C: Chare>(replayers: &mut [Replayer<C>])
    ensures { AllZip HasNoReplies replayers.old replayers.new }
{
    if replayers.len() < 2 {
        if let Some(replayer) = replayers.first_mut() {
            forget_own(replayer);
        }
        return;
    }
    let (front, back) = replayers.split_at_mut(replayers.len() / 2);
    forget_replies(front);
    forget_replies(back);
}
