//! Theorem: the text of a followed trace does not depend on the pieces that are read.
ghost use Rattle.std.specs.Prelude.{◌≡◌};
ghost use Rattle.exchange_follow.specs.Pieces.{EndedCall, HaveFollowed, StartedCall};

use frame_engine::Carrier;
use meters::Meter;

/// Two calls of [`follow`](crate::follow) over the same octets have the same ending and write the same octets, in
/// whatever pieces they read, if no read, no write and no allocation fails. Both start with the same meters, on the
/// same kind of fabric.
pub fn law_of_pieces<M: Meter, C: Carrier>()
    ensures endings { (start : StartedCall M) (first second : EndedCall M C)
        → HaveFollowed C.Carrier M.Meter start first second → first.ending ≡ second.ending }
    ensures texts { (start : StartedCall M) (first second : EndedCall M C)
        → HaveFollowed C.Carrier M.Meter start first second → first.said ≡ second.said }
{}
