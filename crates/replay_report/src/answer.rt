//! What the line of an entry shows of its reply.
ghost use Rattle.replay_report.specs.RingTexts.{IsShown};

use crate::entry_line::SHOWN;
use op_meaning::{Reply, ReplyRef};
use std::marker::Model;

/// What the line of an entry shows of its reply: the result, whether a completion is posted, and
/// the first bytes that were read. Contracts see the reply that has these bytes alone.
#[derive(Drop)]
pub struct Answer<'a> {
    pub(crate) res: i32,
    pub(crate) posted: bool,
    pub(crate) front: &'a [u8],
}

impl<'a> Model for Answer<'a> {
    ghost use Rattle.op_meaning.specs.declared.reply.Reply.{Reply};

    ghost Value = { Reply };

    ghost view = { λ a. record { res = a.res; bytes = a.front.now; posted = a.posted } };
}

impl<'a> Answer<'a> {
    /// That of a reply. It takes no memory.
    #[inline(always)]
    pub fn of(reply: &'a Reply) -> Self
        ensures { IsShown result reply.now }
    {
        // One byte more than is shown tells whether there are more.
        Answer {
            res: reply.res,
            posted: reply.posted,
            front: reply.bytes.front(SHOWN + 1),
        }
    }

    /// That of a reply among others. It takes no memory.
    #[inline(always)]
    pub fn of_kept(reply: &ReplyRef<'a>) -> Self
        ensures { IsShown result reply.now }
    {
        Answer {
            res: reply.res(),
            posted: reply.posted(),
            front: reply.front(SHOWN + 1),
        }
    }
}
