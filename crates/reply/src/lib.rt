// Replies: what a board answers to a line, and the bytes that say it.
#![tactic(auto)]

ghost use Rattle.reply.specs.Replies.{said};
ghost use Rattle.reply.specs.Writing.{Tellable, WroteReply, Brief};

use logline::LineFault;

pub mod faults;
mod pieces;
mod replies;
pub mod worked;

pub use replies::Reply;
use replies::put_reply;

// Writes a reply to the front of the places lent, and gives its length.
// It is measured over no places first, so that a refusal leaves the places as they were.
pub fn write_reply(reply: &Reply, out: &mut [u8]) -> Result<usize, LineFault>
    requires tellable { Tellable reply.now }
    ensures wrote { WroteReply (said reply.now) out.old out.new result }
    ensures brief { Brief (said reply.now) }
{
    let needed = put_reply(&mut [], reply);
    if needed > out.len() {
        return Err(LineFault::Room { needed });
    }
    Ok(put_reply(out, reply))
}
