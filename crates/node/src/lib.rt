// The request handler: one frame in, the store and the clock moved on, one frame out.
#![tactic(auto)]

mod request;

ghost use Rattle.std.specs.Prelude.{◌≡◌, leb};
ghost use Rattle.frame.specs.Reading.{type_in};
ghost use Rattle.node.specs.Answer.{Handles};

use clock::Clock;
use entry::{Refusal, TIME_LIMIT};
use frame::{MAX_FRAME, read};
use image::is_sound;
use request::{refuse, serve};

// The least TYPE of a reply: a bound, and no kind.
const FIRST_REPLY: u8 = 16;

// The next clock, how many bytes of the reply buffer hold the reply, and whether the request was
// served. A refusal's ERR frame is in the reply, but for NoRoom.
#[derive(Clone, Copy, PartialEq, Eq, Debug)]
pub struct Handled {
    pub clock: Clock,
    pub written: usize,
    pub answer: Result<(), Refusal>,
}

// Whether a frame's TYPE is that of a reply.
fn is_reply(frame: &[u8]) -> bool
    ensures { result ≡ leb 16 (type_in frame.now) }
{
    3 <= frame.len() && FIRST_REPLY <= frame[2]
}

// Answers a frame at the reading `time`.
pub fn handle(store: &mut [u8], clock: Clock, time: u64, frame: &[u8], reply: &mut [u8]) -> Handled
    ensures { Handles store.old clock time frame.now reply.old result store.new reply.new }
{
    // with less, a reply might not have room
    if reply.len() < MAX_FRAME {
        return Handled {
            clock,
            written: 0,
            answer: Err(Refusal::NoRoom),
        };
    }
    if !is_sound(store) {
        return refuse(clock, Refusal::BadStore, reply);
    }
    if TIME_LIMIT <= time || TIME_LIMIT <= clock.phys {
        return refuse(clock, Refusal::BadTime, reply);
    }
    // before the frame is read: a VALUE that is too large is 3 here, and not 2
    if is_reply(frame) {
        return refuse(clock, Refusal::BadFrame, reply);
    }
    // the rules name this form, `let .. else`
    let outcome = read(frame);
    let Ok(message) = outcome else {
        return refuse(clock, outcome.unwrap_err(), reply);
    };
    serve(store, clock, time, frame, message, reply)
}
