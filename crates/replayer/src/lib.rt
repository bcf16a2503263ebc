// Answers the records of a journal over slices: input that has come is taken, and output that is to
// be written is filled.
// What is left to a program is to read and to write.
#![tactic(auto)]

ghost use Rattle.std.specs.Prelude.{◌≡◌, ◌&&◌, ◌++◌, ◌+◌, ◌-◌, ◌≤◌, leb, length, take, drop};
ghost use Rattle.frame.specs.Message.{err};
ghost use Rattle.frame.specs.Layout.{max_frame, frame_of};
ghost use Rattle.journal.specs.Journal.{record_at};
ghost use Rattle.replayer.specs.Advance.{is_write, answered, turn, replay_of, with_next, Fits, Leaves, Advances};

use clock::Clock;
use entry::Refusal;
use frame::{MAX_FRAME, write_err};
use journal::{Cut, cut_record};
use node::handle;

// What the caller is to do, once it has written the output.
#[derive(Clone, Copy, PartialEq, Eq, Debug)]
pub enum Next {
    // Read more input: no whole record is left.
    Read,
    // Call again: the output had no room for another reply.
    Write,
    // Nothing: the journal has ended, or cannot be read on.
    Stop,
}

// The next clock, how many bytes of the input were taken, how many of the output were filled, and
// what is to be done.
#[derive(Clone, Copy, PartialEq, Eq, Debug)]
pub struct Progress {
    pub clock: Clock,
    pub taken: usize,
    pub filled: usize,
    pub next: Next,
}

// Puts a reply behind the first `filled` bytes of the output, and answers how many are filled then.
fn append(output: &mut [u8], filled: usize, reply: &[u8]) -> usize
    requires { filled + length reply.now ≤ length output.old }
    ensures told { result ≡ filled + length reply.now }
    ensures left { output.new
        ≡ take filled output.old ++ reply.now ++ drop (filled + length reply.now) output.old }
{
    let end = filled + reply.len();
    output[filled..end].copy_from_slice(reply);
    end
}

// Whether a call goes on with another turn: the output needs room for any reply.
fn goes_on(progress: Progress, room: usize) -> bool
    requires { progress.filled ≤ room }
    ensures { result ≡ (is_write progress.next && leb max_frame (room - progress.filled)) }
{
    progress.next == Next::Write && MAX_FRAME <= room - progress.filled
}

// Answers the record of `size` bytes at the front of the input that is left. Of the four slices
// three are lent to be written: a struct of them would be taken apart here, so it is no plainer.
fn answer(
    store: &mut [u8],
    input: &[u8],
    reply: &mut [u8],
    output: &mut [u8],
    progress: Progress,
    time: u64,
    size: usize,
) -> Progress
    requires { Fits input.now output.old progress × (6 ≤ size) × (progress.taken + size ≤ length input.now) }
    ensures { Leaves
        (answered (replay_of store.old reply.old output.old progress)
        (record_at time size (drop progress.taken input.now)) size)
        output.old result store.new reply.new output.new }
{
    let from = progress.taken + 6;
    let taken = progress.taken + size;
    let handled = handle(store, progress.clock, time, &input[from..taken], reply);
    let filled = append(output, progress.filled, &reply[..handled.written]);
    Progress {
        clock: handled.clock,
        taken,
        filled,
        next: Next::Write,
    }
}

// Stops with ERR 3: a journal that ends inside a record or has a LEN out of range.
fn stop_bad(output: &mut [u8], progress: Progress) -> Progress
    requires { progress.filled + max_frame ≤ length output.old }
    ensures told { result ≡ with_next (progress.filled + 9) Next.Stop progress }
    ensures left { output.new
        ≡ take progress.filled output.old ++ frame_of (err 3) ++ drop (progress.filled + 9) output.old }
{
    let number = Refusal::BadFrame.number();
    let written = write_err(number, &mut output[progress.filled..]).unwrap_or(0);
    Progress {
        filled: progress.filled + written,
        next: Next::Stop,
        ..progress
    }
}

// One record is answered, or there is none: then more input is wanted, or the replay stops.
fn turn(
    store: &mut [u8],
    input: &[u8],
    ended: bool,
    reply: &mut [u8],
    output: &mut [u8],
    progress: Progress,
) -> Progress
    requires { Fits input.now output.old progress }
    ensures { Leaves
        (turn ended input.now (replay_of store.old reply.old output.old progress))
        output.old result store.new reply.new output.new }
{
    match cut_record(&input[progress.taken..]) {
        Cut::Record { time, end } => answer(store, input, reply, output, progress, time, end),
        Cut::Broken => stop_bad(output, progress),
        Cut::Short if ended => stop_bad(output, progress),
        Cut::End if ended => Progress {
            next: Next::Stop,
            ..progress
        },
        Cut::Short => Progress {
            next: Next::Read,
            ..progress
        },
        Cut::End => Progress {
            next: Next::Read,
            ..progress
        },
    }
}

// Answers the records of the input while there is a whole one and room for its reply. `ended` says
// that no more input follows.
pub fn advance(
    store: &mut [u8],
    clock: Clock,
    input: &[u8],
    ended: bool,
    reply: &mut [u8],
    output: &mut [u8],
) -> Progress
    ensures { Advances
        store.old clock input.now ended reply.old output.old
        result store.new reply.new output.new }
{
    let room = output.len();
    let mut progress = Progress {
        clock,
        taken: 0,
        filled: 0,
        next: Next::Write,
    };
    // a turn takes what there is of a record: it counts no index
    while goes_on(progress, room) {
        progress = turn(store, input, ended, reply, output, progress);
    }
    progress
}
