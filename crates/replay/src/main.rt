// Replays a journal from standard input against one store, and writes each reply frame to standard
// output.
// The library answers the records: here bytes are only read, moved and written.
#![tactic(auto)]

ghost use Rattle.std.specs.Prelude.{◌+◌, ◌≤◌, ◌<◌, ◌≡◌, ◌++◌, length, take, drop};
ghost use Rattle.wire.specs.Fill.{field};
ghost use Rattle.replayer.specs.Replies.{start};
ghost use Rattle.replay.specs.State.{Fits, Refilled, past_call, CanGoOn, GoesOn, state_of, TurnIsOneCall};

use clock::Clock;
use image::layout::MAX_SLOTS;
use replayer::{Next, Progress, advance};
use std::io::{Read, Write};
use std::ops::ControlFlow;
use wire::Span;

// The input bytes of `rest` are not yet taken. `ended` says that no more follow.
#[derive(Clone, Copy, PartialEq, Eq, Debug)]
struct State {
    clock: Clock,
    rest: Span,
    ended: bool,
}

// Moves a part of the buffer to its front; later bytes stay.
fn move_to_front(buffer: &mut [u8], part: Span)
    requires { part.at + part.len ≤ length buffer.old }
    ensures { buffer.new ≡ field part.at part.len buffer.old ++ drop part.len buffer.old }
{
    buffer.copy_within(part.at..part.at + part.len, 0);
}

// Reads more input behind the first `kept` bytes, which stay, and answers how many bytes came.
// There is room for one, so 0 is the end. A read that fails counts as the end.
fn read_more<R: Read>(reader: &mut R, input: &mut [u8], kept: usize) -> usize
    requires { kept < length input.old }
    ensures counted { result + kept ≤ length input.old }
    ensures left { take kept input.new ≡ take kept input.old }
{
    reader.read(&mut input[kept..]).unwrap_or(0)
}

// Reads on behind the bytes that are left, which are moved to the front.
fn refill<R: Read>(reader: &mut R, input: &mut [u8], state: State) -> State
    requires { (state.rest.at + state.rest.len ≤ length input.old) × (state.rest.len < length input.old) }
    ensures { Refilled input.old state result input.new }
{
    let kept = state.rest.len;
    move_to_front(input, state.rest);
    let got = read_more(reader, input, kept);
    State {
        rest: Span {
            at: 0,
            len: kept + got,
        },
        ended: got == 0,
        ..state
    }
}

// The state past a call.
fn past(state: State, progress: Progress) -> State
    requires { (progress.taken ≤ state.rest.len) × (state.rest.at + state.rest.len ≤ 65536) }
    ensures { result ≡ past_call state progress }
{
    State {
        clock: progress.clock,
        rest: Span {
            at: state.rest.at + progress.taken,
            len: state.rest.len - progress.taken,
        },
        ..state
    }
}

// Does what a call asks for once its replies are written.
fn go_on<R: Read>(
    reader: &mut R,
    input: &mut [u8],
    state: State,
    progress: Progress,
) -> ControlFlow<State, State>
    requires { CanGoOn input.old state progress }
    ensures { GoesOn progress.next input.old state progress result input.new }
{
    let next = past(state, progress);
    match progress.next {
        Next::Read => ControlFlow::Continue(refill(reader, input, next)),
        Next::Write => ControlFlow::Continue(next),
        Next::Stop => ControlFlow::Break(next),
    }
}

// Answers what has come, writes the replies, and then goes on. A write that fails ends the replay.
// Six things are lent, each used once: a struct of them would be taken apart here, so it is no
// plainer.
fn turn<R: Read, W: Write>(
    reader: &mut R,
    writer: &mut W,
    store: &mut [u8],
    reply: &mut [u8],
    input: &mut [u8],
    output: &mut [u8],
    state: State,
) -> ControlFlow<State, State>
    requires { Fits input.old output.old state }
    ensures within { Fits input.new output.new (state_of result) }
    ensures called { TurnIsOneCall
        store.old reply.old input.old state
        store.new reply.new input.new result }
{
    let came = state.rest.of(input);
    let progress = advance(store, state.clock, came, state.ended, reply, output);
    let written = writer.write_all(&output[..progress.filled]);
    if written.is_err() {
        return ControlFlow::Break(past(state, progress));
    }
    go_on(reader, input, state, progress)
}

// A proved loop has to end, and nothing says that the input does, so the turns are counted,
// up to a number that no run reaches.
fn run<R: Read, W: Write>(reader: &mut R, writer: &mut W, store: &mut [u8], reply: &mut [u8])
    requires { (store.old ≡ start.store) × (reply.old ≡ start.reply) }
{
    let mut input = [0; 65536];
    let mut output = [0; 65536];
    let mut state = State {
        clock: Clock::fresh(1),
        rest: Span { at: 0, len: 0 },
        ended: false,
    };
    for _ in 0..u64::MAX {
        let next = turn(reader, writer, store, reply, &mut input, &mut output, state);
        let ControlFlow::Continue(next) = next else {
            break;
        };
        state = next;
    }
}

fn main(rt: HostRuntime) {
    let mut store = [0; 59616];
    let mut reply = [0; 600];
    // a buffer of that length is always made a store
    let _ = store::create(&mut store, MAX_SLOTS);
    run(&mut rt.stdin(), &mut rt.stdout(), &mut store, &mut reply);
}
