// The C interface of the peer table and the ring, over numbers and slices of numbers: each function
// reads its arguments, calls the function that is proved below, and packs the answer.
#![tactic(auto)]

mod words;

ghost use Rattle.std.specs.Prelude.{◌≡◌, ℕ, [], ◌∷◌, ◌<◌, ◌≤◌, MatchOption, IfOk};
ghost use Rattle.peers.specs.declared.PeerTable.{PeerTable};
ghost use Rattle.entry.specs.Refusal.{refusal_number};
ghost use Rattle.peers.specs.Event.{fresh_answer, after_fresh, add_answer, after_add, heard_answer, after_heard, reported_answer, after_reported, tick_answer, after_tick};
ghost use Rattle.ring.specs.Place.{token_of, position_answer};
ghost use Rattle.ring.specs.Build.{build_answer, build_output};
ghost use Rattle.ring.specs.Sound.{sound_ring};
ghost use Rattle.frame.specs.Writing.{write_refusal, after_write};
ghost use Rattle.capi_words.specs.Result.{packed, flag as flag_of};
ghost use Rattle.capi_cluster.specs.Words.{table_words, table_of};
ghost use Rattle.capi_cluster.specs.Peers.{form_refusal, event_refusal, event_words, sound_words, ChangesBy, Notes};
ghost use Rattle.capi_cluster.specs.Ring.{refusal_in, given_in, answer_word, admission_of, owners_refusal, owners_bytes};

use capi_words::{byte_of, counted, done, flag, refused};
use entry::{Refusal, TIME_LIMIT};
use peers::{Admission, Changed, PeerTable};
use words::{TABLE_WORDS, is_table, put_table, read_table, table_of};

// ---- The peer table

// The table of an event, after what comes before its own checks: the time, then the table's form.
#[tactic(auto, unfolding(crate::specs::Peers::form_refusal))]
fn table_at(time: u64, table: &[u64]) -> Result<PeerTable, Refusal>
    ensures told { refusal_number result ≡ form_refusal time table.now }
    ensures table { IfOk result (λ t. t ≡ table_of table.now) }
{
    if TIME_LIMIT <= time {
        return Err(Refusal::BadTime);
    }
    table_of(table).ok_or(Refusal::BadArgument)
}

// An event on the table that words stand for: `change` hands back the table after it, which is the
// one that came in if the event is refused.
fn event<F: FnOnce(PeerTable) -> Changed>(time: u64, words: &mut [u64], change: F) -> u32
    requires { F.IsAlwaysCallable change }
    ensures { (answer : PeerTable → ℕ) (after : PeerTable → PeerTable) → ChangesBy (F.post change) answer after → Notes time answer after words.old result words.new }
{
    match table_at(time, words) {
        Err(why) => refused(why),
        Ok(peers) => {
            let changed = change(peers);
            put_table(changed.table, words);
            done(changed.answer)
        }
    }
}

// A table with the own row alone.
#[unsafe(no_mangle)]
pub extern "C" fn sp_peers_fresh(
    id: u8,
    address: u32,
    port: u16,
    incarnation: u32,
    time: u64,
    table: &mut [u64],
) -> u32
    ensures told { result ≡ packed (write_refusal (fresh_answer time) (table_words (after_fresh id address port incarnation time)) table.old) 0 }
    ensures left { table.new ≡ after_write (fresh_answer time) (table_words (after_fresh id address port incarnation time)) table.old }
{
    let made = PeerTable::fresh(id, address, port, incarnation, time);
    match made.answer {
        Err(why) => refused(why),
        Ok(()) => {
            if table.len() < TABLE_WORDS {
                return refused(Refusal::NoRoom);
            }
            put_table(made.table, table);
            0
        }
    }
}

// Adds a peer.
#[unsafe(no_mangle)]
pub extern "C" fn sp_peers_add(
    id: u8,
    address: u32,
    port: u16,
    incarnation: u32,
    time: u64,
    table: &mut [u64],
) -> u32
    ensures told { result ≡ packed (event_refusal time (add_answer id time) table.old) 0 }
    ensures left { table.new ≡ event_words time (after_add id address port incarnation time) table.old }
{
    event(
        time,
        table,
        |peers| peers.add(id, address, port, incarnation, time),
    )
}

// A peer was heard directly.
#[unsafe(no_mangle)]
pub extern "C" fn sp_peers_heard(id: u8, incarnation: u32, time: u64, table: &mut [u64]) -> u32
    ensures told { result ≡ packed (event_refusal time (heard_answer id incarnation time) table.old) 0 }
    ensures left { table.new ≡ event_words time (after_heard id incarnation time) table.old }
{
    event(time, table, |peers| peers.heard(id, incarnation, time))
}

// Another peer reported a peer's state.
#[unsafe(no_mangle)]
pub extern "C" fn sp_peers_reported(
    id: u8,
    state: u32,
    incarnation: u32,
    time: u64,
    table: &mut [u64],
) -> u32
    ensures told { result ≡ packed (event_refusal time (reported_answer id state incarnation time) table.old) 0 }
    ensures left { table.new ≡ event_words time (after_reported id state incarnation time) table.old }
{
    let said = byte_of(state);
    event(
        time,
        table,
        |peers| peers.reported(id, said, incarnation, time),
    )
}

// Time has passed.
#[unsafe(no_mangle)]
pub extern "C" fn sp_peers_tick(time: u64, table: &mut [u64]) -> u32
    ensures told { result ≡ packed (event_refusal time (tick_answer time) table.old) 0 }
    ensures left { table.new ≡ event_words time (after_tick time) table.old }
{
    event(time, table, |peers| peers.tick(time))
}

#[unsafe(no_mangle)]
pub extern "C" fn sp_peers_is_sound(table: &[u64]) -> u32
    ensures { result ≡ flag_of (sound_words table.now) }
{
    if !is_table(table) {
        return 0;
    }
    flag(read_table(table).is_sound())
}

// ---- The ring

// The token of a node's vnode.
#[unsafe(no_mangle)]
pub extern "C" fn sp_token(node: u8, vnode: u8, salt: u32) -> u32
    ensures { result ≡ token_of node vnode salt }
{
    ring::token(node, vnode, salt)
}

// A key's ring position, written to the first word.
#[unsafe(no_mangle)]
pub extern "C" fn sp_key_position(key: &[u8], salt: u32, position: &mut [u32]) -> u32
    ensures told { result ≡ packed (write_refusal (refusal_in (position_answer key.now salt)) (given_in (position_answer key.now salt) ∷ []) position.old) 0 }
    ensures left { position.new ≡ after_write (refusal_in (position_answer key.now salt)) (given_in (position_answer key.now salt) ∷ []) position.old }
{
    match ring::key_position(key, salt) {
        Err(why) => refused(why),
        Ok(at) => {
            if position.len() < 1 {
                return refused(Refusal::NoRoom);
            }
            position[0] = at;
            0
        }
    }
}

// The places of some ids, at the front of `ring`.
#[unsafe(no_mangle)]
pub extern "C" fn sp_ring_build(ids: &[u8], vnodes: u32, salt: u32, ring: &mut [u64]) -> u32
    ensures told { result ≡ answer_word (build_answer ids.now vnodes ring.old) }
    ensures left { ring.new ≡ build_output ids.now vnodes salt ring.old }
{
    counted(ring::build(ids, byte_of(vnodes), salt, ring))
}

#[unsafe(no_mangle)]
pub extern "C" fn sp_ring_is_sound(ring: &[u64]) -> u32
    ensures { result ≡ flag_of (sound_ring ring.now) }
{
    flag(ring::is_sound(ring))
}

// 0 is HOME, 1 is STANDING, and another number no admission. `Admission` is of
// another crate, so this is no `TryFrom`.
fn admission_of(number: u32) -> Option<Admission>
    ensures { MatchOption result (2 ≤ number) (λ a. (number < 2) × (a ≡ admission_of number)) }
{
    match number {
        0 => Some(Admission::Home),
        1 => Some(Admission::Standing),
        _ => None,
    }
}

// The owners of a position, at the front of `out`.
#[unsafe(no_mangle)]
pub extern "C" fn sp_owners(
    ring: &[u64],
    table: &[u64],
    position: u32,
    admission: u32,
    count: u32,
    out: &mut [u8],
) -> u32
    ensures told { result ≡ packed (owners_refusal ring.now table.now admission count out.old) 0 }
    ensures left { out.new ≡ owners_bytes ring.now table.now position admission count out.old }
{
    let Some(who) = admission_of(admission) else {
        return refused(Refusal::BadArgument);
    };
    let Some(peers) = table_of(table) else {
        return refused(Refusal::BadArgument);
    };
    let wanted = byte_of(count);
    done(ring::owners(ring, peers, position, who, wanted, out))
}
