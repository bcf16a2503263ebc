// The peer table: each peer's address, state and when it was last seen. A table goes in by value
// and each event hands it back changed.
#![tactic(auto)]

ghost use Rattle.std.specs.Prelude.{◌≡◌, ◌==◌, Some, position, IfOk};
ghost use Rattle.entry.specs.Refusal.{number, refusal_number};
ghost use Rattle.peers.specs.Row.{age_at, in_range, new_row, heard_row, reported_row, tick_row};
ghost use Rattle.peers.specs.Table.{rows_of, has_row, sound_table, rows_in_range, distinct, on_others};
ghost use Rattle.peers.specs.Admitted.{admits_row, admitted_flags};
ghost use Rattle.peers.specs.Event.{Gives, with_rows, fresh_answer, after_fresh, add_answer, after_add};
ghost use Rattle.peers.specs.Event.{heard_answer, after_heard, reported_answer, after_reported, tick_answer, after_tick};

use entry::{Refusal, TIME_LIMIT};

// What is thought of a peer.
pub const ALIVE: u8 = 0;

pub const SUSPECT: u8 = 1;

pub const DOWN: u8 = 2;
// The most rows that a table holds.
pub const MAX_ROWS: u8 = 10;
// The ages, in milliseconds, from which a tick makes a peer SUSPECT and DOWN.
pub const SUSPECT_AGE: u64 = 5_000;

pub const DOWN_AGE: u64 = 15_000;

// What is held of a peer. The C interface may give any state, so it is a number.
#[derive(Clone, Copy, Debug, PartialEq, Eq)]
pub struct Row {
    pub id: u8,
    pub address: u32,
    pub port: u16,
    pub state: u8,
    pub incarnation: u32,
    pub last_seen: u64,
}

// The rows below `count` are the table's; the own row is the first. An array with its count, since
// the rules name this form and any count may be given.
#[derive(Clone, Copy, Debug, PartialEq, Eq)]
pub struct PeerTable {
    pub rows: [Row; 10],
    pub count: u8,
}

// The table after an event, and the event's answer. A refused event hands back the table that came
// in.
#[derive(Clone, Copy, Debug, PartialEq, Eq)]
pub struct Changed {
    pub table: PeerTable,
    pub answer: Result<(), Refusal>,
}

// Which peers the owner walk may take: every peer with a row, or those not DOWN.
#[derive(Clone, Copy, Debug, PartialEq, Eq)]
pub enum Admission {
    Home,
    Standing,
}

// A flag for each id.
pub type Flags = [bool; 256];

// How long ago `seen` was, 0 if `now` is earlier.
#[tactic(auto, unfolding(crate::specs::Row::age_at))]
fn age(seen: u64, now: u64) -> u64
    ensures { result ≡ age_at seen now }
{
    now.saturating_sub(seen)
}

impl Row {
    // A row past the last.
    pub const NONE: Row = Row {
        id: 0,
        address: 0,
        port: 0,
        state: 0,
        incarnation: 0,
        last_seen: 0,
    };

    fn new(id: u8, address: u32, port: u16, incarnation: u32, now: u64) -> Row
        ensures { result ≡ new_row id address port incarnation now }
    {
        Row {
            id,
            address,
            port,
            state: ALIVE,
            incarnation,
            last_seen: now,
        }
    }

    #[tactic(auto, unfolding(crate::specs::Row::in_range))]
    fn is_in_range(self) -> bool
        ensures { result ≡ in_range self }
    {
        self.state <= DOWN && self.last_seen < TIME_LIMIT
    }

    #[tactic(auto, unfolding(crate::specs::Row::heard_row))]
    fn heard(mut self, incarnation: u32, now: u64) -> Row
        ensures { result ≡ heard_row incarnation now self }
    {
        self.state = ALIVE;
        self.incarnation = incarnation;
        self.last_seen = self.last_seen.max(now);
        self
    }

    #[tactic(auto, unfolding(crate::specs::Row::reported_row))]
    fn reported(mut self, state: u8, incarnation: u32, now: u64) -> Row
        ensures { result ≡ reported_row state incarnation now self }
    {
        if self.incarnation < incarnation {
            self.incarnation = incarnation;
            self.state = state;
            if state == ALIVE {
                self.last_seen = self.last_seen.max(now);
            }
            return self;
        }
        self.state = self.state.max(state);
        self
    }

    #[tactic(auto, unfolding(crate::specs::Row::tick_row, crate::specs::Row::tick_state))]
    fn ticked(mut self, now: u64) -> Row
        ensures { result ≡ tick_row now self }
    {
        let age = age(self.last_seen, now);
        if DOWN_AGE <= age {
            self.state = DOWN;
            return self;
        }
        if SUSPECT_AGE <= age {
            if self.state == ALIVE {
                self.state = SUSPECT;
            }
        }
        self
    }

    fn is_admitted(self, admission: Admission) -> bool
        ensures { result ≡ admits_row admission self }
    {
        match admission {
            Admission::Home => true,
            Admission::Standing => self.state != DOWN,
        }
    }
}

// Whether a row has the id.
fn has_id(rows: &[Row], id: u8) -> bool
    ensures { result ≡ has_row id rows.now }
{
    rows.iter().any(|row| row.id == id)
}

impl PeerTable {
    fn refused(self, why: Refusal) -> Changed
        ensures { Gives result self (number why) }
    {
        Changed {
            table: self,
            answer: Err(why),
        }
    }

    fn done(self) -> Changed
        ensures { Gives result self 0 }
    {
        Changed {
            table: self,
            answer: Ok(()),
        }
    }

    // The table's rows: all ten if its count is over 10.
    fn listed(&self) -> &[Row]
        ensures { result.now ≡ rows_of self.now }
    {
        let count = self.count.min(MAX_ROWS);
        &self.rows[..usize::from(count)]
    }

    // Where the first row of this id stands.
    fn place_of(&self, id: u8) -> Option<usize>
        ensures { result ≡ position (λ r. r.id == id) (rows_of self.now) }
    {
        self.listed().iter().position(|row| row.id == id)
    }

    fn ids_are_distinct(&self) -> bool
        ensures { result ≡ distinct (rows_of self.now) }
    {
        let rows = self.listed();
        for (i, row) in rows.iter().enumerate() {
            if has_id(&rows[i + 1..], row.id) {
                return false;
            }
        }
        true
    }

    fn rows_are_in_range(&self) -> bool
        ensures { result ≡ rows_in_range (rows_of self.now) }
    {
        self.listed().iter().all(|row| row.is_in_range())
    }

    #[tactic(auto, unfolding(crate::specs::Table::sound_table), using(crate::proofs::Sound::own_state))]
    pub fn is_sound(self) -> bool
        ensures { result ≡ sound_table self }
    {
        if self.count == 0 || MAX_ROWS < self.count {
            return false;
        }
        self.ids_are_distinct() && self.rows[0].state == ALIVE && self.rows_are_in_range()
    }

    // A table with the own row alone; a table with no row if it is refused. A row's fields are given
    // one by one, here and in `add`: a `Row` has a state and a time last seen too, which are not
    // given.
    #[tactic(auto, unfolding(crate::specs::Event::after_fresh, crate::specs::Event::fresh_table, crate::specs::Event::fresh_answer, crate::specs::Event::unless_refused))]
    pub fn fresh(id: u8, address: u32, port: u16, incarnation: u32, now: u64) -> Changed
        ensures { Gives result (after_fresh id address port incarnation now) (fresh_answer now) }
    {
        let mut rows = [Row::NONE; 10];
        if TIME_LIMIT <= now {
            let empty = PeerTable { rows, count: 0 };
            return empty.refused(Refusal::BadTime);
        }
        rows[0] = Row::new(id, address, port, incarnation, now);
        let table = PeerTable { rows, count: 1 };
        table.done()
    }

    #[tactic(auto, unfolding(crate::specs::Event::after_add, crate::specs::Event::added_table, crate::specs::Event::add_answer, crate::specs::Event::unless_refused))]
    pub fn add(mut self, id: u8, address: u32, port: u16, incarnation: u32, now: u64) -> Changed
        ensures { Gives result (after_add id address port incarnation now self) (add_answer id now self) }
    {
        if TIME_LIMIT <= now {
            return self.refused(Refusal::BadTime);
        }
        if !self.is_sound() {
            return self.refused(Refusal::BadArgument);
        }
        if has_id(self.listed(), id) {
            return self.refused(Refusal::PeerKnown);
        }
        if MAX_ROWS <= self.count {
            return self.refused(Refusal::TableFull);
        }
        self.rows[usize::from(self.count)] = Row::new(id, address, port, incarnation, now);
        self.count += 1;
        self.done()
    }

    // The checks of an event about a peer with a row: 9, 17, 15, 11 and 12. Where that row stands.
    #[tactic(auto, unfolding(crate::specs::Event::reported_answer, crate::specs::Event::row_answer))]
    fn judge(&self, id: u8, state: u8, incarnation: u32, now: u64) -> Result<usize, Refusal>
        ensures told { refusal_number result ≡ reported_answer id state incarnation now self.now }
        ensures place { IfOk result (λ k. Some k ≡ position (λ r. r.id == id) (rows_of self.now)) }
    {
        if TIME_LIMIT <= now {
            return Err(Refusal::BadTime);
        }
        if DOWN < state || !self.is_sound() {
            return Err(Refusal::BadArgument);
        }
        let Some(at) = self.place_of(id) else {
            return Err(Refusal::UnknownPeer);
        };
        if at == 0 {
            return Err(Refusal::OwnPeer);
        }
        if incarnation < self.rows[at].incarnation {
            return Err(Refusal::Stale);
        }
        Ok(at)
    }

    // A peer was heard directly.
    pub fn heard(mut self, id: u8, incarnation: u32, now: u64) -> Changed
        ensures { Gives result (after_heard id incarnation now self) (heard_answer id incarnation now self) }
    {
        match self.judge(id, ALIVE, incarnation, now) {
            Err(why) => self.refused(why),
            Ok(at) => {
                self.rows[at] = self.rows[at].heard(incarnation, now);
                self.done()
            }
        }
    }

    // Another peer reported a peer's state. This and `heard` differ in one call: one function for
    // both would take it as a closure with its clause, so it is no plainer.
    pub fn reported(mut self, id: u8, state: u8, incarnation: u32, now: u64) -> Changed
        ensures { Gives result (after_reported id state incarnation now self) (reported_answer id state incarnation now self) }
    {
        match self.judge(id, state, incarnation, now) {
            Err(why) => self.refused(why),
            Ok(at) => {
                self.rows[at] = self.rows[at].reported(state, incarnation, now);
                self.done()
            }
        }
    }

    // Every row but the own, ticked.
    fn ticked(mut self, now: u64) -> PeerTable
        ensures { result ≡ with_rows (on_others (tick_row now)) self }
    {
        for i in 1..self.listed().len() {
            self.rows[i] = self.rows[i].ticked(now);
        }
        self
    }

    // Time has passed.
    #[tactic(auto, unfolding(crate::specs::Event::after_tick, crate::specs::Event::tick_answer, crate::specs::Event::unless_refused))]
    pub fn tick(self, now: u64) -> Changed
        ensures { Gives result (after_tick now self) (tick_answer now self) }
    {
        if TIME_LIMIT <= now {
            return self.refused(Refusal::BadTime);
        }
        if !self.is_sound() {
            return self.refused(Refusal::BadArgument);
        }
        self.ticked(now).done()
    }

    // For each id, whether it is admitted.
    pub fn admitted(self, admission: Admission) -> Flags
        ensures { result ≡ admitted_flags admission self }
    {
        let mut flags = [false; 256];
        for row in self.listed() {
            if row.is_admitted(admission) {
                flags[usize::from(row.id)] = true;
            }
        }
        flags
    }
}
