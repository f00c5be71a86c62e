// The price ring: entries of a clock and two sums of prices (the original's states/oracle.rs). The pool says how far apart they are and how many
// it uses (document 02 (f)); 100 are always lent.
#![tactic(auto)]

ghost use Rattle.std.specs.Prelude.{◌≡◌, cond, ◌<◌, eqb, length};
ghost use Rattle.wide.specs.Value.{value};
ghost use Rattle.oracle.specs.Ring.{observation_num, ring_words, price, entry_at, outside, seen as seenOf, with_entry, next_index, head, observed};
ghost use Rattle.oracle.specs.Update.{answered, update as updateOf, stored_by, entry_of, after_of};
ghost use Rattle.oracle.specs.Stages.{sum_after, moved_entry};

use divide::price_x32;
use refusal::Refusal;
use wide::{U128, checked_mul, wrapping_add};

// So many entries are lent, whatever the ring's length.
pub const OBSERVATION_NUM: u64 = 100;
// Their numbers: a clock and the two halves of each sum.
pub const RING_WORDS: usize = 500;

// Where the entries stand: under `spacing` seconds since its clock the newest one is overwritten, and after `length` of them the first is written
// again.
#[derive(Clone, Copy, Default)]
pub struct Grid {
    pub spacing: u64,
    pub length: u64,
}

// The ring's head. `mark` is the original's last_update_timestamp. The entries are lent beside it, five numbers each.
#[derive(Clone, Copy, Default)]
pub struct Ring {
    pub index: u64,
    pub mark: u64,
    pub used: bool,
    pub grid: Grid,
}

// One entry, by value.
#[derive(Clone, Copy)]
pub struct Observation {
    pub clock: u64,
    pub sum0: U128,
    pub sum1: U128,
}

// What an update comes to, before anything is written: a head, with nothing to store, or a head and the entry to store at its index.
#[derive(Clone, Copy)]
pub enum Update {
    Kept(Ring),
    Stored(Ring, Observation),
}

// Price 0 is net1 × 2^32 / net0 rounded down, price 1 its mirror. With a net of 0 it is 0, as a whole-number quotient by 0 is.
#[tactic(auto, unfolding(crate::specs::Ring::price))]
pub fn token_price_x32(net: u64, other: u64) -> U128
    ensures { value result ≡ price net other }
{
    if net == 0 {
        return U128 { high: 0, low: 0 };
    }
    price_x32(other, net)
}

// One token's sum after some seconds at its price. Price × seconds past 2^128 − 1 is 8.
#[tactic(auto, using(crate::proofs::Sums::sum_past, crate::proofs::Sums::sum_fits))]
fn add_price(sum: U128, net: u64, other: u64, seconds: u64) -> Result<U128, Refusal>
    ensures { result ≡ sum_after (value sum) (price net other) seconds }
{
    let delta = checked_mul(token_price_x32(net, other), seconds).ok_or(Refusal::MATH_OVERFLOW)?;
    Ok(wrapping_add(sum, delta))
}

impl Grid {
    // The index after this one: length − 1 goes to 0.
    fn next_index(self, index: u64) -> u64
        requires { index < self.length }
        ensures { result ≡ next_index self index }
    {
        if index == self.length - 1 {
            0
        } else {
            index + 1
        }
    }
}

impl Observation {
    // What stands outside the ring, and at the first use before its clock.
    const ZERO: Observation = Observation {
        clock: 0,
        sum0: U128 { high: 0, low: 0 },
        sum1: U128 { high: 0, low: 0 },
    };

    // The entry at an index, five numbers from 5 × index on.
    #[tactic(auto, unfolding(crate::specs::Ring::entry_at))]
    fn read(entries: &[u64], index: u64) -> Observation
        requires { (length entries.now ≡ ring_words) × (index < observation_num) }
        ensures { entry_of result ≡ entry_at entries.now index }
    {
        let at = (5 * index) as usize;
        Observation {
            clock: entries[at],
            sum0: U128 {
                high: entries[at + 1],
                low: entries[at + 2],
            },
            sum1: U128 {
                high: entries[at + 3],
                low: entries[at + 4],
            },
        }
    }

    // Written at an index.
    #[tactic(auto, using(crate::proofs::Entries::with_halves))]
    fn write(self, entries: &mut [u64], index: u64)
        requires { (length entries.old ≡ ring_words) × (index < observation_num) }
        ensures { entries.new ≡ with_entry entries.old index (entry_of self) }
    {
        let at = (5 * index) as usize;
        entries[at] = self.clock;
        entries[at + 1] = self.sum0.high;
        entries[at + 2] = self.sum0.low;
        entries[at + 3] = self.sum1.high;
        entries[at + 4] = self.sum1.low;
    }
}

impl Update {
    // The head that it leaves.
    pub fn after(self) -> Ring
        ensures { result ≡ after_of self }
    {
        match self {
            Update::Kept(ring) | Update::Stored(ring, _) => ring,
        }
    }
}

// What an update has decided is written, whatever a refused one is told by: only `Stored` writes. A head outside the ring, which no update gives, writes nothing.
pub fn store<E: Drop>(entries: &mut [u64; RING_WORDS], update: Result<Update, E>)
    ensures { entries.new ≡ stored_by entries.old update }
{
    if let Ok(Update::Stored(ring, entry)) = update {
        if !ring.is_outside() {
            entry.write(entries, ring.index);
        }
    }
}

impl Ring {
    // The ring's first step: a length above 100, or an index at or past the length.
    fn is_outside(self) -> bool
        ensures { result ≡ outside self }
    {
        self.grid.length > OBSERVATION_NUM || self.index >= self.grid.length
    }

    // The newest entry, as an update sees it. Outside the ring nothing is read, and it is zeros.
    pub fn seen(self, entries: &[u64; RING_WORDS]) -> Observation
        ensures { entry_of result ≡ seenOf self entries.now }
    {
        if self.is_outside() {
            return Observation::ZERO;
        }
        Observation::read(entries, self.index)
    }

    // The head in use, at an index and a mark.
    fn at(self, index: u64, mark: u64) -> Ring
        ensures { result ≡ head self.grid index mark }
    {
        Ring {
            used: true,
            index,
            mark,
            grid: self.grid,
        }
    }

    // Its mark; a mark of 0 becomes the newest entry's clock.
    fn mark_or(self, entry_clock: u64) -> u64
        ensures { result ≡ cond (eqb self.mark 0) entry_clock self.mark }
    {
        if self.mark == 0 {
            entry_clock
        } else {
            self.mark
        }
    }

    // The sums as an entry: under `spacing` seconds since the newest one in its place and with its clock, else in the next place.
    fn move_on(self, newest: Observation, clock: u64, sum0: U128, sum1: U128) -> Update
        requires { (self.index < self.grid.length) × (newest.clock < clock) }
        ensures { result ≡ moved_entry self.grid self.index newest.clock clock sum0 sum1 }
    {
        if clock - newest.clock < self.grid.spacing {
            let overwritten = Observation {
                clock: newest.clock,
                sum0,
                sum1,
            };
            return Update::Stored(self.at(self.index, clock), overwritten);
        }
        let next = self.grid.next_index(self.index);
        Update::Stored(self.at(next, clock), Observation { clock, sum0, sum1 })
    }

    // What a clock and the nets before the swap come to. It decides, and writes nothing. Outside the ring it is 11. First use stores clock and zero
    // sums.
    #[tactic(auto, unfolding(crate::specs::Ring::observed, crate::specs::Ring::accepted_update, crate::specs::Stages::sum_after, refusal::specs::Tests::outcome))]
    pub fn observe(
        self,
        newest: Observation,
        clock: u64,
        net0: u64,
        net1: u64,
    ) -> Result<Update, Refusal>
        ensures { result ≡ observed self (entry_of newest) clock (price net0 net1) (price net1 net0) }
    {
        if self.is_outside() {
            return Err(Refusal::PANIC);
        }
        if !self.used {
            let first = Observation {
                clock,
                ..Observation::ZERO
            };
            return Ok(Update::Stored(self.at(self.index, clock), first));
        }
        let mark = self.mark_or(newest.clock);
        if clock <= mark || clock <= newest.clock {
            return Ok(Update::Kept(self.at(self.index, mark)));
        }
        let sum0 = add_price(newest.sum0, net0, net1, clock - mark)?;
        let sum1 = add_price(newest.sum1, net1, net0, clock - mark)?;
        Ok(self.move_on(newest, clock, sum0, sum1))
    }

    // The original's `ObservationState::update`: all is decided first, then stored.
    #[tactic(auto, unfolding(crate::specs::Update::update))]
    pub fn update(
        self,
        entries: &mut [u64; RING_WORDS],
        clock: u64,
        net0: u64,
        net1: u64,
    ) -> Result<Ring, Refusal>
        ensures { answered self result entries.new ≡ updateOf self entries.old clock (price net0 net1) (price net1 net0) }
    {
        let newest = self.seen(entries);
        let update = self.observe(newest, clock, net0, net1);
        store(entries, update);
        Ok(update?.after())
    }
}
