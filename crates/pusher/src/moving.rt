// One move of the pusher.
ghost use Rattle.std.specs.Prelude.{◌≡◌, ℕ, ◌+◌, ◌≤◌, ◌<◌};
ghost use Rattle.word.specs.declared.reading.Reading.TheVariants.{Long};
ghost use Rattle.word.specs.Promises.{Within};
ghost use Rattle.pusher.specs.Loan.{PusherLoan, to_pusher, with_words, with_entries};
ghost use Rattle.pusher.specs.Moving.{word_role, entry_role, act, quietly, failed_by, advanced, counted, parameter_of, used_up, commanded, awaiting, begun, conditional, jumped, called, returned, next_index, prepared};
ghost use Rattle.pusher.specs.Outcomes.{Moves};

use crate::entry::Entry;
use crate::record::{Pusher, PusherError, Setup};
use event::{Event, Kind, Method};
use word::{Mode, Reading, Why, present, read};

// What a move did: an event by itself, or a method submitted to the puller.
#[derive(Clone, Copy)]
pub enum Did {
    Event { event: Event },
    Submit { method: Method },
}

#[derive(Clone, Copy)]
pub struct Pushed {
    pub pusher: Pusher,
    pub did: Did,
}

// Reads one word where the read address is not put, else one IB entry where there is one; stopped
// by its error, or idle, it changes nothing. A setting that is refused has reserved words only.
#[tactic(auto, unfolding(crate::specs::Moving::push_of, crate::specs::Moving::role, crate::specs::Moving::act, word::specs::First::choose))]
pub fn push(setup: Setup, pusher: Pusher, words: &[u32], entries: &[u64]) -> Pushed
    ensures { Moves setup pusher (to_pusher words.now entries.now) result }
{
    if pusher.stopped() {
        return pusher.quiet(Kind::Stopped);
    }
    if pusher.get != pusher.put {
        return pusher.word(setup, words);
    }
    if setup.setting.mode != Mode::IB || pusher.ib.get == pusher.ib.put {
        return pusher.quiet(Kind::Idle);
    }
    pusher.entry(setup, entries)
}

impl Pusher {
    fn quiet(self, kind: Kind) -> Pushed
        ensures { result ≡ quietly self kind }
    {
        Pushed {
            pusher: self,
            did: Did::Event {
                event: Event::Plain { kind },
            },
        }
    }

    fn failed(self, error: PusherError) -> Pushed
        ensures { result ≡ failed_by self error }
    {
        self.with_error(error).quiet(Kind::Error)
    }

    // Reads the word at the read address, unless that is above the limit, which counts in NV04-style
    // alone, or beyond the lent words, whatever else is lent.
    #[tactic(auto, using(word::proofs::Promises::widths), unfolding(crate::specs::Moving::act, crate::specs::Moving::word_role, crate::specs::Moving::advanced, word::specs::First::choose))]
    fn word(self, setup: Setup, words: &[u32]) -> Pushed
        ensures { (l : PusherLoan) → result ≡ act setup self (with_words l words.now) (word_role setup self words.now) }
    {
        if setup.setting.mode != Mode::IB && (setup.limit as u64) < self.get {
            return self.failed(PusherError::Protection);
        }
        let Some(&word) = words.get((self.get / 4) as usize) else {
            return self.failed(PusherError::Protection);
        };
        let next = self.advance(setup);
        if self.run.awaited {
            return next.count(word);
        }
        if self.run.count != 0 {
            return next.parameter(setup, word);
        }
        next.command(read(setup.setting, word, 0))
    }

    // The advance (S11), which can't overflow behind a lent word; in IB mode dma_mget follows it where the
    // words are main (S12).
    #[tactic(auto, unfolding(crate::specs::Moving::advanced, word::specs::First::choose))]
    fn advance(mut self, setup: Setup) -> Pusher
        requires { self.get + 4 ≤ 0xffffffffffffffff }
        ensures { result ≡ advanced setup self }
    {
        self.get += 4;
        if setup.setting.mode == Mode::IB && !self.main.nonmain {
            self.main.mget = self.get;
            self.main.valid = true;
        }
        self
    }

    // A long form's count: the low 24 bits.
    #[tactic(auto, unfolding(crate::specs::Moving::counted))]
    fn count(mut self, word: u32) -> Pushed
        ensures { result ≡ counted self word }
    {
        self.run.count = word & 0xff_ffff;
        self.run.awaited = false;
        self.quiet(Kind::Count)
    }

    // A parameter: submits its method, or discards it where SLI says that it is not for this card. NON_CACHE
    // comes before that, and uses up neither count nor method.
    #[tactic(auto, unfolding(crate::specs::Moving::parameter_of, word::specs::First::choose))]
    fn parameter(self, setup: Setup, word: u32) -> Pushed
        requires { 1 ≤ self.run.count }
        ensures { result ≡ parameter_of setup self word }
    {
        let number = self.run.method as u32;
        if !present(setup.setting.level, number) {
            return self.failed(PusherError::NonCache);
        }
        let method = Method {
            subchannel: self.run.subchannel,
            method: 4 * number,
            parameter: word,
        };
        let did = if setup.setting.sli && !self.sli.active {
            Did::Event {
                event: Event::Of {
                    kind: Kind::Discard,
                    method,
                },
            }
        } else {
            Did::Submit { method }
        };
        Pushed {
            pusher: self.used_up(),
            did,
        }
    }

    // The run past a parameter.
    #[tactic(auto, unfolding(word::specs::First::choose))]
    fn used_up(mut self) -> Pusher
        requires { 1 ≤ self.run.count }
        ensures { result ≡ used_up self }
    {
        self.run.count -= 1;
        if self.run.increasing {
            self.run.method = self.run.method.wrapping_add(1) % 2048;
        }
        self
    }

    // A command word. Of a long form the count is still to be read.
    #[tactic(auto, unfolding(crate::specs::Moving::commanded))]
    fn command(self, reading: Reading) -> Pushed
        requires { Within reading }
        ensures { result ≡ commanded self reading }
    {
        let Reading::Long {
            subchannel,
            method,
            ..
        } = reading
        else {
            return self.one_word(reading);
        };
        self.await_count(subchannel, method)
    }

    // Every other command.
    #[tactic(auto, unfolding(crate::specs::Moving::commanded))]
    fn one_word(self, reading: Reading) -> Pushed
        requires { ((s m c : ℕ) → reading ≡ Long s m c → ⊥) × Within reading }
        ensures { result ≡ commanded self reading }
    {
        match reading {
            Reading::Increasing {
                count,
                subchannel,
                method,
            } => self.begin(count, subchannel, method, true),
            Reading::NonIncreasing {
                count,
                subchannel,
                method,
            } => self.begin(count, subchannel, method, false),
            Reading::Sli { mask } => self.condition(mask),
            Reading::Return => self.go_back(),
            Reading::OldJump { target } | Reading::Jump { target } => self.jump(target),
            Reading::Call { target } => self.call(target),
            Reading::Reserved { why } => self.failed(PusherError::ReservedCmd { why }),
            _ => self.failed(PusherError::ReservedCmd { why: Why::Form }),
        }
    }

    // A run of parameters. With count 0 it does nothing.
    #[tactic(auto, unfolding(crate::specs::Moving::begun, word::specs::First::choose))]
    fn begin(mut self, count: u32, subchannel: u32, method: u32, increasing: bool) -> Pushed
        requires { method < 0x2000 }
        ensures { result ≡ begun self count subchannel method increasing }
    {
        if count == 0 {
            return self.quiet(Kind::Command);
        }
        self.run.count = count;
        self.run.method = (method / 4) as u16;
        self.run.subchannel = subchannel;
        self.run.increasing = increasing;
        self.quiet(Kind::Command)
    }

    // A long form, whose count is still to be read.
    fn await_count(mut self, subchannel: u32, method: u32) -> Pushed
        requires { method < 0x2000 }
        ensures { result ≡ awaiting self subchannel method }
    {
        self.run.method = (method / 4) as u16;
        self.run.subchannel = subchannel;
        self.run.increasing = false;
        self.run.awaited = true;
        self.quiet(Kind::Command)
    }

    // An SLI conditional: what follows is for this card if a bit of its mask is the channel's too.
    #[tactic(auto, unfolding(crate::specs::Moving::conditional))]
    fn condition(mut self, mask: u32) -> Pushed
        ensures { result ≡ conditional self mask }
    {
        self.sli.active = mask & self.sli.mask != 0;
        self.quiet(Kind::Command)
    }

    fn jump(mut self, target: u32) -> Pushed
        ensures { result ≡ jumped self target }
    {
        self.get = target as u64;
        self.quiet(Kind::Command)
    }

    // The return address is the read address, which is past the call's word.
    #[tactic(auto, unfolding(crate::specs::Moving::called, word::specs::First::choose))]
    fn call(mut self, target: u32) -> Pushed
        ensures { result ≡ called self target }
    {
        if self.subroutine.active {
            return self.failed(PusherError::Call);
        }
        self.subroutine.active = true;
        self.subroutine.back = (self.get % 0x1_0000_0000) as u32;
        self.get = target as u64;
        self.quiet(Kind::Command)
    }

    #[tactic(auto, unfolding(crate::specs::Moving::returned, word::specs::First::choose))]
    fn go_back(mut self) -> Pushed
        ensures { result ≡ returned self }
    {
        if !self.subroutine.active {
            return self.failed(PusherError::Return);
        }
        self.get = self.subroutine.back as u64;
        self.subroutine.active = false;
        self.quiet(Kind::Command)
    }

    // Reads the IB entry at ib_get, unless that is past the lent entries, whatever else is lent.
    #[tactic(auto, using(crate::proofs::Entries::address_below, crate::proofs::Entries::size_below), unfolding(crate::specs::Moving::act, crate::specs::Moving::entry_role, crate::specs::Moving::entered, word::specs::First::choose))]
    fn entry(mut self, setup: Setup, entries: &[u64]) -> Pushed
        ensures { (l : PusherLoan) → result ≡ act setup self (with_entries l entries.now) (entry_role self entries.now) }
    {
        let Some(&entry) = entries.get(self.ib.get as usize) else {
            return self.failed(PusherError::Protection);
        };
        let entry = Entry::from(entry);
        self.ib.get = following(setup.order, self.ib.get);
        if entry.size == 0 {
            return self.failed(PusherError::Ib);
        }
        self.prepare(entry).quiet(Kind::Entry)
    }

    // The pushbuffer that an entry describes, ready to be read.
    #[tactic(auto, unfolding(crate::specs::Moving::prepared, word::specs::First::choose))]
    fn prepare(mut self, entry: Entry) -> Pusher
        requires { (entry.address < 0x10000000000) × (entry.size < 0x400000) }
        ensures { result ≡ prepared self entry }
    {
        self.get = entry.address;
        self.put = (entry.address + 4 * entry.size) % 0x100_0000_0000;
        self.main.nonmain = entry.nonmain;
        if !entry.nonmain {
            self.main.mget = entry.address;
        }
        self
    }
}

// The index after another. No opening takes an order above 12; it would count as 12.
#[tactic(auto, unfolding(crate::specs::Moving::next_index, word::specs::First::choose))]
fn following(order: u32, index: u32) -> u32
    ensures { result ≡ next_index order index }
{
    ((index as u64 + 1) % (1u64 << order.min(12))) as u32
}
