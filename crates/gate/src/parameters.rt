// The parameters of a command: how many there are, and which methods they go to.
ghost use Rattle.std.specs.Prelude.{◌≡◌, true, false, ◌&&◌, ℕ, ◌+◌, ltb};
ghost use Rattle.word.specs.Reading.{parameter_count};
ghost use Rattle.word.specs.Special.{present_of};
ghost use Rattle.rules.specs.Permit.{permits};
ghost use Rattle.rules.specs.Parameters.{methods_of, method_for, any_fails};

use crate::permit::permitted;
use rules::Methods;
use word::{Reading, Setting, present};

// How many parameters follow a command: only a run has any.
#[tactic(auto, unfolding(word::specs::Reading::parameter_count))]
pub(crate) fn parameter_count(command: Reading) -> u32
    ensures { result ≡ parameter_count command }
{
    match command {
        Reading::Increasing { count, .. } => count,
        Reading::NonIncreasing { count, .. } => count,
        Reading::Long { count, .. } => count,
        _ => 0,
    }
}

// The parameters of a command, taken apart.
#[derive(Clone, Copy)]
pub(crate) struct Parameters {
    pub(crate) count: u32,
    methods: Methods,
}

impl Parameters {
    pub(crate) fn of(command: Reading) -> Parameters
        ensures count { result.count ≡ parameter_count command }
        ensures methods { result.methods ≡ methods_of command }
    {
        Parameters {
            count: parameter_count(command),
            methods: methods_of(command),
        }
    }

    // Whether they go past 0x1ffc, to method 0, where there are any: only where the methods rise.
    #[tactic(auto, unfolding(rules::specs::Parameters::wraps))]
    pub(crate) fn wrap(&self) -> bool
        ensures { result ≡ self.now.methods.increasing && ltb 2048 (self.now.methods.method + self.now.count) }
    {
        self.methods.increasing && 2048 < self.methods.method as u64 + self.count as u64
    }

    // Whether none goes to a method below 0x100: the first one's is above, and they don't wrap.
    #[tactic(auto, using(rules::proofs::MethodLaws::above_special))]
    fn none_special(&self) -> bool
        ensures { result ≡ true → (level : ℕ) → any_fails (present_of level) self.now.methods self.now.count ≡ false }
    {
        0x40 <= self.methods.method && !self.wrap()
    }

    // Whether the level lacks the method of any. Most runs have none that is special.
    #[tactic(auto, using(rules::proofs::MethodLaws::method_met, rules::proofs::MethodLaws::method_onward, rules::proofs::MethodLaws::methods_fine, rules::proofs::Scans::outset))]
    pub(crate) fn any_lacking(&self, setting: Setting) -> bool
        ensures { result ≡ any_fails (present_of setting.level.number) self.now.methods self.now.count }
    {
        if self.none_special() {
            return false;
        }
        for k in 0..self.count {
            if !present(setting.level, method_for(self.methods, k)) {
                return true;
            }
        }
        false
    }

    // Whether the list does not permit the method of any.
    #[tactic(auto, using(rules::proofs::MethodLaws::method_met, rules::proofs::MethodLaws::method_onward, rules::proofs::MethodLaws::methods_fine, rules::proofs::Scans::outset))]
    pub(crate) fn any_denied(&self, permit: &[u8]) -> bool
        ensures { result ≡ any_fails (permits permit.now self.now.methods.subchannel) self.now.methods self.now.count }
    {
        for k in 0..self.count {
            if !permitted(permit, self.methods.subchannel, method_for(self.methods, k)) {
                return true;
            }
        }
        false
    }
}

// The methods that they go to.
#[tactic(auto, unfolding(rules::specs::Parameters::methods_of))]
fn methods_of(command: Reading) -> Methods
    ensures { result ≡ methods_of command }
{
    match command {
        Reading::Increasing {
            subchannel,
            method,
            ..
        } => Methods {
            subchannel,
            method: method / 4,
            increasing: true,
        },
        Reading::NonIncreasing {
            subchannel,
            method,
            ..
        } => Methods {
            subchannel,
            method: method / 4,
            increasing: false,
        },
        Reading::Long {
            subchannel,
            method,
            ..
        } => Methods {
            subchannel,
            method: method / 4,
            increasing: false,
        },
        _ => Methods {
            subchannel: 0,
            method: 0,
            increasing: false,
        },
    }
}

// The number of the method that parameter k, from 0, goes to.
#[tactic(auto, unfolding(rules::specs::Parameters::method_for, word::specs::First::choose))]
fn method_for(methods: Methods, k: u32) -> u32
    ensures { result ≡ method_for methods k }
{
    if methods.increasing {
        return ((methods.method as u64 + k as u64) % 2048) as u32;
    }
    methods.method
}
