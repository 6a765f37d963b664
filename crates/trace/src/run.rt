// The run of the program, line by line.
ghost use Rattle.std.specs.Prelude.{◌≡◌, ◌<◌, min};
ghost use Rattle.channel.specs.Stepping.{step_of};
ghost use Rattle.trace.specs.LineByLine.{trace_at, lending, closed, running, stepped_on};
ghost use Rattle.trace.specs.Outcomes.{Loads, Begins, Leaves, Tells};

use crate::end::ended;
use crate::line::Line;
use crate::text::{end_line, refused_line, step_line};
use channel::Channel;
use word::{Level, Mode, Refusal, word_at};

// The most bytes that the program takes: 8,192 words.
pub const MOST_BYTES: usize = 32_768;

// What a run is about to tell: why there is none, the next step or its end, or nothing more.
#[derive(Clone, Copy)]
pub enum Stage {
    Refused { refusal: Refusal },
    Running,
    Over,
}

#[derive(Clone, Copy)]
pub struct Trace {
    pub stage: Stage,
    pub channel: Channel,
    pub steps: u32,
}

// A line, and the run after it.
#[derive(Clone, Copy)]
pub struct Told {
    pub line: Line,
    pub trace: Trace,
}

// Reads the words that bytes are, the lowest byte first, into the front of the lent ones, as many as
// there is room for, and answers how many.
pub fn words_in(bytes: &[u8], words: &mut [u32]) -> usize
    ensures { Loads bytes.now words.old result words.new }
{
    let count = words.len().min(bytes.len() / 4);
    for (place, word) in words[..count].iter_mut().enumerate() {
        *word = word_at(bytes, place);
    }
    count
}

// The run of an input of so many bytes, before its first step.
#[tactic(auto, unfolding(crate::specs::LineByLine::begin_of, word::specs::First::first, word::specs::Setting::refused_or, word::specs::First::choose))]
pub fn begin(bytes: usize) -> Trace
    ensures { Begins bytes result }
{
    let level = Level::NV40.number;
    let mode = Mode::NV04_STYLE.number;
    let opened = Channel::open(level, mode, 0, false, 0, 0xffff_ffff, &[]);
    if MOST_BYTES < bytes {
        let refusal = Refusal::SIZE;
        start(Stage::Refused { refusal }, opened.channel)
    } else if bytes % 4 != 0 {
        let refusal = Refusal::LENGTH;
        start(Stage::Refused { refusal }, opened.channel)
    } else {
        let put = opened.channel.set_put(bytes as u32);
        start(Stage::Running, put.channel)
    }
}

// A run of which no step is made.
fn start(stage: Stage, channel: Channel) -> Trace
    ensures { result ≡ trace_at stage channel 0 }
{
    Trace {
        stage,
        channel,
        steps: 0,
    }
}

// The next line of a run, over its words and the semaphore words. After the last it is empty.
#[tactic(auto, unfolding(crate::specs::LineByLine::by_stage))]
pub fn next_line(trace: Trace, words: &[u32], semaphores: &mut [u32]) -> Told
    ensures { Tells trace words.now semaphores.old result semaphores.new }
{
    match trace.stage {
        Stage::Refused { refusal } => trace.close(refused_line(refusal)),
        Stage::Running => trace.run(words, semaphores),
        Stage::Over => trace.close(Line::empty()),
    }
}

impl Trace {
    // A run's last line.
    fn close(self, line: Line) -> Told
        ensures { result ≡ closed self line }
    {
        Told {
            line,
            trace: Trace {
                stage: Stage::Over,
                ..self
            },
        }
    }

    // The end line where the run has ended, else the line of a further step.
    #[tactic(auto, using(crate::proofs::Telling::within_budget), unfolding(crate::specs::LineByLine::or_end))]
    fn run(self, words: &[u32], semaphores: &mut [u32]) -> Told
        ensures { Leaves (running self words.now semaphores.old) result semaphores.new }
    {
        match ended(self.channel, self.steps) {
            Some(end) => {
                let get = self.channel.pusher.get;
                let reference = self.channel.puller.reference;
                self.close(end_line(end, self.steps, get, reference))
            }
            None => self.step(words, semaphores),
        }
    }

    #[tactic(auto, unfolding(crate::specs::LineByLine::answered))]
    fn step(self, words: &[u32], semaphores: &mut [u32]) -> Told
        requires { self.steps < 65536 }
        ensures { Leaves (stepped_on self (step_of self.channel (lending words.now semaphores.old))) result semaphores.new }
    {
        let get = self.channel.pusher.get;
        let steps = self.steps + 1;
        let stepped = self.channel.step(words, &[], &[], semaphores, 0);
        match stepped.answer {
            Ok(event) => Told {
                line: step_line(steps, get, event),
                trace: Trace {
                    stage: Stage::Running,
                    channel: stepped.channel,
                    steps,
                },
            },
            Err(refusal) => self.close(refused_line(refusal)),
        }
    }
}
