//! Requests for memory, refused in turn in a process of their own.
use super::call::{Call, Outcome};
use super::held::Held;
use super::judged::{Ample, judge};
use std::alloc::Global;
use std::env;
use std::process::{Command, Output};
use std::test::Fail;

/// Set in the process whose memory is limited.
const UNDER_A_LIMIT: &str = "DESK_MEMORY_LIMITED";

/// Set where nothing is to be run but the test itself.
const ONCE: &str = "DESK_CALLED_ONCE";

/// Runs one test with this many kibibytes of memory.
const LIMITED: &str = "ulimit -v 65536; exec \"$0\" \"$1\"";

/// By these words of the GNU library a block that is given back joins the free ones beside it at once. Where they are
/// not known, more must be given back before a call goes well.
const TUNABLES: &str = "glibc.malloc.tcache_count=0:glibc.malloc.mxfast=0";

/// How many steps must go well, one after another, before no request is refused any more.
const STEPS_THAT_GO_WELL: usize = 8;

/// By how many steps two calls may differ that ask for the same memory, which may be parted otherwise. A call that
/// copies a ledger takes over a hundred more.
const STEPS_OF_NO_COPY: usize = 32;

/// How many steps there are at most.
const MOST_STEPS: usize = 16384;

/// How many steps came to what.
#[derive(Clone, Copy, Debug, Default)]
struct Counts {
    refused: usize,
    faulted: usize,
    stopped: usize,
    lost: usize,
    ample: usize,
}

impl Counts {
    // One more of this outcome. Those that go well are counted from scratch after each other one.
    fn and(self, outcome: Outcome) -> Counts {
        let mut counts = self;
        match outcome {
            Outcome::Ample => counts.ample = counts.ample.saturating_add(1),
            Outcome::Refused => counts.refused = counts.refused.saturating_add(1),
            Outcome::Faulted => counts.faulted = counts.faulted.saturating_add(1),
            Outcome::Stopped => counts.stopped = counts.stopped.saturating_add(1),
            Outcome::Lost => counts.lost = counts.lost.saturating_add(1),
            Outcome::Other => {}
        }
        if outcome != Outcome::Ample {
            counts.ample = 0;
        }
        counts
    }

    // The call was refused for lack of memory, and never reported as a fault of the store instead. Without this a test
    // could pass in which no memory is held back.
    fn are_refusals(self) -> Result<(), Fail> {
        if self.refused == 0 {
            return Err(Fail::from("no request was refused"));
        }
        if self.faulted > 0 {
            return Err(Fail::from("a fault of the store, where memory was refused"));
        }
        Ok(())
    }

    // About as many steps were refused as these.
    fn are_about(self, others: Counts) -> Result<(), Fail> {
        if self.refused > others.refused.saturating_add(STEPS_OF_NO_COPY) {
            return Err(Fail::from("more memory was asked for"));
        }
        Ok(())
    }

    // The call always went well.
    fn are_ample(self) -> Result<(), Fail> {
        let others = [self.refused, self.faulted, self.stopped, self.lost];
        if others != [0; 4] {
            return Err(Fail::from("memory was asked for"));
        }
        Ok(())
    }
}

// Calls with this many small blocks of memory and no more, and judges what comes of it.
fn try_with<C: Call>(
    alloc: Global,
    call: &C,
    given: usize,
    reopens: bool,
    ample: &Ample,
) -> Result<Outcome, Fail> {
    let mut state = call.begin(alloc)?;
    let held = Held::all_but(alloc, given)?;
    let answer = call.call(alloc, &mut state);
    held.free();
    judge(alloc, call, state, &answer, reopens, ample)
}

// There is memory for no request, and then for more and more, by this many blocks a step: so each is refused that finds
// less than all before it have taken, and each after it that finds no room either. Gives how many steps came to what.
fn refuse_in_turn<C: Call>(
    rt: &HostRuntime,
    name: &str,
    call: &C,
    blocks: usize,
) -> Result<Counts, Fail> {
    let ample = Ample::of(rt.alloc(), call)?;
    let mut counts = Counts::default();
    for step in 0..MOST_STEPS {
        let given = step.saturating_mul(blocks);
        let outcome = try_with(rt.alloc(), call, given, step % 2 == 1, &ample)?;
        counts = counts.and(outcome);
        if counts.ample >= STEPS_THAT_GO_WELL {
            rt.println(format_args!("{name}: {step} steps of {blocks} blocks, {counts:?}"))?;
            return Ok(counts);
        }
    }
    Err(Fail::from("it never goes well"))
}

// Has a shell run the test of this name with limited memory.
fn add_arguments(rt: &HostRuntime, shell: &mut Command, name: &str) -> Result<(), Fail> {
    shell.arg("-c")?;
    shell.arg(LIMITED)?;
    shell.arg(env::current_exe(rt)?)?;
    shell.arg(name)?;
    Ok(())
}

// What the environment says to the test.
fn add_variables(shell: &mut Command) -> Result<(), Fail> {
    shell.env(UNDER_A_LIMIT, "1")?;
    shell.env("GLIBC_TUNABLES", TUNABLES)?;
    Ok(())
}

// Prints what a test printed. It has passed.
fn has_passed(rt: &HostRuntime, ran: &Output) -> Result<(), Fail> {
    rt.print(std::str::from_utf8(ran.stdout.as_slice())?)?;
    if ran.status.success() {
        return Ok(());
    }
    Err(Fail::new(std::str::from_utf8(ran.stderr.as_slice())?))
}

// Runs the test of this name in a process whose memory is limited.
fn run_limited(rt: &HostRuntime, name: &str) -> Result<(), Fail> {
    let mut shell = Command::new(rt.alloc(), "sh")?;
    add_arguments(rt, &mut shell, name)?;
    add_variables(&mut shell)?;
    has_passed(rt, &shell.output(rt)?)
}

// Says what a call came to that was made with ample memory.
fn tell_outcome<C: Call>(
    rt: &HostRuntime,
    name: &str,
    call: &C,
    state: C::State,
    answer: &C::Answer,
) -> Result<(), Fail> {
    let ample = Ample::of(rt.alloc(), call)?;
    rt.println(format_args!("{name}: answered"))?;
    let outcome = judge(rt.alloc(), call, state, answer, false, &ample)?;
    rt.println(format_args!("{name}: {outcome:?}"))?;
    Ok(())
}

// Calls once, and says how far it comes: one request may be refused by whoever runs the test.
fn call_once<C: Call>(rt: &HostRuntime, name: &str, call: &C) -> Result<(), Fail> {
    rt.println(format_args!("{name}: begins"))?;
    let mut state = call.begin(rt.alloc())?;
    rt.println(format_args!("{name}: called"))?;
    let answer = call.call(rt.alloc(), &mut state);
    tell_outcome(rt, name, call, state, &answer)
}

/// Whether the memory of this process is limited.
pub fn is_limited(rt: &HostRuntime) -> bool {
    env::var(rt, UNDER_A_LIMIT).is_ok()
}

/// Runs the test of this name in a process whose memory is limited, where this is not one.
pub fn in_a_process(rt: &HostRuntime, name: &str) -> Result<(), Fail> {
    if is_limited(rt) || env::var(rt, ONCE).is_ok() {
        return Ok(());
    }
    run_limited(rt, name)
}

/// Calls once, and then, in a process of its own whose memory is limited, refuses each request for memory that the call
/// makes in turn, by this many blocks a step, until the call is answered as with ample memory. Some request has to be
/// refused. The name is that of the test.
pub fn for_each_refusal<C: Call>(
    rt: &HostRuntime,
    name: &str,
    call: &C,
    blocks: usize,
) -> Result<(), Fail> {
    if is_limited(rt) {
        return refuse_in_turn(rt, name, call, blocks)?.are_refusals();
    }
    call_once(rt, name, call)?;
    in_a_process(rt, name)
}

/// The same of two calls, one after the other, of which the second asks for no more memory than the first.
pub fn for_no_more_requests<C: Call>(
    rt: &HostRuntime,
    name: &str,
    first: &C,
    second: &C,
) -> Result<(), Fail> {
    if is_limited(rt) {
        let of_the_first = refuse_in_turn(rt, name, first, 1)?;
        let of_the_second = refuse_in_turn(rt, name, second, 1)?;
        of_the_first.are_refusals()?;
        of_the_second.are_refusals()?;
        return of_the_second.are_about(of_the_first);
    }
    in_a_process(rt, name)
}

/// The same of a call that asks for no memory: it goes well though there is none.
pub fn for_no_request<C: Call>(rt: &HostRuntime, name: &str, call: &C) -> Result<(), Fail> {
    if is_limited(rt) {
        return refuse_in_turn(rt, name, call, 1)?.are_ample();
    }
    call_once(rt, name, call)?;
    in_a_process(rt, name)
}
