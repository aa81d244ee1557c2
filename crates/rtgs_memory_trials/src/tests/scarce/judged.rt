//! Whether what a call came to, where memory was refused, is one of the outcomes that there may be.
use super::call::{Call, Outcome};
use std::alloc::Global;
use std::test::Fail;

/// What a call gives with ample memory: what is seen before it, its answer, what is seen after it, and its answer
/// when it is made once more.
#[derive(Drop)]
pub struct Ample {
    before: String,
    answer: String,
    after: String,
    again: String,
}

impl Ample {
    /// What this call gives.
    pub fn of<C: Call>(alloc: Global, call: &C) -> Result<Ample, Fail> {
        let mut state = call.begin(alloc)?;
        Ample::from_state(alloc, call, &mut state)
    }

    // From the state where it begins.
    fn from_state<C: Call>(alloc: Global, call: &C, state: &mut C::State) -> Result<Ample, Fail> {
        let before = call.seen(alloc, state)?;
        let answer = call.call(alloc, state);
        if !call.is_ample(alloc, &answer)? {
            return Err(Fail::from("it is refused with ample memory, or answered otherwise"));
        }
        let answer = format!(in alloc; "{answer:?}")?;
        let after = call.seen(alloc, state)?;
        let again = answered(alloc, call, state)?;
        Ok(Ample {
            before,
            answer,
            after,
            again,
        })
    }
}

// Calls. Gives the text of the answer.
fn answered<C: Call>(alloc: Global, call: &C, state: &mut C::State) -> Result<String, Fail> {
    let answer = call.call(alloc, state);
    Ok(format!(in alloc; "{answer:?}")?)
}

/// The two are the same text.
pub fn same(alloc: Global, found: &str, wanted: &str) -> Result<(), Fail> {
    if found == wanted {
        return Ok(());
    }
    let said = format!(in alloc; "{found:.200}, and not {wanted:.200}")?;
    Err(Fail::from(said))
}

// What is seen of the state is this.
fn is_seen<C: Call>(
    alloc: Global,
    call: &C,
    state: &mut C::State,
    wanted: &str,
) -> Result<(), Fail> {
    let seen = call.seen(alloc, state)?;
    same(alloc, seen.as_str(), wanted)
}

// Calls once more with ample memory. What is then seen is what is seen after the call. Gives the answer.
fn answered_again<C: Call>(
    alloc: Global,
    call: &C,
    state: C::State,
    ample: &Ample,
) -> Result<String, Fail> {
    let mut state = state;
    let answer = answered(alloc, call, &mut state)?;
    is_seen(alloc, call, &mut state, ample.after.as_str())?;
    Ok(answer)
}

// The same, and the answer is this.
fn is_answered_again<C: Call>(
    alloc: Global,
    call: &C,
    state: C::State,
    ample: &Ample,
    wanted: &str,
) -> Result<(), Fail> {
    let answer = answered_again(alloc, call, state, ample)?;
    same(alloc, answer.as_str(), wanted)
}

// All that is seen is what is seen after the call with ample memory.
fn judge_ample<C: Call>(
    alloc: Global,
    call: &C,
    state: C::State,
    ample: &Ample,
) -> Result<(), Fail> {
    let mut state = state;
    is_seen(alloc, call, &mut state, ample.after.as_str())
}

// Nothing has changed, in memory or (where it is opened again) in what is kept, and the same call is answered as with
// ample memory.
fn judge_refused<C: Call>(
    alloc: Global,
    call: &C,
    state: C::State,
    reopens: bool,
    ample: &Ample,
) -> Result<(), Fail> {
    let mut state = state;
    if reopens {
        state = call.reopened(alloc, state)?;
    }
    is_seen(alloc, call, &mut state, ample.before.as_str())?;
    is_answered_again(alloc, call, state, ample, ample.answer.as_str())
}

// What is seen of the state is what was before, or what is after.
fn is_before_or_after<C: Call>(
    alloc: Global,
    call: &C,
    state: &mut C::State,
    ample: &Ample,
) -> Result<(), Fail> {
    let seen = call.seen(alloc, state)?;
    if seen.as_str() == ample.before.as_str() {
        return Ok(());
    }
    same(alloc, seen.as_str(), ample.after.as_str())
}

// What is kept is what was before, or what is after.
fn judge_faulted<C: Call>(
    alloc: Global,
    call: &C,
    state: C::State,
    ample: &Ample,
) -> Result<(), Fail> {
    let mut state = call.reopened(alloc, state)?;
    is_before_or_after(alloc, call, &mut state, ample)?;
    answered_again(alloc, call, state, ample)?;
    Ok(())
}

// All is done, and the same call is answered as one that comes again.
fn judge_lost<C: Call>(
    alloc: Global,
    call: &C,
    state: C::State,
    ample: &Ample,
) -> Result<(), Fail> {
    let mut state = state;
    is_seen(alloc, call, &mut state, ample.after.as_str())?;
    is_answered_again(alloc, call, state, ample, ample.again.as_str())
}

// What is seen is one of these.
fn is_one_of(alloc: Global, seen: &str, wanted: &[String]) -> Result<(), Fail> {
    for text in wanted {
        if text.as_str() == seen {
            return Ok(());
        }
    }
    let said = format!(in alloc; "{seen:.200}, and no part of the work")?;
    Err(Fail::from(said))
}

// What is seen of the state is what there may be after an answer of a call that stopped.
fn is_partly_done<C: Call>(
    alloc: Global,
    call: &C,
    state: &mut C::State,
    answer: &C::Answer,
    ample: &Ample,
) -> Result<(), Fail> {
    let parts = call.parts(alloc, answer)?;
    if parts.is_empty() {
        return is_before_or_after(alloc, call, state, ample);
    }
    let seen = call.seen(alloc, state)?;
    is_one_of(alloc, seen.as_str(), parts.as_slice())
}

// The part is done that the answer tells, and the same call does the rest.
fn judge_stopped<C: Call>(
    alloc: Global,
    call: &C,
    state: C::State,
    answer: &C::Answer,
    ample: &Ample,
) -> Result<(), Fail> {
    let mut found = call.reopened(alloc, state)?;
    is_partly_done(alloc, call, &mut found, answer, ample)?;
    answered_again(alloc, call, found, ample)?;
    Ok(())
}

// What an answer means. It fails where it is none of the outcomes that there may be.
fn outcome_of<C: Call>(
    alloc: Global,
    call: &C,
    answer: &C::Answer,
    ample: &Ample,
) -> Result<Outcome, Fail> {
    let text = format!(in alloc; "{answer:?}")?;
    if text.as_str() == ample.answer.as_str() {
        return Ok(Outcome::Ample);
    }
    let outcome = call.outcome(answer);
    if matches!(outcome, Outcome::Ample | Outcome::Other) {
        same(alloc, text.as_str(), ample.answer.as_str())?;
    }
    Ok(outcome)
}

// Judges the state that a call left with this answer, which came to this.
fn judge_state<C: Call>(
    alloc: Global,
    call: &C,
    state: C::State,
    answer: &C::Answer,
    outcome: Outcome,
    reopens: bool,
    ample: &Ample,
) -> Result<(), Fail> {
    match outcome {
        Outcome::Ample => judge_ample(alloc, call, state, ample),
        Outcome::Refused => judge_refused(alloc, call, state, reopens, ample),
        Outcome::Faulted => judge_faulted(alloc, call, state, ample),
        Outcome::Lost => judge_lost(alloc, call, state, ample),
        Outcome::Stopped => judge_stopped(alloc, call, state, answer, ample),
        Outcome::Other => Err(Fail::from("another answer")),
    }
}

/// Judges an answer, and the state that the call left.
pub fn judge<C: Call>(
    alloc: Global,
    call: &C,
    state: C::State,
    answer: &C::Answer,
    reopens: bool,
    ample: &Ample,
) -> Result<Outcome, Fail> {
    let outcome = outcome_of(alloc, call, answer, ample)?;
    judge_state(alloc, call, state, answer, outcome, reopens, ample)?;
    Ok(outcome)
}
