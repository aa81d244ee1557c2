//! What is called, and what its answers come to.
use std::alloc::Global;
use std::fmt::Debug;
use std::test::Fail;

/// What a call came to.
#[derive(Clone, Copy, Debug, PartialEq, Eq)]
pub enum Outcome {
    /// The answer with ample memory.
    Ample,
    /// It is refused for lack of memory (90), and nothing has changed.
    Refused,
    /// The store has failed (91). Its state is the one before or the one after. Each call over tables may be answered
    /// so, and not only where it commits or rolls back.
    Faulted,
    /// All is done, and the answer is lost for lack of memory (69).
    Lost,
    /// A part is done, for lack of memory for the next one.
    Stopped,
    /// None of these.
    Other,
}

/// A call from a state, which can be made again and again.
pub trait Call {
    type State: Drop;

    type Answer: Debug + Drop;

    /// The state from which it is called.
    fn begin(&self, alloc: Global) -> Result<Self::State, Fail>;

    fn call(&self, alloc: Global, state: &mut Self::State) -> Self::Answer;

    /// What an answer means that is not the one with ample memory.
    fn outcome(&self, answer: &Self::Answer) -> Outcome;

    /// Whether an answer is the one with ample memory.
    fn is_ample(&self, _alloc: Global, answer: &Self::Answer) -> Result<bool, Fail> {
        Ok(self.outcome(answer) == Outcome::Other)
    }

    /// The state as it is found after a crash.
    fn reopened(&self, alloc: Global, state: Self::State) -> Result<Self::State, Fail>;

    /// All that can be seen of the state.
    fn seen(&self, alloc: Global, state: &mut Self::State) -> Result<String, Fail>;

    /// What may be seen of the state after a call that stopped with this answer, one text for each part of the work
    /// that may be done. There are none where all is done or nothing. It fails where the answer shows no such part.
    fn parts(&self, alloc: Global, _answer: &Self::Answer) -> Result<Vec<String>, Fail> {
        Ok(Vec::new(alloc))
    }
}
