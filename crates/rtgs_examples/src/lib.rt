//! Worked examples of the definitions. Each function at most cites a law: its contract is the example.
#![tactic(auto)]

ghost use Rattle.std.specs.Prelude.{[], ◌∷◌, ◌++◌, pos, negsuc, true, false, Ok, Err, codes};
ghost use Rattle.rtgs_examples.specs.Examples.{alfa, beta, gama, zeta, monday, tuesday, wednesday, thursday, saturday};
ghost use Rattle.rtgs_book.specs.Outcome.{alone};
ghost use Rattle.rtgs_examples.specs.Examples.{start, automatic_start, unopened, opens, pays, pays_on, and_settles};
ghost use Rattle.rtgs_examples.specs.Examples.{Comes, ComesFrom, ComesWholeFrom, LeavesQueue, LeavesDates};

use rtgs_book::laws::procedure_finds_the_greatest;
use rtgs_book::{Answer, Command, Known, OrderState, Refusal};

/// Three orders in a ring settle together, and then nothing is left to settle.
pub fn ring()
    ensures { Comes
        (pays alfa beta 100 (codes "A-1") ∷ pays beta gama 100 (codes "B-1") ∷ pays gama alfa 100 (codes "G-1")
        ∷ Command.Resolve ∷ Command.Resolve ∷ [])
        (Ok (Answer.Queued 1 1) ∷ Ok (Answer.Queued 2 1) ∷ Ok (Answer.Queued 3 1) ∷ Ok (Answer.Resolved 1 3 (pos 300))
        ∷ Ok Answer.Nothing ∷ [])
        (pos 0 ∷ pos 0 ∷ pos 0 ∷ []) }
{
    procedure_finds_the_greatest();
}

/// Where no beginning of the queues has cover, nothing is settled, and a close rejects what is queued. The next day is
/// later than the last, and on no weekend.
pub fn deadlock()
    ensures { Comes
        (pays alfa beta 100 (codes "A-1") ∷ pays beta gama 90 (codes "B-1") ∷ Command.Resolve ∷ Command.CutOff monday
        ∷ Command.CloseDay monday ∷ Command.CloseDay monday ∷ opens 20240309 false
        ∷ opens 20240304 false ∷ opens 20240305 false ∷ opens 20240305 false ∷ [])
        (Ok (Answer.Queued 1 1) ∷ Ok (Answer.Queued 2 1) ∷ Ok Answer.Nothing ∷ Ok Answer.CutOffDone
        ∷ Ok (Answer.Closed 2) ∷ Ok (Answer.Repeated Known.Nothing) ∷ Err Refusal.Weekend ∷ Err Refusal.WrongDate
        ∷ Ok Answer.Opened ∷ Ok (Answer.Repeated Known.Nothing) ∷ [])
        (pos 0 ∷ pos 0 ∷ pos 0 ∷ []) }
{
    procedure_finds_the_greatest();
}

/// The newest order of the bank that is short stays queued.
pub fn partial()
    ensures { Comes
        (pays alfa beta 100 (codes "A-1") ∷ pays alfa gama 50 (codes "A-2") ∷ pays beta alfa 100 (codes "B-1")
        ∷ Command.Resolve ∷ [])
        (Ok (Answer.Queued 1 1) ∷ Ok (Answer.Queued 2 2) ∷ Ok (Answer.Queued 3 1) ∷ Ok (Answer.Resolved 1 2 (pos 200))
        ∷ [])
        (pos 0 ∷ pos 0 ∷ pos 0 ∷ []) }
{
    procedure_finds_the_greatest();
}

/// One order taken back leaves the next bank short, and so on.
pub fn cascade()
    ensures { Comes
        (Command.Post alfa (codes "P-1") (pos 10) ∷ pays alfa beta 60 (codes "A-1") ∷ pays alfa gama 10 (codes "A-2")
        ∷ pays beta alfa 50 (codes "B-1") ∷ pays beta gama 20 (codes "B-2") ∷ pays gama alfa 5 (codes "G-1")
        ∷ Command.Resolve ∷ [])
        (Ok (Answer.Posted 1) ∷ Ok (Answer.Queued 1 1) ∷ Ok (Answer.Queued 2 2) ∷ Ok (Answer.Queued 3 1)
        ∷ Ok (Answer.Queued 4 2) ∷ Ok (Answer.Queued 5 1) ∷ Ok (Answer.Resolved 1 2 (pos 110)) ∷ [])
        (pos 0 ∷ pos 10 ∷ pos 0 ∷ []) }
{
    procedure_finds_the_greatest();
}

/// Credit can be used to its limit, and the limit is not lowered below what is used. An order that comes again is
/// answered with its number and state, and its reference serves for no other.
pub fn boundary_of_credit()
    ensures { Comes
        (Command.SetCredit alfa 100 ∷ pays alfa beta 100 (codes "A-1") ∷ pays alfa beta 1 (codes "A-2")
        ∷ pays alfa beta 100 (codes "A-1") ∷ pays alfa beta 99 (codes "A-1") ∷ Command.SetCredit alfa 99
        ∷ Command.SetCredit alfa 100 ∷ [])
        (Ok Answer.CreditSet ∷ Ok (Answer.Settled 1 1) ∷ Ok (Answer.Queued 2 1)
        ∷ Ok (Answer.Repeated (Known.Order 1 (OrderState.Settled 1))) ∷ Err Refusal.ReferenceUsed ∷ Err Refusal.NoCover
        ∷ Ok Answer.CreditSet ∷ [])
        (negsuc 99 ∷ pos 100 ∷ pos 0 ∷ []) }
{}

/// An order with cover waits behind one without.
pub fn no_bypass()
    ensures { Comes
        (Command.Post alfa (codes "P-1") (pos 100) ∷ pays alfa beta 150 (codes "A-1") ∷ pays alfa beta 20 (codes "A-2")
        ∷ Command.Resolve ∷ [])
        (Ok (Answer.Posted 1) ∷ Ok (Answer.Queued 1 1) ∷ Ok (Answer.Queued 2 2) ∷ Ok Answer.Nothing ∷ [])
        (pos 100 ∷ pos 0 ∷ pos 0 ∷ []) }
{
    procedure_finds_the_greatest();
}

/// A settled order is not withdrawn, and a queued one is, once.
pub fn finality()
    ensures { Comes
        (Command.SetCredit alfa 100 ∷ pays alfa beta 100 (codes "A-1") ∷ pays alfa beta 1 (codes "A-2")
        ∷ Command.Withdraw alfa (codes "A-1") ∷ Command.Withdraw alfa (codes "A-2")
        ∷ Command.Withdraw alfa (codes "A-2") ∷ Command.Withdraw alfa (codes "A-3") ∷ [])
        (Ok Answer.CreditSet ∷ Ok (Answer.Settled 1 1) ∷ Ok (Answer.Queued 2 1) ∷ Err Refusal.NotQueued
        ∷ Ok (Answer.Withdrawn 2) ∷ Ok (Answer.Repeated (Known.Order 2 OrderState.Withdrawn)) ∷ Err Refusal.UnknownOrder
        ∷ [])
        (negsuc 99 ∷ pos 100 ∷ pos 0 ∷ []) }
{}

/// The balances together are at most 10^15.
pub fn largest_posting()
    ensures { Comes
        (Command.Post alfa (codes "P-1") (pos 1000000000000000) ∷ Command.Post beta (codes "P-2") (pos 1)
        ∷ Command.Post alfa (codes "P-3") (negsuc 0) ∷ [])
        (Ok (Answer.Posted 1) ∷ Err Refusal.TotalTooLarge ∷ Ok (Answer.Posted 2) ∷ [])
        (pos 999999999999999 ∷ pos 0 ∷ pos 0 ∷ []) }
{}

/// After the cut-off no order is taken, and one may still be withdrawn or resolved.
pub fn cut_off_stops_orders()
    ensures { Comes
        (pays alfa beta 100 (codes "A-1") ∷ pays beta alfa 100 (codes "B-1") ∷ pays gama alfa 1 (codes "G-1")
        ∷ Command.CutOff monday ∷ pays alfa beta 5 (codes "A-2") ∷ pays alfa beta 100 (codes "A-1")
        ∷ Command.Withdraw gama (codes "G-1") ∷ Command.Resolve ∷ [])
        (Ok (Answer.Queued 1 1) ∷ Ok (Answer.Queued 2 1) ∷ Ok (Answer.Queued 3 1) ∷ Ok Answer.CutOffDone
        ∷ Err Refusal.NotOpen ∷ Ok (Answer.Repeated (Known.Order 1 OrderState.Queued)) ∷ Ok (Answer.Withdrawn 3)
        ∷ Ok (Answer.Resolved 1 2 (pos 200)) ∷ [])
        (pos 0 ∷ pos 0 ∷ pos 0 ∷ []) }
{
    procedure_finds_the_greatest();
}

/// A day is not closed while its queues can be resolved.
pub fn close_with_gridlock()
    ensures { Comes
        (pays alfa beta 100 (codes "A-1") ∷ pays beta gama 100 (codes "B-1") ∷ pays gama alfa 100 (codes "G-1")
        ∷ Command.CloseDay monday ∷ Command.CutOff monday ∷ Command.CloseDay monday ∷ [])
        (Ok (Answer.Queued 1 1) ∷ Ok (Answer.Queued 2 1) ∷ Ok (Answer.Queued 3 1) ∷ Err Refusal.WrongPhase
        ∷ Ok Answer.CutOffDone ∷ Err Refusal.Resolvable ∷ [])
        (pos 0 ∷ pos 0 ∷ pos 0 ∷ []) }
{
    procedure_finds_the_greatest();
}

/// A day is not closed while a bank is below zero.
pub fn close_with_overdraft()
    ensures { Comes
        (Command.SetCredit alfa 100 ∷ pays alfa beta 100 (codes "A-1") ∷ pays alfa beta 1 (codes "A-2")
        ∷ Command.CutOff monday ∷ Command.CloseDay monday ∷ [])
        (Ok Answer.CreditSet ∷ Ok (Answer.Settled 1 1) ∷ Ok (Answer.Queued 2 1) ∷ Ok Answer.CutOffDone
        ∷ Err (Refusal.Overdrawn alfa 1) ∷ [])
        (negsuc 99 ∷ pos 100 ∷ pos 0 ∷ []) }
{
    procedure_finds_the_greatest();
}

/// Before the first day nothing is closed, resolved or paid. From then on an order is between two participants.
pub fn first_day()
    ensures { ComesFrom unopened
        (Command.CloseDay monday ∷ Command.Resolve ∷ pays alfa beta 1 (codes "A-1") ∷ opens monday false
        ∷ pays alfa alfa 1 (codes "A-1") ∷ pays alfa zeta 1 (codes "A-1") ∷ pays zeta alfa 1 (codes "Z-1") ∷ [])
        (Err Refusal.WrongPhase ∷ Err Refusal.WrongPhase ∷ Err Refusal.NotOpen ∷ Ok Answer.Opened
        ∷ Err Refusal.SameParty ∷ Err Refusal.UnknownReceiver ∷ Err Refusal.UnknownParticipant ∷ [])
        (pos 0 ∷ pos 0 ∷ pos 0 ∷ []) }
{
    procedure_finds_the_greatest();
}

/// An order for a later date is held until that date, and is then queued and settled as any other.
pub fn due_order()
    ensures { Comes
        (Command.Post alfa (codes "P-1") (pos 100) ∷ pays_on tuesday alfa beta 60 (codes "A-1")
        ∷ pays alfa beta 50 (codes "A-2") ∷ pays_on tuesday alfa beta 60 (codes "A-1")
        ∷ pays alfa beta 60 (codes "A-1") ∷ pays_on monday alfa beta 60 (codes "A-3")
        ∷ pays_on saturday alfa beta 60 (codes "A-3") ∷ Command.CutOff monday ∷ Command.CloseDay monday
        ∷ opens tuesday false ∷ pays alfa gama 10 (codes "A-3") ∷ Command.Resolve
        ∷ Command.Post alfa (codes "P-2") (pos 10) ∷ Command.Resolve ∷ [])
        (Ok (Answer.Posted 1) ∷ Ok (Answer.Held 1 tuesday) ∷ Ok (Answer.Settled 2 1)
        ∷ Ok (Answer.Repeated (Known.Order 1 OrderState.Held)) ∷ Err Refusal.ReferenceUsed ∷ Err Refusal.DueNotLater
        ∷ Err Refusal.Weekend ∷ Ok Answer.CutOffDone ∷ Ok (Answer.Closed 0) ∷ Ok Answer.Opened
        ∷ Ok (Answer.Queued 3 2) ∷ Ok Answer.Nothing ∷ Ok (Answer.Posted 2) ∷ Ok (Answer.Resolved 2 1 (pos 60)) ∷ [])
        (pos 0 ∷ pos 110 ∷ pos 0 ∷ []) }
{
    procedure_finds_the_greatest();
}

/// While an order is held, another one of its sender settles past it, and no balance counts it.
pub fn held_order_moves_nothing()
    ensures { Comes
        (Command.Post alfa (codes "P-1") (pos 100) ∷ pays_on tuesday alfa beta 60 (codes "A-1")
        ∷ pays alfa beta 50 (codes "A-2") ∷ [])
        (Ok (Answer.Posted 1) ∷ Ok (Answer.Held 1 tuesday) ∷ Ok (Answer.Settled 2 1) ∷ [])
        (pos 50 ∷ pos 50 ∷ pos 0 ∷ []) }
{}

/// The day for which an order was held lets it into its queue, though its sender has no cover for it.
pub fn due_order_enters_its_queue()
    ensures { LeavesQueue
        (Command.Post alfa (codes "P-1") (pos 100) ∷ pays_on tuesday alfa beta 60 (codes "A-1")
        ∷ pays alfa beta 50 (codes "A-2") ∷ pays_on tuesday alfa beta 60 (codes "A-1")
        ∷ pays alfa beta 60 (codes "A-1") ∷ pays_on monday alfa beta 60 (codes "A-3")
        ∷ pays_on saturday alfa beta 60 (codes "A-3") ∷ Command.CutOff monday ∷ Command.CloseDay monday
        ∷ opens tuesday false ∷ [])
        (Ok (Answer.Posted 1) ∷ Ok (Answer.Held 1 tuesday) ∷ Ok (Answer.Settled 2 1)
        ∷ Ok (Answer.Repeated (Known.Order 1 OrderState.Held)) ∷ Err Refusal.ReferenceUsed ∷ Err Refusal.DueNotLater
        ∷ Err Refusal.Weekend ∷ Ok Answer.CutOffDone ∷ Ok (Answer.Closed 0) ∷ Ok Answer.Opened ∷ [])
        alfa (1 ∷ []) }
{
    procedure_finds_the_greatest();
}

/// A day lets in what is due on it or was due before, in the order of acceptance, and what is due later stays held.
pub fn later_order_stays_held()
    ensures { LeavesQueue
        (pays_on wednesday alfa beta 10 (codes "A-1") ∷ pays_on thursday alfa beta 20 (codes "A-2")
        ∷ pays_on tuesday alfa gama 30 (codes "A-3") ∷ Command.CutOff monday ∷ Command.CloseDay monday
        ∷ opens wednesday false ∷ pays_on thursday alfa beta 20 (codes "A-2")
        ∷ pays_on tuesday alfa gama 30 (codes "A-3") ∷ [])
        (Ok (Answer.Held 1 wednesday) ∷ Ok (Answer.Held 2 thursday) ∷ Ok (Answer.Held 3 tuesday)
        ∷ Ok Answer.CutOffDone ∷ Ok (Answer.Closed 0) ∷ Ok Answer.Opened
        ∷ Ok (Answer.Repeated (Known.Order 2 OrderState.Held))
        ∷ Ok (Answer.Repeated (Known.Order 3 OrderState.Queued)) ∷ [])
        alfa (1 ∷ 3 ∷ []) }
{
    procedure_finds_the_greatest();
}

/// An order that enters its queue has the date of that day, and one that stays held its due date.
pub fn entered_order_has_the_date()
    ensures { LeavesDates
        (pays_on wednesday alfa beta 10 (codes "A-1") ∷ pays_on thursday alfa beta 20 (codes "A-2")
        ∷ pays_on tuesday alfa gama 30 (codes "A-3") ∷ Command.CutOff monday ∷ Command.CloseDay monday
        ∷ opens wednesday false ∷ [])
        (Ok (Answer.Held 1 wednesday) ∷ Ok (Answer.Held 2 thursday) ∷ Ok (Answer.Held 3 tuesday)
        ∷ Ok Answer.CutOffDone ∷ Ok (Answer.Closed 0) ∷ Ok Answer.Opened ∷ [])
        (wednesday ∷ thursday ∷ wednesday ∷ []) }
{
    procedure_finds_the_greatest();
}

/// An order that comes again is the same one with the same due date alone, or both times without one.
pub fn due_date_is_content()
    ensures { Comes
        (pays_on tuesday alfa beta 60 (codes "A-1") ∷ pays_on tuesday alfa beta 60 (codes "A-1")
        ∷ pays alfa beta 60 (codes "A-1") ∷ pays_on wednesday alfa beta 60 (codes "A-1")
        ∷ pays alfa beta 60 (codes "A-2") ∷ pays alfa beta 60 (codes "A-2")
        ∷ pays_on tuesday alfa beta 60 (codes "A-2") ∷ [])
        (Ok (Answer.Held 1 tuesday) ∷ Ok (Answer.Repeated (Known.Order 1 OrderState.Held))
        ∷ Err Refusal.ReferenceUsed ∷ Err Refusal.ReferenceUsed ∷ Ok (Answer.Queued 2 1)
        ∷ Ok (Answer.Repeated (Known.Order 2 OrderState.Queued)) ∷ Err Refusal.ReferenceUsed ∷ [])
        (pos 0 ∷ pos 0 ∷ pos 0 ∷ []) }
{}

/// A due date is later than the day's, and on no weekend. One that is early and on a weekend is refused as early.
pub fn due_date_is_a_later_weekday()
    ensures { Comes
        (pays_on monday alfa beta 60 (codes "A-1") ∷ pays_on 20240302 alfa beta 60 (codes "A-1")
        ∷ pays_on saturday alfa beta 60 (codes "A-1") ∷ pays_on 20240310 alfa beta 60 (codes "A-1")
        ∷ pays_on 20240311 alfa beta 60 (codes "A-1") ∷ [])
        (Err Refusal.DueNotLater ∷ Err Refusal.DueNotLater ∷ Err Refusal.Weekend ∷ Err Refusal.Weekend
        ∷ Ok (Answer.Held 1 20240311) ∷ [])
        (pos 0 ∷ pos 0 ∷ pos 0 ∷ []) }
{}

/// An order is refused for its parties, or because the day is not open, before its due date is looked at.
pub fn due_date_is_judged_last()
    ensures { Comes
        (pays_on monday zeta beta 60 (codes "Z-1") ∷ pays_on monday alfa zeta 60 (codes "A-1")
        ∷ pays_on saturday alfa alfa 60 (codes "A-1") ∷ Command.CutOff monday
        ∷ pays_on monday alfa beta 60 (codes "A-1") ∷ pays_on tuesday alfa beta 60 (codes "A-1") ∷ [])
        (Err Refusal.UnknownParticipant ∷ Err Refusal.UnknownReceiver ∷ Err Refusal.SameParty ∷ Ok Answer.CutOffDone
        ∷ Err Refusal.NotOpen ∷ Err Refusal.NotOpen ∷ [])
        (pos 0 ∷ pos 0 ∷ pos 0 ∷ []) }
{}

/// A held order is withdrawn in each phase, once, and enters no queue then.
pub fn held_orders_are_withdrawn()
    ensures { LeavesQueue
        (pays_on tuesday alfa beta 10 (codes "A-1") ∷ pays_on tuesday alfa beta 20 (codes "A-2")
        ∷ pays_on tuesday alfa beta 30 (codes "A-3") ∷ Command.Withdraw alfa (codes "A-1") ∷ Command.CutOff monday
        ∷ Command.Withdraw alfa (codes "A-2") ∷ Command.CloseDay monday ∷ Command.Withdraw alfa (codes "A-3")
        ∷ Command.Withdraw alfa (codes "A-3") ∷ opens tuesday false ∷ [])
        (Ok (Answer.Held 1 tuesday) ∷ Ok (Answer.Held 2 tuesday) ∷ Ok (Answer.Held 3 tuesday)
        ∷ Ok (Answer.Withdrawn 1) ∷ Ok Answer.CutOffDone ∷ Ok (Answer.Withdrawn 2) ∷ Ok (Answer.Closed 0)
        ∷ Ok (Answer.Withdrawn 3) ∷ Ok (Answer.Repeated (Known.Order 3 OrderState.Withdrawn)) ∷ Ok Answer.Opened ∷ [])
        alfa [] }
{
    procedure_finds_the_greatest();
}

/// A close rejects what is queued, and leaves what is held.
pub fn close_leaves_held_orders()
    ensures { Comes
        (pays alfa beta 60 (codes "A-1") ∷ pays_on tuesday alfa beta 60 (codes "A-2") ∷ Command.CutOff monday
        ∷ Command.CloseDay monday ∷ pays alfa beta 60 (codes "A-1") ∷ pays_on tuesday alfa beta 60 (codes "A-2") ∷ [])
        (Ok (Answer.Queued 1 1) ∷ Ok (Answer.Held 2 tuesday) ∷ Ok Answer.CutOffDone ∷ Ok (Answer.Closed 1)
        ∷ Ok (Answer.Repeated (Known.Order 1 OrderState.Rejected))
        ∷ Ok (Answer.Repeated (Known.Order 2 OrderState.Held)) ∷ [])
        (pos 0 ∷ pos 0 ∷ pos 0 ∷ []) }
{
    procedure_finds_the_greatest();
}

/// A day that opens settles nothing: an order that enters its queue with cover waits until the queues are resolved.
pub fn due_order_waits_to_be_resolved()
    ensures { Comes
        (Command.Post alfa (codes "P-1") (pos 60) ∷ pays_on tuesday alfa beta 60 (codes "A-1")
        ∷ Command.CutOff monday ∷ Command.CloseDay monday ∷ opens tuesday false
        ∷ pays_on tuesday alfa beta 60 (codes "A-1") ∷ Command.Resolve ∷ pays_on tuesday alfa beta 60 (codes "A-1")
        ∷ [])
        (Ok (Answer.Posted 1) ∷ Ok (Answer.Held 1 tuesday) ∷ Ok Answer.CutOffDone ∷ Ok (Answer.Closed 0)
        ∷ Ok Answer.Opened ∷ Ok (Answer.Repeated (Known.Order 1 OrderState.Queued))
        ∷ Ok (Answer.Resolved 1 1 (pos 60)) ∷ Ok (Answer.Repeated (Known.Order 1 (OrderState.Settled 1))) ∷ [])
        (pos 0 ∷ pos 60 ∷ pos 0 ∷ []) }
{
    procedure_finds_the_greatest();
}

/// On an automatic day the order that closes a ring is queued, and all three settle in the same step. Nothing is left
/// for a resolution that is asked for.
pub fn order_closes_a_ring()
    ensures { ComesWholeFrom automatic_start
        (pays alfa beta 100 (codes "A-1") ∷ pays beta gama 100 (codes "B-1") ∷ pays gama alfa 100 (codes "G-1")
        ∷ Command.Resolve ∷ [])
        (alone (Ok (Answer.Queued 1 1)) ∷ alone (Ok (Answer.Queued 2 1))
        ∷ and_settles (Ok (Answer.Queued 3 1)) 1 3 (pos 300) ∷ alone (Ok Answer.Nothing) ∷ [])
        (pos 0 ∷ pos 0 ∷ pos 0 ∷ []) }
{
    procedure_finds_the_greatest();
}

/// An order that settles at once has its own mark, and what it frees settles in the same step under the next one.
pub fn order_frees_another()
    ensures { ComesWholeFrom automatic_start
        (Command.Post beta (codes "P-1") (pos 30) ∷ pays alfa gama 20 (codes "A-1")
        ∷ pays beta alfa 30 (codes "B-1") ∷ [])
        (alone (Ok (Answer.Posted 1)) ∷ alone (Ok (Answer.Queued 1 1))
        ∷ and_settles (Ok (Answer.Settled 2 1)) 2 1 (pos 20) ∷ [])
        (pos 10 ∷ pos 0 ∷ pos 20 ∷ []) }
{
    procedure_finds_the_greatest();
}

/// Where the day is opened as an automatic one, what is due enters its queue and settles in the same step.
pub fn due_order_settles_at_the_opening()
    ensures { ComesWholeFrom start
        (Command.Post alfa (codes "P-1") (pos 60) ∷ pays_on tuesday alfa beta 60 (codes "A-1")
        ∷ Command.CutOff monday ∷ Command.CloseDay monday ∷ opens tuesday true ∷ [])
        (alone (Ok (Answer.Posted 1)) ∷ alone (Ok (Answer.Held 1 tuesday)) ∷ alone (Ok Answer.CutOffDone)
        ∷ alone (Ok (Answer.Closed 0)) ∷ and_settles (Ok Answer.Opened) 1 1 (pos 60) ∷ [])
        (pos 0 ∷ pos 60 ∷ pos 0 ∷ []) }
{
    procedure_finds_the_greatest();
}
