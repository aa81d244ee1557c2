//! The limits of a desk, and the numbers by which things are known in its tables and outside. Each function does
//! nothing: its contract is the law.
ghost use Rattle.std.specs.Prelude.{◌≡◌, ◌≢◌, ◌≤◌, ◌↔◌, ℕ, ℤ, pos, unsigned_abs, true, false};
ghost use Rattle.rtgs_book.specs.declared.limits.TheConstants.{LARGEST_BALANCE, LARGEST_NUMBER, LARGEST_TOTAL};
ghost use Rattle.rtgs_book.specs.declared.limits.TheConstants.{LONGEST_QUEUE, MOST_PARTICIPANTS, MOST_QUEUED};
ghost use Rattle.rtgs_book.specs.declared.order_state.OrderState.TheVariants.{Held, Queued, Rejected, Settled};
ghost use Rattle.rtgs_book.specs.declared.order_state.OrderState.TheVariants.{Withdrawn};
ghost use Rattle.rtgs_book.specs.declared.phase.Phase.TheVariants.{Closed, CutOff, Open};
ghost use Rattle.rtgs_http_requests.specs.declared.feeds.limits.TheConstants.{LONGEST_BODY, LONGEST_HEAD};
ghost use Rattle.rtgs_http_requests.specs.declared.heads.limits.TheConstants.{MOST_DIGITS, MOST_FIELDS};
ghost use Rattle.rtgs_money.specs.Amounts.{IsAmount, IsCredit, IsPostingAmount};
ghost use Rattle.rtgs_money.specs.declared.code.TheConstants.Code as code;
ghost use Rattle.rtgs_money.specs.declared.date.TheConstants.BusinessDate as date;
ghost use Rattle.rtgs_money.specs.declared.key.TheConstants.Key as key;
ghost use Rattle.rtgs_money.specs.declared.key_digest.TheConstants.KeyDigest as digest;
ghost use Rattle.rtgs_money.specs.declared.name.TheConstants.Name as name;
ghost use Rattle.rtgs_money.specs.declared.reference.TheConstants.Reference as reference;
ghost use Rattle.rtgs_order_files.specs.declared.limits.TheConstants.{MOST_BYTES, MOST_ROWS};
ghost use Rattle.rtgs_promises.specs.Numbers.{IsReplied, IsUnreplied};
ghost use Rattle.rtgs_refusals.specs.declared.exit_status.TheConstants.{DONE, FAILED, MISUSED, REFUSED};
ghost use Rattle.rtgs_refusals.specs.declared.refusal_kind.RefusalKind.TheVariants as kind;
ghost use Rattle.rtgs_rows.specs.Rows.{phase_number, resolution_number, state_number};
ghost use Rattle.rtgs_rows.specs.declared.numbers.TheConstants.{VERSION};

/// **Promise 16. Each limit is this number.** Those of a book; of its amounts, in cents; of names and keys, in bytes;
/// of dates, by their years; of order files; and of requests.
// To judge it, read these 15 files: rtgs_money Amounts, code.rt, reference.rt, name.rt, key.rt, key_digest.rt, date.rt,
// credit.rt, amount.rt, posting_amount.rt, text.rt; rtgs_book limits.rt; rtgs_order_files limits.rt; rtgs_http_requests
// feeds/limits.rt, heads/limits.rt.
pub fn every_limit()
    ensures books { (MOST_PARTICIPANTS ≡ 100) × (LONGEST_QUEUE ≡ 500) × (MOST_QUEUED ≡ 50_000)
        × (LARGEST_NUMBER ≡ 999_999_999) }
    ensures totals { (LARGEST_TOTAL ≡ 1_000_000_000_000_000) × (LARGEST_BALANCE ≡ 10_900_000_000_000_000) }
    ensures amounts { ((cents : ℕ) → IsAmount cents ↔ ((1 ≤ cents) × (cents ≤ 1_000_000_000_000)))
        × ((cents : ℕ) → IsCredit cents ↔ (cents ≤ 100_000_000_000_000))
        × ((cents : ℤ) → IsPostingAmount cents
        ↔ ((cents ≢ pos 0) × (unsigned_abs cents ≤ 1_000_000_000_000_000))) }
    ensures names { (code.SHORTEST ≡ 3) × (code.LONGEST ≡ 8) × (reference.LONGEST ≡ 16) × (name.LONGEST ≡ 40)
        × (key.LENGTH ≡ 32) × (digest.LENGTH ≡ 32) }
    ensures years { (date.FIRST_YEAR ≡ 2000) × (date.LAST_YEAR ≡ 2999) }
    ensures order_files { (MOST_ROWS ≡ 500) × (MOST_BYTES ≡ 65_536) }
    ensures requests { (LONGEST_HEAD ≡ 8192) × (LONGEST_BODY ≡ 65_536) × (MOST_FIELDS ≡ 32) × (MOST_DIGITS ≡ 9) }
{}

/// **Promise 16. And each number is this one.** In the tables: their version, and what stands for a phase of the day,
/// for a plain or an automatic day, and for the state of an order. Outside: the statuses with which the program ends,
/// and the number of each refusal, with the status of its reply over HTTP.
// To judge it, read these 8 files: rtgs_promises Numbers; rtgs_rows Rows, numbers.rt; rtgs_refusals Table,
// exit_status.rt, refusal_kind.rt; rtgs_book phase.rt, order_state.rt.
pub fn every_number()
    ensures days { (VERSION ≡ 3) × (phase_number Closed ≡ 0) × (phase_number Open ≡ 1) × (phase_number CutOff ≡ 2)
        × (resolution_number false ≡ 0) × (resolution_number true ≡ 1) }
    ensures states { (state_number Queued ≡ 0) × ((mark : ℕ) → state_number (Settled mark) ≡ 1)
        × (state_number Withdrawn ≡ 2) × (state_number Rejected ≡ 3) × (state_number Held ≡ 4) }
    ensures statuses { (DONE ≡ 0) × (REFUSED ≡ 1) × (MISUSED ≡ 2) × (FAILED ≡ 3) }
    ensures commands { IsReplied kind.UnknownParticipant 1 404 × IsReplied kind.UnknownReceiver 2 409
        × IsReplied kind.SameParty 3 409 × IsReplied kind.ReferenceUsed 4 409 × IsReplied kind.NotOpen 5 409
        × IsReplied kind.NoCover 6 409 × IsReplied kind.QueueFull 7 409 × IsReplied kind.NumbersUsedUp 8 409
        × IsReplied kind.UnknownOrder 9 404 × IsReplied kind.CodeTaken 10 409 × IsReplied kind.KeyTaken 11 409
        × IsReplied kind.TooManyParticipants 12 409 × IsReplied kind.TotalTooLarge 13 409
        × IsReplied kind.WrongPhase 14 409 × IsReplied kind.WrongDate 15 409 × IsReplied kind.Weekend 16 409
        × IsReplied kind.NotQueued 17 409 × IsReplied kind.Resolvable 18 409 × IsReplied kind.Overdrawn 19 409
        × IsReplied kind.DueNotLater 20 409 }
    ensures values { IsReplied kind.BadCode 30 400 × IsReplied kind.BadReference 31 400
        × IsReplied kind.BadAmount 32 400 × IsReplied kind.BadName 33 400 × IsReplied kind.BadKey 34 400
        × IsReplied kind.BadDate 35 400 }
    ensures files { IsReplied kind.BadHeader 40 400 × IsReplied kind.BadRow 41 400 × IsReplied kind.BadCount 42 400 }
    ensures requests { IsReplied kind.BadHead 60 400 × IsReplied kind.HeadTooLong 61 413
        × IsReplied kind.NoLength 62 411 × IsReplied kind.BodyTooLong 63 413 × IsReplied kind.Truncated 64 400
        × IsReplied kind.BadJson 65 400 × IsReplied kind.WrongFields 66 400 × IsReplied kind.NoSuchRoute 67 404
        × IsReplied kind.NoKey 68 403 × IsReplied kind.AnswerLost 69 503 }
    ensures faults { IsReplied kind.OutOfMemory 90 503 × IsReplied kind.StoreFault 91 503
        × IsReplied kind.Failed 92 503 × IsUnreplied kind.NotADeskFile 93 × IsUnreplied kind.Inconsistent 94
        × IsUnreplied kind.InUse 95 × IsUnreplied kind.FileExists 96 × IsUnreplied kind.NoListen 97
        × IsUnreplied kind.NoOrderFile 98 }
{}
