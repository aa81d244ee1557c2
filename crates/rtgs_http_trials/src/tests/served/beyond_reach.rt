//! Replies that no request of a test leads to: of a book whose numbers are used up, and of an answer that is lost.
use super::super::test_desk::whole;
use rtgs_book::Refusal;
use rtgs_http_bodies::{Reply, refusal_reply};
use rtgs_tests_desks::ensure;
use std::test::Fail;

#[test]
fn a_book_that_is_full_is_answered_so(rt: HostRuntime) -> Result<(), Fail> {
    let alloc = rt.alloc();
    let expected = "{\"code\":8,\"name\":\"NumbersUsedUp\"}";
    let wanted = whole(alloc, "409 Conflict", "application/json", expected)?;
    let reply = refusal_reply(alloc, Refusal::NumbersUsedUp)?;
    ensure(reply.as_bytes() == wanted.as_bytes())
}

#[test]
fn an_answer_that_is_lost_is_answered_so(rt: HostRuntime) -> Result<(), Fail> {
    let expected = "{\"code\":69,\"name\":\"AnswerLost\"}";
    let wanted = whole(
        rt.alloc(),
        "503 Service Unavailable",
        "application/json",
        expected,
    )?;
    let reply = Reply::answer_lost();
    ensure(reply.status().as_u16() == 503)?;
    ensure(reply.as_bytes() == wanted.as_bytes())
}
