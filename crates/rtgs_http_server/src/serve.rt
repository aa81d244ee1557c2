//! Connections served one after another.
ghost use Rattle.std.specs.Prelude.{◌≡◌, ◌+◌, ◌<◌, true, false};
ghost use Rattle.rtgs_book.specs.declared.book.Book.{Book};
ghost use Rattle.rtgs_desk.specs.Holding.{Holds};
ghost use Rattle.rtgs_http_server.specs.Requests.{WorksForAll};

use crate::connections::Connections;
use crate::exchange::laws::requests_join;
use crate::exchange::{Served, serve_one};
use crate::laws::a_desk_at_rest_works_for_all;
use rtgs_desk::Desk;
use rtgs_keeper::Keeper;
use rtgs_money::KeyDigest;
use std::alloc::Global;

/// Serves connections one after another, each with one request and its reply, until none is to be taken any more, or
/// the desk has failed. A connection that cannot be accepted counts as served.
pub fn serve_connections<C: Connections, K: Keeper>(
    alloc: Global,
    connections: &mut C,
    desk: &mut Desk<K>,
    operator: &KeyDigest,
)
    // Each command was asked for by a request, under this operator's digest. The commands of all requests together are
    // one session from the book that the desk held.
    ensures works { K.is_honest desk.new.keeper → (book : Book) → Holds K.Keeper desk.old book
        → WorksForAll K.Keeper operator.now book desk.new }
    ensures honest { K.is_honest desk.new.keeper → K.is_honest desk.old.keeper }
    // While the desk works all connections are taken.
    ensures all { K.has_failed desk.new.keeper ≡ false → C.to_come connections.new ≡ 0 }
    // A desk that has failed takes none.
    ensures failed { K.has_failed desk.old.keeper ≡ true
        → (desk.new ≡ desk.old) × (connections.new ≡ connections.old) }
{
    a_desk_at_rest_works_for_all(desk);
    for _ in 0..connections.left() {
        if desk.failed() {
            return;
        }
        serve_next(alloc, connections, desk, operator);
    }
}

// Takes the next connection, and serves it: its commands are those that its request asks for, and of one session with
// those before it.
fn serve_next<C: Connections, K: Keeper>(
    alloc: Global,
    connections: &mut C,
    desk: &mut Desk<K>,
    operator: &KeyDigest,
)
    requires { 0 < C.to_come connections.old }
    ensures works { K.is_honest desk.new.keeper → K.has_failed desk.old.keeper ≡ false → (book : Book)
        → WorksForAll K.Keeper operator.now book desk.old → WorksForAll K.Keeper operator.now book desk.new }
    ensures honest { K.is_honest desk.new.keeper → K.is_honest desk.old.keeper }
    ensures left { C.to_come connections.new + 1 ≡ C.to_come connections.old }
{
    desk.holds_a_sound_book();
    requests_join(desk);
    let Some((mut reader, mut writer)) = connections.accept() else {
        return;
    };
    let served = serve_one(alloc, &mut reader, &mut writer, desk, operator);
    if let Served::Answered(status) = served {
        connections.close(reader, writer, status);
    }
}
