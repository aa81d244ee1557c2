//! The run of the program that serves connections to the desk over the file of a book, and says so.
ghost use Rattle.std.specs.Prelude.{◌≡◌, false, IfOk, IfErr, OnErr, string_bytes};
ghost use Rattle.rtgs_book.specs.declared.book.Book.{Book};
ghost use Rattle.rtgs_book_file.specs.LockName.{lock_name};
ghost use Rattle.rtgs_book_file.specs.OverFile.{over};
ghost use Rattle.rtgs_desk.specs.Holding.{Holds};
ghost use Rattle.rtgs_cli_lines.specs.Texts.{Prints};
ghost use Rattle.rtgs_http_server.specs.Requests.{WorksForAll};
ghost use Rattle.rtgs_cli.specs.files.Done.{IsIdle};
ghost use Rattle.rtgs_cli.specs.files.Touching.{IsOf};
ghost use Rattle.rtgs_cli.specs.serving.Serving.{IsNotListening, IsNotServed, IsServed, Serves, ServedOver};
ghost use Rattle.rtgs_cli.specs.serving.Serving.{server_text, stop_of_desk, TakesAsPrinted, TakesAt};

mod no_port;
mod service;

use crate::files::{Acted, Finished, Touched, Used, close_book, refused};
pub use crate::serving::no_port::NoPort;
pub use crate::serving::service::Service;
use rtgs_book::Refusal;
use rtgs_book_file::BookFile;
use rtgs_cli_lines::{Done, Failure, Printed};
use rtgs_desk::Desk;
use rtgs_http_server::laws::a_desk_at_rest_works_for_all;
use rtgs_http_server::{Connections, Port, serve_connections};
use rtgs_keeper::Keeper;
use std::alloc::Global;
use std::io::Write;
use std::snapshot::Snapshot;

// What a run that serves connections met beside the file of its book: its port, or that it had none.
type PortUsed<F> = Used<F, Snapshot<Port>, Snapshot<NoPort>>;

/// Serves the connections of a service to the desk over a file, one after another, and says so. A run
/// whose desk fails ends as stopped, after the connection on which it failed.
pub fn serve<B: BookFile, O: Write, F>(
    rt: &HostRuntime,
    file: &str,
    service: &Service,
    start: B,
    out: &mut O,
) -> Acted<B, Used<F, Snapshot<Port>, Snapshot<NoPort>>>
    ensures printed { IfOk result.0 (λ printed. Serves
        (over ⟦<B::Kept as Keeper>⟧ B.facts) service.now result.1 printed
        (O.contents out.old) (O.contents out.new)) }
    ensures refused { IfErr result.0 (IsNotServed (over ⟦<B::Kept as Keeper>⟧ B.facts) result.1) }
    ensures unchanged { OnErr result.0 (out.new ≡ out.old) }
    ensures at { IsOf (over ⟦<B::Kept as Keeper>⟧ B.facts) file.now result.1 }
{
    match close_book::<B, _>(serve_book(rt, file, service, start, out)) {
        Ok((closed, done)) => {
            let (served, used) = done;
            (served, Touched::Book(closed, used))
        }
        Err(unopened) => refused(unopened),
    }
}

// Opens the book in a file, and serves connections to its desk.
fn serve_book<B: BookFile, O: Write, F>(
    rt: &HostRuntime,
    file: &str,
    service: &Service,
    start: B,
    out: &mut O,
) -> Finished<B, (Result<Printed, Failure>, PortUsed<F>)>
    ensures served { IfOk result (λ (book, done). IfOk done.0 (λ printed.
        IsServed (over ⟦<B::Kept as Keeper>⟧ B.facts) service.now.operator book.desk
        × Prints (server_text service.now.port service.now.count (⟦<B::Kept as Keeper>⟧.has_failed book.desk.keeper))
        (stop_of_desk (⟦<B::Kept as Keeper>⟧.has_failed book.desk.keeper)) printed (O.contents out.old)
        (O.contents out.new))) }
    ensures taken { IfOk result (λ (_, done). IfOk done.0 (λ printed.
        TakesAt service.now done.1 printed (O.contents out.old) (O.contents out.new))) }
    ensures refused { IfOk result (λ (book, done). IfErr done.0 (λ why. IsNotListening done.1 why
        × IsIdle (over ⟦<B::Kept as Keeper>⟧ B.facts) book.desk)) }
    ensures unopened { IfErr result (λ unopened. B.facts.was_unopened unopened) }
    ensures at { IfOk result (λ (book, _). string_bytes book.lock.locked.name ≡ lock_name file.now) }
    ensures of { IfErr result (λ unopened. B.facts.refused_at file.now unopened) }
    ensures unchanged { OnErr result (out.new ≡ out.old) }
    ensures silent { IfOk result (λ (_, done). OnErr done.0 (out.new ≡ out.old)) }
{
    let mut book = start.open(rt, file)?;
    let served = serve_desk::<B, _, _>(rt, book.desk(), service, out);
    Ok((book.finish(), served))
}

// Serves this many connections on a port to the desk over a file. Refused where the port cannot be had, or for lack of
// memory.
fn serve_desk<B: BookFile, O: Write, F>(
    rt: &HostRuntime,
    desk: &mut Desk<B::Kept>,
    service: &Service,
    out: &mut O,
) -> (Result<Printed, Failure>, PortUsed<F>)
    ensures served { IfOk result.0 (λ printed. (⟦<B::Kept as Keeper>⟧.is_honest desk.new.keeper
        → (book : Book) → Holds ⟦<B::Kept as Keeper>⟧ desk.old book
        → ServedOver (over ⟦<B::Kept as Keeper>⟧ B.facts) service.now.operator book
        desk.new)
        × Prints (server_text service.now.port service.now.count (⟦<B::Kept as Keeper>⟧.has_failed desk.new.keeper))
        (stop_of_desk (⟦<B::Kept as Keeper>⟧.has_failed desk.new.keeper)) printed (O.contents out.old)
        (O.contents out.new)) }
    ensures taken { IfOk result.0 (λ printed.
        TakesAt service.now result.1 printed (O.contents out.old) (O.contents out.new)) }
    ensures honest { ⟦<B::Kept as Keeper>⟧.is_honest desk.new.keeper
        → ⟦<B::Kept as Keeper>⟧.is_honest desk.old.keeper }
    ensures refused { IfErr result.0 (IsNotListening result.1) }
    ensures idle { OnErr result.0 (desk.new ≡ desk.old) }
    ensures unchanged { OnErr result.0 (out.new ≡ out.old) }
{
    match NoPort::unless_listening(rt, service) {
        Ok(mut connections) => {
            let printed = serve_all(rt.alloc(), &mut connections, desk, service, out);
            B::what_a_session_leaves(desk);
            (Ok(printed), Used::Port(Snapshot::of(&connections)))
        }
        Err(refused) => (Err(refused.failure()), Used::NoPort(Snapshot::of(&refused))),
    }
}

// Says on which port connections are taken, serves them, and says how many they were, unless the desk has failed. Where
// the first is not printed whole, none is served.
fn serve_all<C: Connections, K: Keeper, O: Write>(
    alloc: Global,
    connections: &mut C,
    desk: &mut Desk<K>,
    service: &Service,
    out: &mut O,
) -> Printed
    ensures works { K.is_honest desk.new.keeper → (book : Book) → Holds K.Keeper desk.old book
        → WorksForAll K.Keeper service.now.operator book desk.new }
    ensures honest { K.is_honest desk.new.keeper → K.is_honest desk.old.keeper }
    ensures printed { Prints (server_text service.now.port (C.to_come connections.old) (K.has_failed desk.new.keeper))
        (stop_of_desk (K.has_failed desk.new.keeper)) result (O.contents out.old) (O.contents out.new) }
    ensures taken { TakesAsPrinted service.now.port (C.to_come connections.old) (C.to_come connections.new) result
        (O.contents out.old) (O.contents out.new) }
{
    a_desk_at_rest_works_for_all(desk);
    let count = connections.left();
    if let Err(failed) = (Done::Listening { port: service.port }).print(out) {
        return Printed::Lost(failed);
    }
    serve_connections(alloc, connections, desk, &service.operator);
    if desk.failed() {
        return Printed::Stopped(Refusal::Failed);
    }
    Printed::sent(Done::Served { count }.print(out))
}
