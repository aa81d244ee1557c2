//! Which run does what a request asks for.
ghost use Rattle.std.specs.Prelude.{IfOk, IfErr};
ghost use Rattle.rtgs_book_file.specs.OverFile.{over};
ghost use Rattle.rtgs_cli.specs.files.Touching.{IsOf};
ghost use Rattle.rtgs_cli.specs.Runs.{file_of, Denies, PrintsFor};

use crate::commands::{answer, make_book, migrate_book};
use crate::files::{Acted, Used};
use crate::imports::{OrderFile, import};
use crate::readings::show;
use crate::serving::{NoPort, Service, serve};
use rtgs_book_file::BookFile;
use rtgs_cli_arguments::{JudgedRequest, Request};
use rtgs_http_server::Port;
use rtgs_keeper::Keeper;
use std::io::Write;
use std::snapshot::Snapshot;

/// What a run met beside the file of its book. It has no bytes: it is there for contracts.
pub type RunUsed = Used<Snapshot<OrderFile>, Snapshot<Port>, Snapshot<NoPort>>;

/// Does what was asked for, and prints what came of it. Where it is refused, nothing is printed but the rows of a
/// statement before the one that was not read.
pub fn act<B: BookFile, O: Write>(
    rt: &HostRuntime,
    request: &JudgedRequest<'_>,
    start: B,
    out: &mut O,
) -> Acted<B, RunUsed>
    ensures printed { IfOk result.0 (λ printed. PrintsFor
        (over ⟦<B::Kept as Keeper>⟧ B.facts) request.now result.1 printed
        (O.contents out.old) (O.contents out.new)) }
    ensures refused { IfErr result.0 (Denies (over ⟦<B::Kept as Keeper>⟧ B.facts) request.now
        (record { contents = O.contents; before = out.old; after = out.new }) result.1) }
    ensures at { IsOf (over ⟦<B::Kept as Keeper>⟧ B.facts) (file_of request.now) result.1 }
{
    match *request {
        Request::Make { file } => make_book(rt, file, start, out),
        Request::Migrate { file } => migrate_book(rt, file, start, out),
        Request::Submit { file, command } => answer(rt, file, command, start, out),
        Request::Import {
            file,
            sender,
            orders,
        } => import(rt, file, sender, orders, start, out),
        Request::Read { file, reading } => show(rt, file, reading, start, out),
        Request::Serve {
            file,
            port,
            count,
            operator,
        } => {
            let service = Service {
                port,
                count,
                operator,
            };
            serve(rt, file, &service, start, out)
        }
    }
}
