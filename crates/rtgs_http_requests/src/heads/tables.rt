//! The tables of routes.
//!
//! To add a route, add its variant and path to `BankRoute` or `OperatorRoute`, and a line here and in
//! `specs/heads/Tables.antt`. The compiler does not see a variant without a line: a request for it would find no route.
//! A line in `whole_paths.rt` spares a path without a parameter these tables.
ghost use Rattle.std.specs.Prelude.{◌≡◌, IfOk, OnOk};
ghost use Rattle.matchit.specs.Route.{parse_route};
ghost use Rattle.rtgs_http_requests.specs.heads.Tables.{holding, with_path, with_paths, read_paths, command_paths};
ghost use Rattle.rtgs_http_requests.specs.heads.Tables.{bank_reading_paths, desk_reading_paths};
ghost use Rattle.rtgs_http_requests.specs.heads.Tables.{reading_paths_of_banks, order_paths_of_banks};
ghost use Rattle.rtgs_http_requests.specs.heads.Tables.{order_paths, account_paths, day_paths};
ghost use Rattle.rtgs_http_requests.specs.declared.heads.operator_route.OperatorRoute.TheVariants.{ForBank};
ghost use Rattle.rtgs_http_requests.specs.declared.heads.route.Route.TheVariants.{Bank, Operator};

use crate::heads::bank_route::BankRoute;
use crate::heads::operator_route::OperatorRoute;
use crate::heads::route::Route;
use matchit::Router;
use std::alloc::{AllocError, Global};

/// The routes under GET. The only error is a lack of memory.
pub fn read_routes(alloc: Global) -> Result<Router<Route>, AllocError>
    ensures { IfOk result (λ router. router ≡ holding read_paths) }
{
    let mut router = Router::new(alloc);
    add_readings_of_banks(&mut router)?;
    add_desk_readings(&mut router)?;
    add_bank_readings(&mut router)?;
    Ok(router)
}

// Adds the paths of what the operator reads of a bank.
fn add_readings_of_banks(router: &mut Router<Route>) -> Result<(), AllocError>
    ensures { OnOk result (router.new ≡ with_paths reading_paths_of_banks router.old) }
{
    add_for_bank(
        router,
        "/desk/statements/{code}/{date}",
        BankRoute::ReadStatement,
    )?;
    add_for_bank(router, "/desk/held/{code}", BankRoute::ReadHeld)?;
    add_for_bank(router, "/desk/queue/{code}", BankRoute::ReadQueue)?;
    add_for_bank(
        router,
        "/desk/orders/{code}/{reference}",
        BankRoute::ReadOrder,
    )?;
    Ok(())
}

// Adds the paths of what the operator reads of the desk and of a date.
fn add_desk_readings(router: &mut Router<Route>) -> Result<(), AllocError>
    ensures { OnOk result (router.new ≡ with_paths desk_reading_paths router.old) }
{
    add_operator(router, "/desk/marks/{date}", OperatorRoute::ReadMarks)?;
    add_operator(router, "/desk/orders/{date}", OperatorRoute::ReadOrders)?;
    add_operator(router, "/desk/queues", OperatorRoute::ReadQueues)?;
    add_operator(router, "/desk/status", OperatorRoute::ReadStatus)?;
    add_operator(router, "/desk/accounts", OperatorRoute::ReadAccounts)?;
    add_operator(router, "/desk/report/{date}", OperatorRoute::ReadReport)?;
    Ok(())
}

// Adds the paths of what a bank reads.
fn add_bank_readings(router: &mut Router<Route>) -> Result<(), AllocError>
    ensures { OnOk result (router.new ≡ with_paths bank_reading_paths router.old) }
{
    add_bank(router, "/statements/{date}", BankRoute::ReadStatement)?;
    add_bank(router, "/waiting", BankRoute::ReadWaiting)?;
    add_bank(router, "/held", BankRoute::ReadHeld)?;
    add_bank(router, "/queue", BankRoute::ReadQueue)?;
    add_bank(router, "/account", BankRoute::ReadAccount)?;
    add_bank(router, "/orders/{reference}", BankRoute::ReadOrder)?;
    Ok(())
}

/// The routes under POST. The only error is a lack of memory.
pub fn command_routes(alloc: Global) -> Result<Router<Route>, AllocError>
    ensures { IfOk result (λ router. router ≡ holding command_paths) }
{
    let mut router = Router::new(alloc);
    add_orders_of_banks(&mut router)?;
    add_day_routes(&mut router)?;
    add_account_routes(&mut router)?;
    add_order_routes(&mut router)?;
    Ok(router)
}

// Adds the paths of what the operator does with a bank's orders, in the bank's name.
fn add_orders_of_banks(router: &mut Router<Route>) -> Result<(), AllocError>
    ensures { OnOk result (router.new ≡ with_paths order_paths_of_banks router.old) }
{
    add_for_bank(router, "/desk/batches/{code}", BankRoute::SendBatch)?;
    add_for_bank(
        router,
        "/desk/orders/{code}/{reference}/withdraw",
        BankRoute::WithdrawOrder,
    )?;
    Ok(())
}

// Adds the paths of what the operator does with the day.
fn add_day_routes(router: &mut Router<Route>) -> Result<(), AllocError>
    ensures { OnOk result (router.new ≡ with_paths day_paths router.old) }
{
    add_operator(router, "/desk/close", OperatorRoute::CloseDay)?;
    add_operator(router, "/desk/cutoff", OperatorRoute::CutOff)?;
    add_operator(router, "/desk/resolve", OperatorRoute::Resolve)?;
    add_operator(router, "/desk/open", OperatorRoute::OpenDay)?;
    Ok(())
}

// Adds the paths of what the operator does with an account.
fn add_account_routes(router: &mut Router<Route>) -> Result<(), AllocError>
    ensures { OnOk result (router.new ≡ with_paths account_paths router.old) }
{
    add_operator(router, "/desk/credit", OperatorRoute::SetCredit)?;
    add_operator(router, "/desk/post", OperatorRoute::Post)?;
    Ok(())
}

// Adds the paths of what a bank does with its orders.
fn add_order_routes(router: &mut Router<Route>) -> Result<(), AllocError>
    ensures { OnOk result (router.new ≡ with_paths order_paths router.old) }
{
    add_bank(router, "/batches", BankRoute::SendBatch)?;
    add_bank(
        router,
        "/orders/{reference}/withdraw",
        BankRoute::WithdrawOrder,
    )?;
    add_bank(router, "/orders", BankRoute::SendOrder)?;
    Ok(())
}

fn add_bank(router: &mut Router<Route>, path: &str, route: BankRoute) -> Result<(), AllocError>
    ensures { OnOk result (router.new ≡ with_path (parse_route path.now) (Bank route) router.old) }
{
    add(router, path, Route::Bank(route))
}

// Adds a path of what the operator asks for in a bank's name.
fn add_for_bank(router: &mut Router<Route>, path: &str, route: BankRoute) -> Result<(), AllocError>
    ensures { OnOk result (router.new ≡ with_path (parse_route path.now) (Operator (ForBank route)) router.old) }
{
    add_operator(router, path, OperatorRoute::ForBank(route))
}

// Adds a path of the operator.
fn add_operator(
    router: &mut Router<Route>,
    path: &str,
    route: OperatorRoute,
) -> Result<(), AllocError>
    ensures { OnOk result (router.new ≡ with_path (parse_route path.now) (Operator route) router.old) }
{
    add(router, path, Route::Operator(route))
}

// Adds a path and its route. A path that conflicts with another would be answered as lack of memory too; the tests of
// each route show that none does.
fn add(router: &mut Router<Route>, path: &str, route: Route) -> Result<(), AllocError>
    ensures { OnOk result (router.new ≡ with_path (parse_route path.now) route router.old) }
{
    match router.insert(path, route) {
        Ok(()) => Ok(()),
        Err(_) => Err(AllocError),
    }
}
