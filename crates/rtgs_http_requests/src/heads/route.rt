//! What is asked for.
use crate::heads::bank_route::BankRoute;
use crate::heads::operator_route::OperatorRoute;

/// A row of the table of routes.
#[derive(Clone, Copy, Debug, PartialEq, Eq)]
pub enum Route {
    Bank(BankRoute),
    Operator(OperatorRoute),
}
