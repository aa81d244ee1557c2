//! Heads of requests: what the bytes up to the empty line say, and which row of the desk's routes they ask for.

mod bank_route;
mod fields;
mod head;
mod head_fault;
pub mod laws;
pub mod limits;
mod named_values;
mod number;
mod operator_route;
mod parameters;
mod route;
mod routing;
mod tables;
mod whole_paths;

pub use crate::heads::bank_route::BankRoute;
pub use crate::heads::head::Head;
pub use crate::heads::head_fault::HeadFault;
pub use crate::heads::operator_route::OperatorRoute;
pub use crate::heads::parameters::Parameters;
pub use crate::heads::route::Route;
