//! What comes twice: laws by which a bank may send a command again, an operator a batch, and a desk
//! may be opened again after a stop.

pub mod laws;
