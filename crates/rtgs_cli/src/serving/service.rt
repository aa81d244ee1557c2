//! What a server is asked to do.
use rtgs_money::KeyDigest;

/// On which port of this machine a server takes how many connections, and which digest the operator's key has.
#[derive(Clone, Copy, Debug)]
pub struct Service {
    pub port: u16,
    pub count: u32,
    pub operator: KeyDigest,
}
