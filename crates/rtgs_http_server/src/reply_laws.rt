//! Laws of requests and their replies, over the definitions by which `serve_one` of `exchange` replies: a
//! participant is shown its own rows alone, a reply is determined, and what comes again is answered as a repeat.

pub mod laws;
