//! The calls: one for each subcommand, over any reader and writer. The program makes the call of the subcommand on its command line. The
//! modules of the calls are not in the crate root, because the toolchain refuses a module beside a function of the same name.

pub mod answer;
pub mod dump;
pub mod encode;
pub mod explain;
pub mod master;
pub mod program;
pub mod request;
pub mod serve;
pub mod sim;
