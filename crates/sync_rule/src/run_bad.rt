use sb_message::Msg;
use thiserror::Error;

/// Why a runner is spent.
#[derive(Debug, Drop, Error)]
pub enum RunBad {
    /// The first message that came in at a port isn't the introduction that its link asks for.
    #[error("wrong introduction at port {port}")]
    WrongIntro { port: u32, found: Msg },
    /// Memory is wanting.
    #[error("no memory")]
    NoMemory,
}
