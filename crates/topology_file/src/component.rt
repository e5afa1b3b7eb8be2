use crate::config::Config;
use cs_base::Name;

/// A component of a system.
#[derive(Debug, Drop)]
pub struct Component {
    /// Its name, which no other component of the system has.
    pub name: Name,
    pub config: Config,
}
