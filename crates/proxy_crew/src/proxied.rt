use crate::route::Route;
use proxy_members::{InMember, OutMember};

/// A channel that goes by proxy, and both its ends.
#[derive(Drop)]
pub struct Proxied<'q, O, I> {
    pub route: Route,
    pub sending: OutMember<'q, O>,
    pub receiving: InMember<'q, I>,
}
