/// What a step has done, without what it asks for: of an access the core's pending one tells that, and of a trap
/// `mcause`.
#[derive(Clone, Copy, Debug, PartialEq, Eq)]
pub(crate) enum Did {
    Done,
    Load,
    Store,
    Wait,
    Trapped,
}
