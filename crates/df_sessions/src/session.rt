// One client's session.
use df_base::Check;

/// A client's latest request.
#[derive(Clone, Copy, Debug, PartialEq, Eq, Default)]
pub struct Session {
    /// The client's number, not 0.
    pub client: u128,
    /// The number of its latest request.
    pub request: u64,
    /// The op of the prepare that holds it.
    pub op: u64,
    /// The checksum of its reply's header, once the reply is stored.
    pub reply: Option<Check>,
}
