// Where a walk along prepares stands, which prepare fits there, and its group: one is begun where the group before it is over, and counts
// as a whole. A prepare tells of the head by its op, but where it is of a group that was cut off there.
ghost use Rattle.std.specs.Prelude.{◌≡◌, ◌↔◌, ◌<◌, ◌≤◌, ◌+◌, ◌^◌, IsTrue};
ghost use Rattle.df_group.specs.{Below.{BindsHead, Fits, FitsGroup, MayAsk, header_of, number_of, number_or, sessions_of}, Cut.{binding_op, is_cut_off}, Fitting.{FitsAt, position_of}};

use df_base::Check;
use df_format::Header;
use df_sessions::SessionTable;

/// The last prepare of a tail, as far as the next one needs to know it; of an empty tail, the checkpoint's.
#[derive(Clone, Copy, Debug, PartialEq, Eq)]
pub struct Tail {
    pub op: u64,
    pub checksum: Check,
    /// Its mark, 0 of an empty tail.
    pub mark: u64,
}

/// Where a walk stands: the last prepare that it came to, as far as the next one needs to know it, and the first and the last op
/// of that one's group. After a checkpoint without prepares a group is over at the checkpoint's op.
#[derive(Clone, Copy, Debug, PartialEq, Eq)]
pub struct Position {
    pub last: Tail,
    pub group: u64,
    pub group_last: u64,
}

/// The end of a tail without prepares, after a checkpoint of this op, whose prepare has this checksum.
pub fn empty_tail(op: u64, checksum: &Check) -> Tail
    ensures { result ≡ record { op = op; checksum = checksum.now; mark = 0 } }
{
    let checksum = *checksum;
    Tail {
        op,
        checksum,
        mark: 0,
    }
}

// A number, or another one where it is 0.
fn number_or(number: u64, other: u64) -> u64
    ensures { result ≡ number_or number other }
{
    if number == 0 { other } else { number }
}

// The first op of a prepare's group: its own where it was appended by itself, with no group.
fn group_first(header: &Header) -> u64
    ensures { result ≡ (header_of header.now).group }
{
    number_or(header.group, header.op)
}

// The last op of a prepare's group.
fn group_last(header: &Header) -> u64
    ensures { result ≡ (header_of header.now).group_last }
{
    number_or(header.group_last, header.op)
}

/// After the end of a tail that is whole.
pub fn position_behind(last: &Tail) -> Position
    ensures { result ≡ record { last = last.now; group = 0; group_last = last.now.op } }
{
    Position {
        last: *last,
        group: 0,
        group_last: last.op,
    }
}

/// Where a walk stands that has come to the prepare with this header.
pub fn position_of(header: &Header) -> Position
    ensures { result ≡ position_of header.now }
{
    let checksum = header.checksum;
    Position {
        last: Tail {
            op: header.op,
            checksum,
            mark: header.mark,
        },
        group: group_first(header),
        group_last: group_last(header),
    }
}

// Whether the prepare with this header, which has the next op, begins a group where one is over, or goes on with it. Its group
// ends there or later.
fn follows(at: &Position, header: &Header) -> bool
    requires op { header.now.op ≡ at.now.last.op + 1 }
    requires ends { header.now.op ≤ (header_of header.now).group_last }
    ensures { IsTrue result ↔ FitsGroup at.now.group at.now.group_last (at.now.last.op + 1) (header_of header.now) }
{
    if at.group_last < header.op {
        group_first(header) == header.op
    } else {
        group_first(header) == at.group && group_last(header) == at.group_last
    }
}

// Whether the client had the reply to its last request, or is new and has a place.
fn may_ask(sessions: &SessionTable, clients: u32, header: &Header) -> bool
    requires places { sessions.now.max ≡ clients }
    ensures { IsTrue result ↔ MayAsk clients (header_of header.now) (sessions_of sessions.now.sessions) }
{
    let count = sessions.len();
    match sessions.place_of(header.client) {
        Some(place) => match sessions.get(place) {
            Some(session) => {
                header.request.saturating_sub(session.request) == 1 && session.op <= header.mark
            }
            None => false,
        },
        None => header.request == 1 && count < u64::from(clients),
    }
}

// Whether two checksums are one.
fn is_same(parent: Check, checksum: Check) -> bool
    ensures { IsTrue result ↔ (number_of parent ≡ number_of checksum) }
{
    parent == checksum
}

/// Whether the prepare with this header, which has the next op, fits where a walk stands, and so does its group: where it has the op
/// of the head that the superblock names, its group ends with it. The group ends at that op or later.
pub fn goes_on(
    head: u64,
    at: &Position,
    sessions: &SessionTable,
    clients: u32,
    header: &Header,
) -> bool
    requires places { sessions.now.max ≡ clients }
    requires op { header.now.op ≡ at.now.last.op + 1 }
    requires group { header.now.op ≤ (header_of header.now).group_last }
    ensures { IsTrue result ↔ FitsAt clients head at.now sessions.now.sessions header.now }
{
    // No reply is missing that was stored before, and at most eight prepares waited.
    let waits = at.last.mark <= header.mark
        && header.mark < header.op
        && header.op - header.mark <= 8;
    let fits = waits
        && is_same(header.parent, at.last.checksum)
        && may_ask(sessions, clients, header);
    fits && follows(at, header) && (header.op != head || group_last(header) <= head)
}

// Whether a prepare is of a group of several that begins right above this op, and so was cut off there.
fn is_cut_off(header: &Header, top: u64) -> bool
    requires { top < 2 ^ 63 }
    ensures { result ≡ is_cut_off top (header_of header.now) }
{
    let first = group_first(header);
    header.boot > 0 && first == top + 1 && first < group_last(header) && header.op > top
}

/// The op of a prepare that binds the head in this boot, where the head that is found is `top`: 0 of one that was cut off with its
/// group above that head, and of one of any other boot.
pub fn binding_op(header: &Header, boot: u64, top: u64) -> u64
    requires { top < 2 ^ 63 }
    ensures value { result ≡ binding_op boot top (header_of header.now) }
    ensures binds { (result ≤ top) ↔ (header.now.boot ≡ boot → BindsHead top (header_of header.now)) }
{
    if header.boot != boot || is_cut_off(header, top) {
        0
    } else {
        header.op
    }
}
