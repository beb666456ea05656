// Why a call is refused, from the numbers of what is in memory; the first reason of the order is the answer.
ghost use Rattle.std.specs.{Prelude.{◌≡◌, ◌≤◌, ◌∷◌, ℕ, nat_lt, List, [], length, option_map, IfSome}, List.{position}};
ghost use Rattle.df_base.specs.declared.TheConstants.{GREATEST};
ghost use Rattle.df_replica.specs.{Below.{session_of, has_client, Memory, first_refusal, prepare_refusals, reply_refusals, request_refusals, session_of_client}, Refusing.{AreCounters, session_at}};

use df_base::GREATEST;
use df_model::{AppendError, PrepareError, ReplyError};
use df_sessions::{Session, SessionTable};

/// The numbers that refusals go by.
#[derive(Clone, Copy)]
pub(crate) struct Counters {
    pub(crate) op: u64,
    pub(crate) head: u64,
    pub(crate) replies: u64,
    pub(crate) sessions: u64,
    pub(crate) places: u64,
    pub(crate) slots: u64,
    pub(crate) message_room: u64,
}

// The session of a client.
pub(crate) fn session_of(table: &SessionTable, client: u128) -> Option<Session>
    ensures { result ≡ session_at table.now.sessions (position (has_client client) table.now.sessions) }
{
    match table.place_of(client) {
        Some(place) => table.get(place),
        None => None,
    }
}

// Why a request becomes no prepare, where this is the client's session.
pub(crate) fn request_refusal(
    counters: &Counters,
    last: Option<Session>,
    client: u128,
    request: u64,
    size: u64,
) -> Option<AppendError>
    requires order { counters.now.replies ≤ counters.now.head }
    requires head { counters.now.head ≤ GREATEST }
    requires op { counters.now.op ≤ GREATEST }
    requires slots { counters.now.slots ≤ GREATEST }
    requires last { IfSome last (λ s. s.request ≤ GREATEST) }
    ensures { (m : Memory) (body : List ℕ) → AreCounters m counters.now → session_of_client client m.sessions ≡ option_map session_of last → size ≡ length body
        → result ≡ first_refusal (request_refusals m client request body) }
{
    if client == 0 {
        return Some(AppendError::ClientZero);
    }
    if counters.message_room < size {
        return Some(AppendError::BodyTooLong {
            max: counters.message_room,
        });
    }
    let mut expected = 1;
    if let Some(session) = last {
        if request == session.request && session.op <= counters.replies {
            return Some(AppendError::Repeated { op: session.op });
        }
        if counters.replies < session.op {
            return Some(AppendError::ReplyPending { op: session.op });
        }
        expected = session.request + 1;
    } else if counters.sessions == counters.places {
        return Some(AppendError::ClientsFull {
            max: counters.places,
        });
    }
    if request != expected {
        return Some(AppendError::RequestOrder { expected });
    }
    let waiting = counters.head - counters.replies;
    if waiting == 8 {
        return Some(AppendError::PipelineFull { waiting });
    }
    if counters.op + counters.slots < counters.head + 1 {
        return Some(AppendError::WalFull {
            op: counters.head + 1,
            checkpoint_op: counters.op,
        });
    }
    if counters.head == GREATEST || request > GREATEST {
        return Some(AppendError::OpsSpent);
    }
    None
}

// What is staged comes before what is appended.
pub(crate) fn staged_refusal(count: u64) -> Option<AppendError>
    ensures { result ≡ first_refusal ((nat_lt 0 count, AppendError.Staged count) ∷ []) }
{
    if count == 0 {
        return None;
    }
    Some(AppendError::Staged { count })
}

// Why a reply isn't stored.
pub(crate) fn reply_refusal(counters: &Counters, op: u64, size: u64) -> Option<ReplyError>
    requires order { counters.now.replies ≤ counters.now.head }
    requires head { counters.now.head ≤ GREATEST }
    ensures { (m : Memory) (body : List ℕ) → AreCounters m counters.now → size ≡ length body → result ≡ first_refusal (reply_refusals m op body) }
{
    if counters.replies == counters.head {
        return Some(ReplyError::NothingPending {
            head: counters.head,
        });
    }
    if op != counters.replies + 1 {
        return Some(ReplyError::ReplyOrder {
            expected: counters.replies + 1,
        });
    }
    if counters.message_room < size {
        return Some(ReplyError::BodyTooLong {
            max: counters.message_room,
        });
    }
    None
}

// Why a prepare isn't read.
pub(crate) fn prepare_refusal(counters: &Counters, op: u64) -> Option<PrepareError>
    requires order { counters.now.op ≤ counters.now.head }
    requires head { counters.now.head ≤ GREATEST }
    ensures { (m : Memory) → AreCounters m counters.now → result ≡ first_refusal (prepare_refusals m op) }
{
    if counters.op < op && op <= counters.head {
        return None;
    }
    Some(PrepareError::NotKept {
        first: counters.op + 1,
        last: counters.head,
    })
}
