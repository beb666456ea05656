// The table of sessions, in order of first request; it takes no memory.
ghost use Rattle.std.specs.{Prelude.{◌≡◌, ◌≢◌, ◌<◌, ◌≤◌, ◌⊎◌, ◌++◌, [], ◌∷◌, ℕ, List, Some, length, slice_get, slice_set}, List.{position}};
ghost use Rattle.arrayvec.specs.ArrayVec.{array_vec_len};
ghost use Rattle.df_sessions.specs.{Table.{AreDistinctClients, AreNamed, IsSessionTable, IsKnownClient, has_client, requested, with_request, with_reply_stored}, Changes.{Change, sessions_after}};
ghost use Rattle.df_sessions.specs.{Changes.Change.{Request, Reply}, Requests.{sessions_of}};
ghost use Rattle.df_theory.specs.{Sessions.{noted, session_of_header}, Units.{Header}};

use crate::Session;
use arrayvec::ArrayVec;
use df_base::Check;
use std::marker::Model;

/// At most 64 sessions; a client's place never changes.
pub struct SessionTable {
    sessions: ArrayVec<Session, 64>,
    max: u32,
}

// Its owner lets go of it in one call, and not field by field.
impl Drop for SessionTable {
    fn drop(self) {
        let SessionTable {
            sessions: _,
            max: _,
        } = self;
    }
}

impl Model for SessionTable {
    ghost use Rattle.df_sessions.specs.Table.{Table, IsSessionTable};

    ghost Value = { Table };

    ghost view = { λ t. record { max = t.max; sessions = t.sessions.items } };

    ghost invariant = { λ t. IsSessionTable (record { max = t.max; sessions = t.sessions.items }) };
}

impl SessionTable {
    /// A table with no session, and places for `max` of them: 1 to 64.
    pub fn new(max: u32) -> SessionTable
        requires some { 1 ≤ max }
        requires most { max ≤ 64 }
        ensures empty { result.sessions ≡ [] }
        ensures places { result.max ≡ max }
    {
        SessionTable {
            sessions: ArrayVec::new(),
            max,
        }
    }

    /// The table of these sessions, as a checkpoint has them, with places for `max` of them: their clients aren't 0 and differ.
    pub fn over(max: u32, sessions: ArrayVec<Session, 64>) -> SessionTable
        requires some { 1 ≤ max }
        requires most { max ≤ 64 }
        requires few { length sessions.items ≤ max }
        requires named { AreNamed sessions.items }
        requires apart { AreDistinctClients sessions.items }
        ensures { result ≡ record { max = max; sessions = sessions.items } }
    {
        SessionTable { sessions, max }
    }

    /// A second table of the same sessions.
    pub fn copied(&self) -> SessionTable
        ensures { result ≡ self.now }
    {
        let mut sessions = ArrayVec::new();
        for session in self.sessions.as_slice() {
            sessions.push(*session);
        }
        SessionTable {
            sessions,
            max: self.max,
        }
    }

    /// How many sessions there are.
    pub fn len(&self) -> u64
        ensures value { result ≡ length self.now.sessions }
        ensures table { IsSessionTable self.now }
    {
        self.sessions.len() as u64
    }

    /// The sessions in order of their places.
    pub fn as_slice(&self) -> &[Session]
        ensures { result.now ≡ self.now.sessions }
    {
        self.sessions.as_slice()
    }

    /// The session at a place, None exactly where the place isn't below `len`.
    pub fn get(&self, place: u64) -> Option<Session>
        ensures { result ≡ slice_get self.now.sessions place }
    {
        self.sessions.get(place as usize).copied()
    }

    /// The place of a client's session, None exactly where no session has that client.
    pub fn place_of(&self, client: u128) -> Option<u64>
        ensures { result ≡ position (has_client client) self.now.sessions }
    {
        self.find(client).map(|place| place as u64)
    }

    fn find(&self, client: u128) -> Option<usize>
        ensures { result ≡ position (has_client client) self.now.sessions }
    {
        self.sessions
            .iter()
            .position(|session| session.client == client)
    }

    /// Records a client's request: a known client's request and op are replaced and its reply isn't stored yet, a new
    /// client goes last. Answers the client's place.
    pub fn apply(&mut self, client: u128, request: u64, op: u64) -> u64
        requires named { client ≢ 0 }
        requires room { IsKnownClient client self.old.sessions ⊎ (length self.old.sessions < self.old.max) }
        ensures sessions { self.new.sessions ≡ with_request client request op self.old.sessions }
        ensures places { self.new.max ≡ self.old.max }
        ensures place { position (has_client client) self.new.sessions ≡ Some result }
        ensures there { slice_get self.new.sessions result ≡ Some (requested client request op) }
        ensures others { (k : ℕ) → k ≢ result → slice_get self.new.sessions k ≡ slice_get self.old.sessions k }
        ensures history { (changes : List Change) → self.old.sessions ≡ sessions_after changes
            → self.new.sessions ≡ sessions_after (changes ++ Request client request op ∷ []) }
        ensures noted { (h : Header) → session_of_header h ≡ record { client = client; request = request; op = op }
            → sessions_of self.new.sessions ≡ noted h (sessions_of self.old.sessions) }
    {
        let session = Session {
            client,
            request,
            op,
            reply: None,
        };
        match self.place_of(client) {
            Some(place) => {
                put(&mut self.sessions, place, session);
                place
            }
            None => {
                let place = self.sessions.len() as u64;
                self.sessions.push(session);
                place
            }
        }
    }

    /// Records that the reply to a session's latest request is stored.
    pub fn store(&mut self, place: u64, reply: Check)
        requires { place < length self.old.sessions }
        ensures sessions { self.new.sessions ≡ with_reply_stored place reply self.old.sessions }
        ensures places { self.new.max ≡ self.old.max }
        ensures others { (k : ℕ) → k ≢ place → slice_get self.new.sessions k ≡ slice_get self.old.sessions k }
        ensures history { (changes : List Change) → self.old.sessions ≡ sessions_after changes
            → self.new.sessions ≡ sessions_after (changes ++ Reply place reply ∷ []) }
        ensures unnoted { sessions_of self.new.sessions ≡ sessions_of self.old.sessions }
    {
        let mut session = self.sessions[place as usize];
        session.reply = Some(reply);
        put(&mut self.sessions, place, session);
    }
}

/// Puts a session in the place of another.
fn put(sessions: &mut ArrayVec<Session, 64>, place: u64, session: Session)
    requires { place < array_vec_len sessions.old }
    ensures items { sessions.new.items ≡ slice_set sessions.old.items place session }
    ensures len { array_vec_len sessions.new ≡ array_vec_len sessions.old }
{
    sessions[place as usize] = session;
}
