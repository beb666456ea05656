// What the layers above rest on: the table is the theory's list of sessions, and what stays so of each session.
ghost use Rattle.std.specs.{Prelude.{◌≡◌, ◌<◌, ℕ, Bool, [], List, nat_eq, Some, IsTrue}, List.{AllByRecursion, IsDistinct, list_all}};
ghost use Rattle.df_sessions.specs.{Changes.{Change, changed_by, sessions_after}, Requests.{requests_in, requests_of, sessions_of}, Table.{ops_of, requested, with_request, with_reply_stored}};
ghost use Rattle.df_sessions.specs.declared.session.Session.{Session};
ghost use Rattle.df_theory.specs.Sessions;
ghost use Rattle.df_theory.specs.Units.{Message};

/// After a list of changes the table is the theory's list of sessions after prepares that ask for the same, whatever replies were stored.
pub fn requests_of_a_table()
    ensures whole { (changes : List Change) (prepares : List Message) → requests_in changes ≡ requests_of prepares
        → sessions_of (sessions_after changes) ≡ Sessions.sessions_after [] prepares }
    ensures later { (changes : List Change) (sessions : List Session) (prepares : List Message) → requests_in changes ≡ requests_of prepares
        → sessions_of (changed_by changes sessions) ≡ Sessions.sessions_after (sessions_of sessions) prepares }
{}

/// What passes a test of each session still does after a request that passes it, and after a stored reply where the test
/// doesn't ask for replies.
pub fn sessions_keep_passing()
    ensures requested { (test : Session → Bool) (client request op : ℕ) (sessions : List Session)
        → IsTrue (list_all test sessions) → IsTrue (test (requested client request op))
        → IsTrue (list_all test (with_request client request op sessions)) }
    ensures replied { (test : Session → Bool) (place : ℕ) (reply : List ℕ) (sessions : List Session)
        → ((s : Session) → IsTrue (test s) → IsTrue (test (record s { reply = Some reply })))
        → IsTrue (list_all test sessions) → IsTrue (list_all test (with_reply_stored place reply sessions)) }
{}

/// Where each request has a greater op than all before it, no two sessions have one op.
pub fn ops_stay_apart()
    ensures requested { (client request op : ℕ) (sessions : List Session)
        → AllByRecursion (λ other. other < op) (ops_of sessions) → IsDistinct nat_eq (ops_of sessions)
        → IsDistinct nat_eq (ops_of (with_request client request op sessions)) }
    ensures replied { (place : ℕ) (reply : List ℕ) (sessions : List Session)
        → ops_of (with_reply_stored place reply sessions) ≡ ops_of sessions }
{}
