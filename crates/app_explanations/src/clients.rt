//! Whose sessions the sessions of a history are.

/// Whose sessions the sessions of a history are: it says which steps of a path stay with one client.
#[derive(Clone, Copy, Debug, PartialEq, Eq)]
pub enum Clients {
    /// Each session is one of a client of its own. The steps within a session stay with one client, and no other does.
    Sessions,
    /// They are those of clients with names: besides, a session may begin with the end of a lost write of a client's session.
    Named,
}
