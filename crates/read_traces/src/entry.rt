//! Where the parts of an event stand in the columns of a process's events.

/// What kind of event it is, without its id.
#[derive(Clone, Copy)]
pub enum Tag {
    /// An event of its process alone.
    Local,
    /// It sends a message.
    Send,
    /// It receives a message.
    Recv,
}

/// Where the id and the settings of an event stand among those of all events of its process.
#[derive(Clone, Copy)]
pub struct Entry {
    /// What kind of event it is.
    pub tag: Tag,
    /// Where its id begins, in bytes.
    pub id_start: u32,
    /// How many bytes its id has.
    pub id_len: u32,
    /// Where its settings begin.
    pub set_start: u32,
    /// How many settings it has.
    pub set_len: u32,
}
