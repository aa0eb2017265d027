// How far searches along a line came.

/// How far one came, from the front on.
#[derive(Clone, Copy, Debug)]
pub struct Search {
    /// The slot of the next one to be looked at.
    pub at: u32,
    /// How many stand before it.
    pub gone: u32,
}

/// How far those in line were looked through: for who is late, and for who is notified instead.
#[derive(Clone, Copy, Debug)]
pub struct LateSearch {
    pub late: Search,
    pub quiet: Search,
}
