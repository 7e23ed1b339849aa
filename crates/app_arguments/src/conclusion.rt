//! What a report comes to, under conditions.

/// What a report comes to, under conditions.
#[derive(Clone, Copy, Debug)]
pub enum Conclusion {
    /// The session is refused.
    Refused,
    /// It is judged, and some condition is met.
    Met,
    /// It is judged, and none is.
    Unmet,
}
