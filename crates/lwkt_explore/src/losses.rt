//! States from which no end can be reached.

/// The states from which no end can be reached by turns that were tried, an end being a state where every thread has ended that is no
/// service. There is one at least.
#[derive(Drop)]
pub struct Lost {
    /// How many of the states that were kept are such.
    pub count: usize,
    /// The processors of the turns, 0 to 7, that lead to the first of them; none if that is the opening. After a search by
    /// `Method::Plain` no order to any of them is shorter.
    pub order: Vec<u8>,
}
