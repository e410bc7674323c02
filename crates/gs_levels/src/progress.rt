//! How far the search has come with a node.

/// How far the search has come with a node.
#[derive(Clone, Copy, Debug)]
pub enum Progress {
    /// Not begun.
    Fresh,
    /// Begun: of the edges into it those from place `left` on have been followed, and the others are among the first `left`.
    Open { left: usize },
    /// Every edge into it has been followed, so its level is settled.
    Done,
}
