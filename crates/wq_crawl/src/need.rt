//! The needs of answers.

/// The step that comes before an answer.
#[derive(Clone, Copy, Debug)]
pub enum Need<'a> {
    /// Nothing.
    Nothing,
    /// A look at the current view of this root.
    Look(&'a str),
    /// A crawl of this root, and then a look at its view.
    Crawl(&'a str),
    /// A look at the view of this root, which is listed and shown first if it is not shown.
    Open(&'a str),
    /// A look at this root, which is then no longer shown. Only its number is used.
    Retire(&'a str),
}
