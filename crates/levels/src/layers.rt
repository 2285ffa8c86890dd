//! Layers: levels made of levels.

mod both;
mod either;
mod marks;
mod never;

pub use both::Both;
pub use either::Either;
pub use marks::{AtMark, ByMark, by_mark};
pub use never::Never;
