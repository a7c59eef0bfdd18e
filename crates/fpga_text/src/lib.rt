//! Lines, words, whole numbers and decimals of texts.
#![tactic(auto)]

mod array_line;
mod coded;
mod cut;
mod fault;
mod first_words;
mod front;
mod joined;
mod line;
mod lines;
mod number;
mod said;
mod style;

pub use array_line::{SizeLine, size_line};
pub use coded::Coded;
pub use fault::TextFault;
pub use first_words::FirstWords;
pub use line::{Line, Word};
pub use lines::Lines;
pub use number::{millionths_of, signed_number_of, whole_number_of};
pub use said::is_text;
pub use style::Style;
