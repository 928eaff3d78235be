//! Strict texts: lines that each end with a line feed, words that are parted by single spaces, and decimal numbers of one spelling.
#![tactic(auto)]

mod laws;
mod line;
mod loose;
mod numeral;
mod word;

pub use laws::{one_line, words_of_line};
pub use line::{Line, cut_line, is_strict};
pub use loose::{first_piece, loose_words};
pub use numeral::number;
pub use word::cut_word;
