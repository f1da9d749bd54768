//! The tokens of a text, and the classes of characters that tell them apart.
#![tactic(auto)]

mod chars;
mod digits;
mod escapes;
mod form;
mod integers;
mod layout;
mod meaning;
mod next;
mod quotes;
mod token;

pub use chars::{
    Class, are_in_class, is_graphic, is_in_class, is_layout, is_letter_digit, is_name_start,
    is_variable_start, split_first,
};
pub use meaning::{integer_value, token_text};
pub use next::next_token;
pub use token::{LexFault, Token, TokenKind};
