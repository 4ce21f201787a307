//! What is told in lines is read back: the text of an answer has one reading. Laws alone, no code.
//!
//! A name is one line, since no control stands in its text (`ad_dn`); identifiers, numbers and codes are words, in which
//! no blank stands either. So whoever splits a text at its line ends, and a line at its blanks, has what was told, and no
//! name can be made to read as another line. The definitions say how: `Lines` splits, and `Facts`, `Tokens`, `Events`,
//! `Listings`, `Diff`, `Rights` and `Words` say what each line tells; `Printed`, `DiffTold` and `RightsTold` say which
//! lines are printed.
//!
//! # Example
//!
//! ```text
//! // In a caller's proof: what who told is what is read.
//! ad_text_laws::the_lines_of_who_read_back();
//! ```
//!
//! # Proved
//!
//! The lines of `token`, `who`, `can`, `rights`, `list`, `audit` and `diff` give back the facts that they were written
//! of, in their order; `effective` is of lines of words, and these give back their words. The names of a schema are words
//! there: those of attributes and classes always are, and a right whose `cn` is none is told by its GUID.
//!
//! # The caller owes
//!
//! What each law takes as its premise: names, identifiers and GUIDs of their form, places and numbers below 2^64.
//!
//! # Cost
//!
//! Nothing runs.
#![tactic(auto)]

mod audit;
mod diff;
mod effective;
mod lines;
mod list;
mod rights;
mod token;
mod who;
mod words;

pub use audit::the_lines_of_audit_read_back;
pub use diff::{
    answers_of_one_text_tell_the_same, the_lines_of_diff_read_back, what_diff_prints_reads_back,
};
pub use effective::the_text_of_effective_is_of_words;
pub use lines::a_text_gives_back_its_lines;
pub use list::the_lines_of_list_read_back;
pub use rights::{the_lines_of_rights_read_back, what_rights_prints_reads_back};
pub use token::the_lines_of_a_token_read_back;
pub use who::{
    the_lines_of_can_read_back, the_lines_of_who_read_back, what_can_prints_reads_back,
    what_who_prints_reads_back,
};
pub use words::lines_of_words_read_back;
