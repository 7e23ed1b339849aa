//! The page on which a run is explored: one text of HTML, complete in itself.
//!
//! The page is the text before its data, the data, and the text after it. Both texts are the files of `page/`, put
//! together, and the same for each session. The data is one object of JSON that holds the session's processes,
//! variables, events and messages, its predicates, and the answers of its report or the causal cycle that it names, as
//! the definitions give it, with what is wished of the predicates, notes, and a pattern of links. The page of a refusal
//! has the text of the report in its place, and an explanation. No byte of the data is `<`, so nothing in it can end
//! the element that it stands in, whatever an id is.
//!
//! - `text_before`: the page's text before its data
//! - `text_run`, `text_verdict`, `text_notes`, `text_predicate`, `text_matter`, `text_lanes`, `text_labels`,
//!   `text_diagram`, `text_picture`, `text_panel`, `text_refusal`, `text_pointer`, `text_main`: the texts after its
//!   data, one a script
//! - `json_texts`: texts of JSON
//! - `predicate_data`: a predicate's tree
//! - `event_data`: processes, variables, events and messages
//! - `answer_data`: the answers of a report, or the causal cycle that it names
//! - `source`: where events were recorded
//! - `source_data`: the files in which they were
//! - `extras`: what a page has beside its session
//! - `extra_data`: what is wished of predicates, notes, and the pattern of links
//! - `content`: what a page shows
//! - `page_data`: the data of a page
//! - `page`: a page's text, also written
//! - `refusal`: the page of a refusal
#![tactic(auto)]

mod answer_data;
mod content;
mod event_data;
mod extra_data;
mod extras;
mod json_texts;
mod page;
mod page_data;
mod predicate_data;
mod refusal;
mod source;
mod source_data;
mod text_before;
mod text_diagram;
mod text_labels;
mod text_lanes;
mod text_main;
mod text_matter;
mod text_notes;
mod text_panel;
mod text_picture;
mod text_pointer;
mod text_predicate;
mod text_refusal;
mod text_run;
mod text_verdict;

pub use content::{Content, Outcome};
pub use extras::{Extras, Wish, WishKind};
pub use page::{text, write};
pub use page_data::{data, data_lacks_less};
pub use refusal::{refusal_lacks_less, refusal_page};
pub use source::Source;
