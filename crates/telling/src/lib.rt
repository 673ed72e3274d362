// What the console tells of a table: an outcome, the report, every field, what a search finds, how rules fit, how lists of steps end, how two logs compare, whether it is at rest; by the public calls, as text in a caller's bytes.

#![tactic(auto, using(text::proofs::Writing::writing), unfolding(crate::specs::Texts::sender_text, crate::specs::Texts::search_text, crate::specs::Texts::pair_text, crate::specs::Texts::misfit_text, crate::specs::Texts::loaded_text, crate::specs::Texts::named_number, crate::specs::Texts::compared_text, crate::specs::Texts::rest_text, text::specs::Texts::answer_text, model::specs::Bondtrace::ascii, model::specs::Lists::up_to))]

mod compared;
mod counted;
mod lines;
mod loadings;
mod reports;
mod rests;
mod shows;

pub use compared::put_compared;
pub use counted::count;
pub use lines::{put_line, put_word};
pub use loadings::put_loaded;
pub use reports::{Filled, blank, report, report_to};
pub use rests::rest;
pub use shows::{outcome, search, show};
