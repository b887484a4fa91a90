// Settling the files of an image: what is kept of them, how the files of input rows stand, which file is ready, the calls `open`,
// `take`, `settle`, `put_back`, `verdict`, `path`, `rewrite`, `circle`, `line`, `tail` and `refusal`, `run`, which makes any list of them over
// one checker, and `report`, which settles every file.
#![tactic(auto)]

mod call;
mod checker;
mod laws;
mod refused;
mod reports;
mod standing;
mod state;
mod states;

pub use call::{Answer, Call, Offer, Ran, Window};
pub use checker::reporting::refusal;
pub use checker::running::run;
pub use checker::{Checker, Visit};
pub use laws::{
    counts_are_rises, every_call_answers, one_answer_a_call, opening_stands, rewriting_stands,
    runs_stand,
};
pub use refused::{CallRefusal, OpenRefusal};
pub use reports::report;
pub use state::{Hashes, Settlement, State};
