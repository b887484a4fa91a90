// The rows of a file sorted, and questions 21 to 24 to one file whose right paths are worked out.
#![tactic(auto)]

mod matcher;
mod outputs;
mod paths;
mod prepared;
mod right_outputs;
mod right_path;
mod variables;

pub use paths::judge_paths;
pub use prepared::sorted_file;
pub use right_path::RightPath;
