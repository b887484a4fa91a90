// The fields of a file in which rows stand, each with its number.
#[derive(Clone, Copy, PartialEq, Debug)]
pub enum Field {
    Outputs = 1,
    // the input files
    Inputs = 2,
    // the input sources
    Sources = 3,
    Environment = 7,
}
