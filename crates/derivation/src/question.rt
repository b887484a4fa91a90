// The questions to a file that is read, in their order, each with its number.
#[derive(Clone, Copy, PartialEq, Debug)]
pub enum Question {
    // an output, and a name in each input row?
    Present = 13,
    // fields 1 to 3 without backslash, names and paths there well formed, input paths ending in `.drv`?
    Formed = 14,
    // keys different in each list, and the names in an input row?
    Different = 15,
    // the file fixed, or both columns empty?
    Fixed = 16,
    // each output's name at most 211 bytes?
    Short = 17,
}
