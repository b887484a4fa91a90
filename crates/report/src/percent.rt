// The share of accepted files.
ghost use Rattle.std.specs.Prelude.{◌≡◌};
ghost use Rattle.report.specs.Texts.{percent};

// How many of a hundred files are accepted: past 64 bits where many more are accepted than there are.
pub fn percent_of(files: usize, accepted: usize) -> u128
    ensures { result ≡ percent files accepted }
{
    if files == 0 {
        // what the definition says of no files, and no sign that an answer is missing
        return 100;
    }
    100 * accepted as u128 / files as u128
}
