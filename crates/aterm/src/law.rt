// What holds of every text.
ghost use Rattle.aterm.specs.Total.{EveryText, MeantByBytes};

// Every list of numbers is written by a tree, or it has a fault.
pub fn every_text_is_judged() -> bool
    ensures { EveryText }
{
    true
}

// A string's bytes, with their escapes resolved one by one, are what the string means.
pub fn bytes_mean_the_string() -> bool
    ensures { MeantByBytes }
{
    true
}
