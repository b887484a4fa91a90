// The columns of a line, each a number after a space.
ghost use Rattle.std.specs.Prelude.{◌≡◌, ◌∷◌};
ghost use Rattle.sink.specs.Write.{Writes};
ghost use Rattle.report.specs.Texts.{told_text, state_text};

use derivation::Told;
use itoa::Integer;
use sink::{Full, Sink, write_decimal};

// A number after a space.
pub fn write_column<S: Sink, I: Integer>(sink: &mut S, n: I) -> Result<(), Full>
    ensures { Writes S.step (S.held sink.old) (32 ∷ I.text n) result (S.held sink.new) }
{
    sink.write(b" ")?;
    write_decimal(sink, n)
}

// `NUMBER LAYER FIELD ROW PLACE`, each after a space. Not by `Display` of `Told`, since no clause of `fmt` says what a sink that refuses
// in the middle has taken.
pub fn write_told<S: Sink>(sink: &mut S, told: Told) -> Result<(), Full>
    ensures { Writes S.step (S.held sink.old) (told_text told) result (S.held sink.new) }
{
    write_column(sink, told.number)?;
    write_column(sink, told.layer)?;
    write_column(sink, told.field)?;
    write_column(sink, told.row)?;
    write_column(sink, told.place)
}

// What is told of a file, or that it has no verdict yet.
pub fn write_state<S: Sink>(sink: &mut S, told: Option<Told>) -> Result<(), Full>
    ensures { Writes S.step (S.held sink.old) (state_text told) result (S.held sink.new) }
{
    match told {
        Some(details) => write_told(sink, details),
        None => sink.write(b" pending"),
    }
}
