// What is asked of the rows, and how one of them changes.
ghost use Rattle.std.specs.Prelude.{◌≡◌, ℕ, ◌≤◌};
ghost use Rattle.checker.specs.Rows.{row_at, RowChanged};
ghost use Rattle.checker.specs.declared.state.State.TheVariants.{Pending as Waiting};

use super::States;
use crate::state::State;

// The row is lent, not written in place: this form was asked for (docs/DECISIONS.md, 'Forms that were asked for').
fn change(row: &mut State, state: State)
    ensures { row.new ≡ state }
{
    *row = state;
}

impl States {
    // Every file pending.
    pub fn pending() -> States
        ensures { (k : ℕ) → row_at result k ≡ Waiting }
    {
        States {
            rows: [State::Pending; 256],
        }
    }

    // The state of a file, by its number; of a number without a row, pending.
    pub fn get(&self, file: usize) -> State
        ensures { result ≡ row_at self.now file }
    {
        file.checked_sub(1)
            .and_then(|before| self.rows.get(before))
            .copied()
            .unwrap_or(State::Pending)
    }

    // The file of this number is now in this state; the others stay.
    pub fn put(&mut self, file: usize, state: State)
        requires { (1 ≤ file) × (file ≤ 256) }
        ensures { RowChanged self.old file state self.new }
    {
        change(&mut self.rows[file - 1], state);
    }
}
