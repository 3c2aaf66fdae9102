// What every service answers. A refusal is one value, a number of the table and where it was met, and is passed on whole; what it names is set here alone.
#![tactic(auto)]

ghost use Rattle.std.specs.Prelude.{◌≡◌, ◌≤◌};
ghost use Rattle.answer.specs.Limits.{vertex_limit};
ghost use Rattle.answer.specs.Refusal.{because, at_value, on_column, on_page};
ghost use Rattle.answer.specs.Outcome.{in_page, in_column};
ghost use Rattle.answer.specs.Rule.{rule};

pub mod axis;
pub mod limits;
pub mod table;

// Why a call was refused: a number of the table, the column of a page that it concerns (0 none, 1 x, 2 y), the index of a value in a column (0 where
// it concerns none), and the page (0 likewise). So ordered it takes eight bytes. Number and column are
// numbers: see the tables of both.
#[derive(Clone, Copy)]
pub struct Refusal {
    pub number: u8,
    pub column: u8,
    pub index: u16,
    pub page: u32,
}

impl Refusal {
    // A refusal that concerns no page, no column and no value.
    pub fn because(number: u8) -> Refusal
        ensures { result ≡ because number }
    {
        Refusal {
            number,
            column: axis::NONE,
            index: 0,
            page: 0,
        }
    }

    // A refusal met at a value of a column.
    pub fn at_value(number: u8, index: usize) -> Refusal
        requires { index ≤ vertex_limit }
        ensures { result ≡ at_value index (because number) }
    {
        Refusal {
            number,
            column: axis::NONE,
            index: index as u16,
            page: 0,
        }
    }

    // The same refusal, met in a column of a page.
    pub fn on_column(self, column: u8) -> Refusal
        ensures { result ≡ on_column column self }
    {
        Refusal {
            number: self.number,
            column,
            index: self.index,
            page: self.page,
        }
    }

    // The same refusal, met in a page.
    pub fn on_page(self, page: u32) -> Refusal
        ensures { result ≡ on_page page self }
    {
        Refusal {
            number: self.number,
            column: self.column,
            index: self.index,
            page,
        }
    }
}

// What a rule answers that a test decides: nothing more to say where it holds, else its number.
#[tactic(auto, unfolding(crate::specs::Rule::rule, crate::specs::Outcome::need))]
pub fn rule(holds: bool, number: u8) -> Result<(), Refusal>
    ensures { result ≡ rule holds number }
{
    if holds {
        return Ok(());
    }
    Err(Refusal::because(number))
}

// The same answer, met in a page.
#[tactic(auto, unfolding(crate::specs::Outcome::marked))]
pub fn in_page<T>(answer: Result<T, Refusal>, page: u32) -> Result<T, Refusal>
    ensures { result ≡ in_page page answer }
{
    match answer {
        Ok(value) => Ok(value),
        Err(w) => Err(w.on_page(page)),
    }
}

// The same answer, met in a column of a page.
#[tactic(auto, unfolding(crate::specs::Outcome::marked))]
pub fn in_column<T>(answer: Result<T, Refusal>, column: u8) -> Result<T, Refusal>
    ensures { result ≡ in_column column answer }
{
    match answer {
        Ok(value) => Ok(value),
        Err(w) => Err(w.on_column(column)),
    }
}
