ghost use Rattle.std.specs.Prelude.{◌≡◌};
ghost use Rattle.texts.specs.Cursors.{cursor};
ghost use Rattle.texts.specs.Fields.{start, stepped, value_at, next_field, end_at, ended};

use crate::field::Field;
use crate::fields::Fields;
use crate::pieces::Pieces;
use crate::refusal::Fault;

// The value of a field that has the byte behind it, and begins at `column`.
fn read_field<F: Field>(field: &[u8], column: usize) -> Result<F, Fault>
    ensures { result ≡ value_at F.Field.meaning column field.now }
{
    F::read(&field[..field.len().saturating_sub(1)]).map_err(|refusal| Fault { refusal, column })
}

// Refuses a line that lacks its LF.
pub fn check_ended(line: &[u8]) -> Result<(), Fault>
    ensures { result ≡ ended line.now }
{
    match line {
        [.., b'\n'] => Ok(()),
        _ => Err(Fault::bad_field(line.len())),
    }
}

impl<'a> Fields<'a> {
    // All the fields of a line that ends with its LF.
    pub fn of(line: &'a [u8]) -> Fields<'a>
        ensures { cursor result ≡ start line.now }
    {
        Fields {
            left: Pieces::of(line, b','),
            column: 1,
            last: line.len(),
        }
    }

    // Reads the next field.
    pub fn next<F: Field>(&mut self) -> Result<F, Fault>
        ensures value { result ≡ next_field F.Field.meaning (cursor self.old) }
        ensures after { cursor self.new ≡ stepped (cursor self.old) }
    {
        let field = self.left.next().ok_or(Fault::bad_field(self.last))?;
        let column = self.column;
        self.column += field.len();
        read_field(field, column)
    }

    // Refuses a field too many.
    pub fn end(&self) -> Result<(), Fault>
        ensures { result ≡ end_at (cursor self.now) }
    {
        let mut left = self.left;
        if left.next().is_some() {
            return Err(Fault::bad_field(self.column));
        }
        Ok(())
    }
}
