use super::fault::{ReadError, Wrong};
use super::fields::Fields;
use super::table::Table;
use screen::Screen;
use std::alloc::Global;

// A screen from its comma lines: one line for each row, table by table.
pub fn read(heap: Global, input: &str) -> Result<Screen, ReadError> {
    let mut reader = Reader {
        screen: Screen::new(heap),
        table: Table::Identifiers,
    };
    for (k, line) in input.lines().enumerate() {
        reader.read_line(k + 1, line)?;
    }
    Ok(reader.screen)
}

// The screen so far, and the table of the latest line, before which no later line may stand.
#[derive(Drop)]
struct Reader {
    screen: Screen,
    table: Table,
}

impl Reader {
    // Adds the row of one line.
    fn read_line(&mut self, number: usize, line: &str) -> Result<(), ReadError> {
        let screen = &mut self.screen;
        let mut fields = Fields::new(number, line, &mut screen.text);
        let table: Table = fields
            .letter()
            .parse()
            .map_err(|wrong| fields.fault(wrong))?;
        if table < self.table {
            return Err(fields.fault(Wrong::Order).into());
        }
        match table {
            Table::Identifiers => screen.identifiers.push(fields.identifier()?)?,
            Table::Places => screen.places.push(fields.place()?)?,
            Table::Instructions => screen.instructions.push(fields.instruction()?)?,
            Table::Numbers => screen.numbers.push(fields.word("the list number")?)?,
            Table::Blocks => screen.blocks.push(fields.block()?)?,
            Table::Functions => screen.functions.push(fields.function()?)?,
        }
        fields.end()?;
        self.table = table;
        Ok(())
    }
}
