// The rows of standard input. A line that begins with = gives a file, one that begins with + goes on with it; the rows after them are
// about that file.
ghost use Rattle.std.specs.Prelude.{◌≡◌, length, MatchOption};
ghost use Rattle.std.specs.Iterator.{at_most};
ghost use Rattle.cases_rows.specs.Row.{IsRow};

use crate::file::File;
use crate::lines::Lines;

// A row: what stands before its first space, what it says from there on, and the file of the lines above it.
#[derive(Clone, Copy)]
pub struct Row<'a> {
    pub file: File,
    pub name: &'a [u8],
    pub says: &'a [u8],
}

#[derive(Drop)]
pub struct Rows<'a> {
    pub file: File,
    pub lines: Lines<'a>,
}

impl<'a> Rows<'a> {
    pub fn of(input: &'a [u8]) -> Rows<'a>
        ensures { result.lines.0.now ≡ input.now }
    {
        Rows {
            file: File::none(),
            lines: Lines(input),
        }
    }
}

impl<'a> Iterator for Rows<'a> {
    type Item = Row<'a>;

    ghost next_gives = { λ s r t. MatchOption r (length t.lines.0.now ≡ 0) (λ row. IsRow s.lines.0.now row.name.now row.says.now t.lines.0.now) };

    ghost remaining = { λ s. at_most (length s.lines.0.now) };

    fn next(&mut self) -> Option<Row<'a>> {
        while let Some(line) = self.lines.next() {
            match line.first() {
                None => {}
                Some(b'=' | b'+') => self.file = self.file.add(line),
                Some(_) => {
                    let space = line.iter().position(|b| *b == b' ').unwrap_or(line.len());
                    let (name, says) = line.split_at(space);
                    return Some(Row {
                        file: self.file,
                        name,
                        says,
                    });
                }
            }
        }
        None
    }
}
